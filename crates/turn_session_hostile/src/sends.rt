//! The requests that were sent, and how long each is awaited (RFC 8489, section 6.2.1).

use std::alloc::Global;
use std::net::IpAddr;
use turn_hostile_net::fault::Fault;
use turn_hostile_net::request::{Purpose, Request};
use turn_hostile_net::world::{MS, local};
use turn_session_book::keys::Key;
use turn_stun::message::method::Method;
use turn_types::TransportType;

/// A request that was sent.
#[derive(Clone, Copy)]
struct Sent {
    id: [u8; 12],
    purpose: Purpose,
    method: Method,
    /// Until when it is awaited since it was sent last, in nanoseconds. A request that is due to be sent again then is.
    until: u64,
    /// How often it was sent.
    times: u32,
}

/// The requests that were sent and have no response that the session has taken.
#[derive(Drop)]
pub struct Sends {
    transport: TransportType,
    sent: Vec<Sent>,
}

/// The first wait over UDP, which is doubled after each transmission.
const FIRST_WAIT: u64 = 500 * MS;

/// How often a request is sent over UDP.
const TRANSMISSIONS: u32 = 7;

/// The wait after the last transmission.
const LAST_WAIT: u64 = 16 * FIRST_WAIT;

/// The wait over a stream, where a request is sent once: the sum of the others.
const STREAM_WAIT: u64 = 39_500 * MS;

impl Sends {
    /// Nothing was sent over this transport.
    pub fn new(alloc: Global, transport: TransportType) -> Sends {
        Sends {
            transport,
            sent: Vec::new(alloc),
        }
    }

    /// A request is sent now. Whose data connection it binds is known by its end.
    ///
    /// # Errors
    ///
    /// If memory allocation fails.
    pub fn send(&mut self, request: Request, now: u64) -> Result<(), Fault> {
        let transport = if request.end == local() {
            self.transport
        } else {
            TransportType::Tcp
        };
        for sent in self.sent.iter_mut() {
            if sent.id == request.id {
                sent.until = now.saturating_add(wait_after(transport, sent.times));
                sent.times = sent.times.saturating_add(1);
                return Ok(());
            }
        }
        Ok(
            self.sent.push(Sent {
                id: request.id,
                purpose: request.purpose,
                method: request.method,
                until: now.saturating_add(wait_after(transport, 0)),
                times: 1,
            })?,
        )
    }

    /// The session has taken a response to the request with this ID: it awaits it no more.
    pub fn answer(&mut self, id: [u8; 12]) {
        for sent in self.sent.iter_mut() {
            if sent.id == id {
                sent.until = 0;
            }
        }
    }

    /// Whether the request with this ID has another method. A response then answers nothing.
    pub fn has_other_method(&self, id: [u8; 12], method: Method) -> bool {
        for sent in self.sent.iter() {
            if sent.id == id {
                return sent.method != method;
            }
        }
        false
    }

    /// Whether a request is awaited at this time that is for this key, or for what that needs.
    pub fn is_awaited(&self, key: Key, now: u64) -> bool {
        for sent in self.sent.iter() {
            if sent.until > now && serves(sent.purpose, key) {
                return true;
            }
        }
        false
    }
}

/// The wait after a transmission of a request that was sent so often before.
fn wait_after(transport: TransportType, before: u32) -> u64 {
    if transport == TransportType::Tcp {
        return STREAM_WAIT;
    }
    if before.saturating_add(1) >= TRANSMISSIONS {
        return LAST_WAIT;
    }
    let mut wait = FIRST_WAIT;
    for _ in 0..before {
        wait = wait.saturating_mul(2);
    }
    wait
}

/// Whether a request with this purpose is for this key, or for what that needs.
fn serves(purpose: Purpose, key: Key) -> bool {
    match (purpose, key) {
        // A CHANNEL_BIND requests the permission too (RFC 8656, section 12).
        (Purpose::Permit(peer) | Purpose::Bind(_, peer), _) => peer.ip() == peer_ip_of(key),
        (Purpose::Connect(peer), Key::Connect(to)) => peer == to,
        (Purpose::BindConnection(_), Key::Connect(_)) => true,
        _ => false,
    }
}

/// The IP address of the key's peer.
fn peer_ip_of(key: Key) -> IpAddr {
    match key {
        Key::Permission(ip) => ip,
        Key::Channel(peer) | Key::Connect(peer) => peer.ip(),
    }
}

//! What the client requests, as its packets say.

use crate::fault::{Fault, expect};
use crate::message::is_signed;
use std::alloc::Global;
use std::net::SocketAddr;
use turn_stun::message::Message;
use turn_stun::message::header::MessageClass;
use turn_stun::message::method::Method;
use turn_types::attribute::{ChannelNumber, ConnectionId, Lifetime, XorPeerAddress};
use turn_types::message::{
    ALLOCATE, CHANNEL_BIND, CONNECT, CONNECTION_BIND, CREATE_PERMISSION, REFRESH,
};

/// What a request is for.
#[derive(Clone, Copy)]
pub enum Purpose {
    /// An allocation.
    Allocate,
    /// More time for it.
    Refresh,
    /// Its end.
    Delete,
    /// A permission for the IP address of this peer.
    Permit(SocketAddr),
    /// This channel to this peer.
    Bind(u16, SocketAddr),
    /// A data connection to this peer.
    Connect(SocketAddr),
    /// The connection with this number, over the data connection on which the request came.
    BindConnection(u32),
}

/// A request of the client.
#[derive(Clone, Copy)]
pub struct Request {
    /// Its transaction ID.
    pub id: [u8; 12],
    /// Its method.
    pub method: Method,
    /// What it is for.
    pub purpose: Purpose,
    /// The end of the client from which it came.
    pub end: SocketAddr,
    /// Whether it is signed with the password.
    pub is_signed: bool,
}

/// The request in these bytes, which the client sent from this end.
///
/// # Errors
///
/// `Wrong` if that is none, or if it is not signed and no ALLOCATE, and `OutOfMemory` if memory allocation fails.
pub fn request_in(alloc: Global, end: SocketAddr, bytes: &[u8]) -> Result<Request, Fault> {
    let is_signed = is_signed(alloc, bytes)?;
    let Some(request) = parsed(end, bytes, is_signed) else {
        return Err(Fault::Wrong("what is sent is no request"));
    };
    expect(
        is_signed || request.method == ALLOCATE,
        "a request is not signed",
    )?;
    Ok(request)
}

fn parsed(end: SocketAddr, bytes: &[u8], is_signed: bool) -> Option<Request> {
    let message = Message::from_bytes(bytes).ok()?;
    if message.class() != MessageClass::Request {
        return None;
    }
    let purpose = purpose_of(&message)?;
    let id = message.transaction_id().to_bytes();
    Some(Request {
        id,
        method: message.method(),
        purpose,
        end,
        is_signed,
    })
}

fn purpose_of(message: &Message<'_>) -> Option<Purpose> {
    let method = message.method();
    if method == ALLOCATE {
        return Some(Purpose::Allocate);
    }
    if method == REFRESH {
        let lifetime: Lifetime = message.attribute().ok()?;
        return match lifetime.seconds() {
            0 => Some(Purpose::Delete),
            _ => Some(Purpose::Refresh),
        };
    }
    if method == CONNECTION_BIND {
        let connection: ConnectionId = message.attribute().ok()?;
        return Some(Purpose::BindConnection(connection.id()));
    }
    peer_purpose_of(message)
}

/// The purpose of a request that names a peer.
fn peer_purpose_of(message: &Message<'_>) -> Option<Purpose> {
    let method = message.method();
    let peer: XorPeerAddress = message.attribute().ok()?;
    if method == CREATE_PERMISSION {
        return Some(Purpose::Permit(peer.addr()));
    }
    if method == CONNECT {
        return Some(Purpose::Connect(peer.addr()));
    }
    if method == CHANNEL_BIND {
        let channel: ChannelNumber = message.attribute().ok()?;
        return Some(Purpose::Bind(channel.number(), peer.addr()));
    }
    None
}

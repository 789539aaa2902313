//! What the caller calls.

use std::net::{IpAddr, SocketAddr};
use turn_hostile_net::draws::Draws;
use turn_hostile_net::world::{Kind, data_end, drawn_friend};
use turn_session_book::keys::Key;
use turn_types::TransportType;

/// A call of the caller, other than those that poll or pass packets in.
#[derive(Clone, Copy)]
pub enum Act {
    /// Requests this key, for data or not.
    Request(Key, bool),
    /// Says whether this key is kept.
    Keep(Key, bool),
    /// Looks how far this key has come.
    Look(Key),
    /// Sends the bytes of this number to this peer.
    Send(TransportType, SocketAddr, u64),
    /// Tests whether this IP address has a permission.
    Have(TransportType, IpAddr),
    /// Checks the path.
    Check,
    /// The offered data connection with this number to this peer was opened from this end, or could not be.
    Socket(u32, SocketAddr, Option<SocketAddr>),
    /// The data connection from this end to this peer was closed.
    Close(SocketAddr, SocketAddr),
    /// The server has closed the data connection to this end.
    Break(SocketAddr),
    /// The socket reported an error.
    SocketError,
    /// The stream to the server takes no bytes.
    Full,
    /// It takes bytes again.
    Room,
    /// An act after which the session ends.
    Last(LastAct),
}

/// What ends a session.
#[derive(Clone, Copy)]
pub enum LastAct {
    /// The caller leaves.
    Leave,
    /// The caller closes its socket at once.
    Abandon,
    /// The stream to the server was closed.
    SocketEnded,
    /// The stream to the server has bytes that begin no message.
    Noise,
    /// There is no route to the server any more.
    NoRoute,
    /// The host has lost its address.
    HostMoved,
}

/// A drawn call, after so many data connections were offered.
pub fn act_of(draws: &mut Draws, kind: Kind, ends: u16) -> Act {
    let peer = drawn_friend(draws, kind);
    match draws.below(400) {
        0..=189 => Act::Request(key_of(draws, kind, peer), draws.percent(30)),
        190..=249 => Act::Keep(key_of(draws, kind, peer), draws.percent(35)),
        250..=259 => Act::Look(key_of(draws, kind, peer)),
        260..=329 => Act::Send(kind.relays, peer, u64::from(draws.number())),
        330..=339 => Act::Have(kind.relays, peer.ip()),
        340..=364 => Act::Check,
        365..=379 => {
            let end = data_end(u16::try_from(draws.below(u64::from(ends))).unwrap_or(0));
            if draws.percent(50) {
                Act::Close(end, peer)
            } else {
                Act::Break(end)
            }
        }
        380..=397 => of_the_path(draws, kind),
        _ => Act::Last(last_act_of(draws, kind)),
    }
}

/// A key of this peer.
fn key_of(draws: &mut Draws, kind: Kind, peer: SocketAddr) -> Key {
    match (kind.relays, draws.below(8)) {
        (TransportType::Tcp, 0..=4) => Key::Connect(peer),
        (_, 0..=4) => Key::Channel(peer),
        (TransportType::Udp, 5) if draws.percent(10) => Key::Connect(peer),
        _ => Key::Permission(peer.ip()),
    }
}

/// What happens to the socket or the stream.
fn of_the_path(draws: &mut Draws, kind: Kind) -> Act {
    match kind.transport {
        TransportType::Udp => Act::SocketError,
        TransportType::Tcp if draws.percent(50) => Act::Full,
        TransportType::Tcp => Act::Room,
    }
}

/// What ends the session.
fn last_act_of(draws: &mut Draws, kind: Kind) -> LastAct {
    match (kind.transport, draws.below(8)) {
        (_, 0) => LastAct::Abandon,
        (_, 1) => LastAct::NoRoute,
        (_, 2 | 3) => LastAct::HostMoved,
        (TransportType::Tcp, 4) => LastAct::SocketEnded,
        (TransportType::Tcp, 5) => LastAct::Noise,
        _ => LastAct::Leave,
    }
}

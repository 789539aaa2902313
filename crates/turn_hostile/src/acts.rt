//! What the caller calls.

use std::net::{IpAddr, SocketAddr};
use turn_hostile_net::draws::Draws;
use turn_hostile_net::marks::Kept;
use turn_hostile_net::world::{Kind, data_end, drawn_friend};
use turn_types::TransportType;

/// A call of the caller, other than those that poll or pass packets in.
#[derive(Clone, Copy)]
pub enum Act {
    /// Requests a permission for this IP address.
    Permit(TransportType, IpAddr),
    /// Requests a channel to this peer.
    Bind(TransportType, SocketAddr),
    /// Requests a data connection to this peer.
    Connect(SocketAddr),
    /// Sends the bytes of this number to this peer.
    Send(TransportType, SocketAddr, u64),
    /// Says whether this is kept.
    Keep(TransportType, Kept, bool),
    /// Tests whether this IP address has a permission.
    Have(TransportType, IpAddr),
    /// Lists the relayed addresses.
    Relayed,
    /// The offered data connection with this number to this peer was opened from this end, or could not be.
    Socket(u32, SocketAddr, Option<SocketAddr>),
    /// The data connection from this end was closed.
    Close(SocketAddr),
    /// The server has closed the data connection to this end.
    Break(SocketAddr),
    /// Deletes the allocations.
    Delete,
    /// The control connection failed.
    Lose,
}

/// A drawn call, after so many data connections were offered.
pub fn act_of(draws: &mut Draws, kind: Kind, ends: u16) -> Act {
    let peer = drawn_friend(draws, kind);
    let end = data_end(u16::try_from(draws.below(u64::from(ends))).unwrap_or(0));
    match draws.below(220) {
        0..=49 => Act::Permit(kind.relays, peer.ip()),
        50..=89 => Act::Bind(kind.relays, peer),
        90..=129 => Act::Connect(peer),
        130..=179 => Act::Send(kind.relays, peer, u64::from(draws.number())),
        180..=186 => Act::Have(kind.relays, peer.ip()),
        187..=192 => Act::Relayed,
        193..=196 => Act::Close(end),
        197 => Act::Break(end),
        198 => Act::Delete,
        200..=219 => keep_of(draws, kind, peer),
        // A client that has lost its server is soon done with.
        _ if draws.percent(10) => Act::Lose,
        _ => Act::Relayed,
    }
}

/// A permission or a channel of this peer is kept, or mostly let go.
fn keep_of(draws: &mut Draws, kind: Kind, peer: SocketAddr) -> Act {
    let what = if draws.percent(50) {
        Kept::Permission(peer.ip())
    } else {
        Kept::Channel(peer)
    };
    Act::Keep(kind.relays, what, draws.percent(30))
}

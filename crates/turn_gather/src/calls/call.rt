//! A call of a gatherer, as a value.

use std::net::{IpAddr, SocketAddr};
use turn_stun::data::Data;
use turn_stun::instant::Instant;
use turn_stun::transport::{Transmit, TransportType};

/// One call of a [`Gatherer`](crate::Gatherer), with its arguments.
#[derive(Debug, Drop)]
pub enum GatherCall {
    /// `candidates`.
    Candidates,
    /// `is_checked` for this pair.
    IsChecked {
        /// The transport between the server and the peer.
        transport: TransportType,
        /// The peer.
        peer: SocketAddr,
    },
    /// `check` of this pair.
    Check {
        /// The transport between the server and the peer.
        transport: TransportType,
        /// The peer.
        peer: SocketAddr,
    },
    /// `recv` with this packet, or with these bytes of a stream.
    Recv {
        /// The input.
        transmit: Transmit<Data>,
        /// The time of the call.
        now: Instant,
    },
    /// `poll_recv` at this time.
    PollRecv {
        /// The time of the call.
        now: Instant,
    },
    /// `create_permission` for this peer address.
    CreatePermission {
        /// The transport between the server and the peer.
        transport: TransportType,
        /// The peer's IP address.
        peer_addr: IpAddr,
        /// The time of the call.
        now: Instant,
    },
    /// `send_to` with these bytes.
    SendTo {
        /// The transport between the server and the peer.
        transport: TransportType,
        /// The peer.
        to: SocketAddr,
        /// The bytes for the peer.
        data: Data,
        /// The time of the call.
        now: Instant,
    },
    /// `poll` at this time.
    Poll {
        /// The time of the call.
        now: Instant,
    },
    /// `poll_transmit` at this time.
    PollTransmit {
        /// The time of the call.
        now: Instant,
    },
    /// `poll_event`.
    PollEvent,
}

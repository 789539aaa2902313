//! A call of a client as a value.

use crate::poll::Socket5Tuple;
use std::net::{IpAddr, SocketAddr};
use turn_stun::data::Data;
use turn_stun::instant::Instant;
use turn_stun::transport::{Transmit, TransportType};

/// One call of [`TurnClientApi`](crate::TurnClientApi), with its arguments.
///
/// Laws over all calls of a client speak of these. Those that only read change nothing. The client's
/// transport and its two addresses are not among them: no call changes them.
#[derive(Debug, Drop)]
pub enum Call {
    /// `delete` at this time.
    Delete {
        /// The time of the call.
        now: Instant,
    },
    /// `create_permission` for this peer address.
    CreatePermission {
        /// The transport that the allocation relays over.
        transport: TransportType,
        /// The peer's IP address.
        peer_addr: IpAddr,
        /// The time of the call.
        now: Instant,
    },
    /// `bind_channel` to this peer.
    BindChannel {
        /// The transport that the allocation relays over.
        transport: TransportType,
        /// The peer.
        peer_addr: SocketAddr,
        /// The time of the call.
        now: Instant,
    },
    /// `tcp_connect` to this peer.
    TcpConnect {
        /// The peer.
        peer_addr: SocketAddr,
        /// The time of the call.
        now: Instant,
    },
    /// `allocated_tcp_socket` for a connection that `poll` offered to the caller.
    AllocatedTcpSocket {
        /// The connection ID that the server assigned.
        id: u32,
        /// The control connection.
        five_tuple: Socket5Tuple,
        /// The peer.
        peer_addr: SocketAddr,
        /// The local address, or `None` if the connection could not be opened.
        local_addr: Option<SocketAddr>,
        /// The time of the call.
        now: Instant,
    },
    /// `tcp_closed` for the data connection with these addresses.
    TcpClosed {
        /// The local address.
        local_addr: SocketAddr,
        /// The server's address.
        remote_addr: SocketAddr,
        /// The time of the call.
        now: Instant,
    },
    /// `send_to` with these bytes.
    SendTo {
        /// The transport that the allocation relays over.
        transport: TransportType,
        /// The peer.
        to: SocketAddr,
        /// The bytes for the peer.
        data: Data,
        /// The time of the call.
        now: Instant,
    },
    /// `recv` of this datagram, or of these bytes read from a stream.
    Recv {
        /// The received bytes, with their source, destination and transport.
        transmit: Transmit<Data>,
        /// The time of the call.
        now: Instant,
    },
    /// `poll_recv` at this time.
    PollRecv {
        /// The time of the call.
        now: Instant,
    },
    /// `poll` at this time.
    Poll {
        /// The time of the call.
        now: Instant,
    },
    /// `poll_transmit` at this time.
    PollTransmit {
        /// The time of the call.
        now: Instant,
    },
    /// `poll_event`.
    PollEvent,
    /// `protocol_error`.
    ProtocolError,
    /// `relayed_addresses`.
    RelayedAddresses,
    /// `permissions` of one allocation.
    Permissions {
        /// The transport that the allocation relays over.
        transport: TransportType,
        /// Its relayed address.
        relayed: SocketAddr,
    },
    /// `have_permission` for this peer address.
    HavePermission {
        /// The transport that the allocation relays over.
        transport: TransportType,
        /// The peer's IP address.
        to: IpAddr,
    },
    /// `set_permission_kept` for this peer address.
    SetPermissionKept {
        /// The transport that the allocation relays over.
        transport: TransportType,
        /// The peer's IP address.
        peer_addr: IpAddr,
        /// Whether the permission is refreshed from now on.
        is_kept: bool,
    },
    /// `set_channel_kept` for the channel to this peer.
    SetChannelKept {
        /// The transport that the allocation relays over.
        transport: TransportType,
        /// The peer.
        peer_addr: SocketAddr,
        /// Whether the channel is refreshed from now on.
        is_kept: bool,
    },
}

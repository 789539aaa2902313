//! What happened between a client and its server.

use std::net::{IpAddr, SocketAddr};
use turn_types::{AddressFamily, TransportType};

/// Something that the server granted or refused, or that ended without a response.
///
/// A transport is the one that the server relays over, between the relayed address and the peer.
#[derive(Clone, Copy, Debug, PartialEq, Eq)]
pub enum TurnEvent {
    /// The server allocated this relayed address.
    AllocationCreated(TransportType, SocketAddr),
    /// The client has no address of this family, and no longer requests one: the server refused, or did
    /// not answer the first request, or the client has ended.
    AllocationCreateFailed(AddressFamily),
    /// Peers of this IP address are permitted from now on, whatever their port (RFC 8656, section
    /// 9).
    PermissionCreated(TransportType, IpAddr),
    /// Peers of this IP address are not permitted, or no longer: the server refused, or did not
    /// answer in time.
    PermissionCreateFailed(TransportType, IpAddr),
    /// Data of this peer goes over a channel from now on (RFC 8656, section 12).
    ChannelCreated(TransportType, SocketAddr),
    /// This peer has no channel, or no longer has it: the server refused, or did not answer in
    /// time.
    ChannelCreateFailed(TransportType, SocketAddr),
    /// A data connection to this peer is bound (RFC 6062, section 4.3).
    TcpConnected(SocketAddr),
    /// A data connection to this peer was refused, or was not made in time.
    TcpConnectFailed(SocketAddr),
}

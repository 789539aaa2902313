//! What a client expects its caller to do next.

use std::net::SocketAddr;
use turn_stun::instant::Instant;
use turn_types::TransportType;

/// A socket by its transport and its two addresses.
#[derive(Clone, Copy, Debug, PartialEq, Eq)]
pub struct Socket5Tuple {
    /// The transport of the socket.
    pub transport: TransportType,
    /// The local address.
    pub from: SocketAddr,
    /// The remote address.
    pub to: SocketAddr,
}

/// What `poll` of a client reports that its caller is to do.
#[derive(Clone, Copy, Debug, PartialEq, Eq)]
pub enum TurnPollRet {
    /// Do nothing before this time. After any other call of the client, call `poll` again.
    WaitUntil(Instant),
    /// Open a connection to the server for the data of this peer, from a local address that is not
    /// in use (RFC 6062, section 4.3). Then report with these three values that it was opened, or
    /// that it could not be.
    AllocateTcpSocket {
        /// The connection ID that the server assigned to the connection to the peer.
        id: u32,
        /// The control connection. The new connection goes to its remote address.
        socket: Socket5Tuple,
        /// The peer whose data the connection will carry.
        peer_addr: SocketAddr,
    },
    /// Close this data connection. It may be one that was never bound to its peer.
    TcpClose {
        /// The client's address of the connection.
        local_addr: SocketAddr,
        /// The server's address of the connection.
        remote_addr: SocketAddr,
    },
    /// The client has ended. Poll the events that are left, and close all its data connections.
    Closed,
}

//! What a client returns for its caller to do, and what follows.

use std::net::SocketAddr;
use turn_client_api::{Socket5Tuple, TurnEvent, TurnPeerData};
use turn_stun::data::Data;
use turn_stun::instant::Instant;
use turn_stun::transport::{Transmit, TransportType};

/// One thing that a client returns for its caller to do.
#[derive(Debug, Drop)]
pub enum Task {
    /// Data from a peer.
    Payload(TurnPeerData<Vec<u8>>),
    /// The server reports an ICMP packet for data that was sent to a peer (RFC 8656, section 11.6).
    Icmp {
        /// The transport between the server and the peer.
        transport: TransportType,
        /// The peer to which the data was sent.
        peer: SocketAddr,
        /// The type of the ICMP packet.
        icmp_type: u8,
        /// The code of the ICMP packet.
        icmp_code: u8,
        /// The other data of the ICMP packet.
        icmp_data: u32,
    },
    /// Input that was not for the client, or over TCP whose first frame was not (see `TurnRecvRet`),
    /// returned unchanged.
    Other(Transmit<Vec<u8>>),
    /// An event.
    Event(TurnEvent),
    /// Send this packet.
    Send(Transmit<Data>),
    /// Open a connection to the server for the data of this peer (RFC 6062, section 4.3), then call the
    /// client's `allocated_tcp_socket` with these three values.
    Open {
        /// The server's number of the connection to the peer (CONNECTION-ID).
        id: u32,
        /// The control connection.
        socket: Socket5Tuple,
        /// The peer.
        peer_addr: SocketAddr,
    },
    /// Close this data connection.
    Close {
        /// The client's address.
        local_addr: SocketAddr,
        /// The server's address.
        remote_addr: SocketAddr,
    },
}

/// What follows, after the tasks are done.
#[derive(Clone, Copy, Debug, PartialEq, Eq)]
pub enum Rest {
    /// Nothing is due before this deadline, which is later than now, unless there is input or the caller
    /// requests something.
    Until(Instant),
    /// Work may be left: poll again at once, before any other input is passed in.
    Now,
    /// The client has ended, and has reported all its events. No packet is due now.
    Ended,
}

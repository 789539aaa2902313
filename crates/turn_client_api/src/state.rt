//! The phase of a client, its queued packets, and its streams from the server.

use std::net::SocketAddr;
use turn_stun::data::Data;
use turn_stun::transport::Transmit;

/// The phase of a client. It only ever advances to a later one.
///
/// ```text
/// New --first ALLOCATE--> Requesting --challenge--> Authenticating --success--> Allocated
/// ```
///
/// An ALLOCATE without an address, a deletion, one challenge too many, a failed memory allocation
/// in `recv` or in a call that polls, and `protocol_error` lead to `Closed`.
#[derive(Clone, Copy, Debug, PartialEq, Eq)]
pub enum Phase {
    /// No packet was sent yet.
    New,
    /// The first ALLOCATE, which is not signed, awaits its response (RFC 8656, section 7.1).
    Requesting,
    /// A signed ALLOCATE awaits its response (RFC 8489, section 9.2.5).
    Authenticating,
    /// The server allocated at least one address.
    Allocated,
    /// The client has ended.
    Closed,
}

/// A queued packet.
#[derive(Debug, Drop)]
pub struct Queued {
    /// The packet, with its source and destination.
    pub packet: Transmit<Data>,
    /// Whether it is a request, which is sent no sooner than the configured pause after the one before.
    /// A reply to the server does not wait for that.
    pub is_request: bool,
}

/// What the bytes of a stream are.
#[derive(Clone, Copy, Debug, PartialEq, Eq)]
pub enum Mode {
    /// STUN messages and ChannelData messages of the control connection (RFC 8656, section 3.1).
    Control,
    /// STUN messages of a data connection that waits to be bound (RFC 6062, section 4.3).
    Waiting,
    /// Data that this peer sent, over a data connection that the server bound to it.
    Bound(SocketAddr),
    /// Nothing more is read from it: no frame begins with its bytes, or a memory allocation for
    /// them failed.
    Broken,
}

/// A stream that the client receives from the server over TCP.
#[derive(Debug, Drop)]
pub struct Stream {
    /// The local address of its connection.
    pub local: SocketAddr,
    /// What its bytes are.
    pub mode: Mode,
    /// The bytes received since the last whole frame; over a bound connection, those that were not
    /// polled yet.
    pub bytes: Data,
}

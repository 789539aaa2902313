//! The calls of a session, as values.

use std::net::{IpAddr, SocketAddr};
use turn_client_api::Socket5Tuple;
use turn_session_book::keys::Key;
use turn_session_book::tags::Tag;
use turn_stun::data::Data;
use turn_stun::instant::Instant;
use turn_stun::transport::{Transmit, TransportType};

/// A call of a session.
#[derive(Debug, Drop)]
pub enum SessionCall {
    /// `poll`.
    Poll {
        /// The time.
        now: Instant,
    },
    /// `poll_transmit`.
    PollTransmit {
        /// The time.
        now: Instant,
    },
    /// `poll_event`.
    PollEvent,
    /// `next`.
    Next {
        /// The time.
        now: Instant,
    },
    /// `recv`.
    Recv {
        /// The packet, or the piece of a stream.
        transmit: Transmit<Data>,
        /// The time.
        now: Instant,
    },
    /// `poll_recv`.
    PollRecv {
        /// The time.
        now: Instant,
    },
    /// `send`.
    Send {
        /// The transport between the server and the peer.
        transport: TransportType,
        /// The peer.
        to: SocketAddr,
        /// The bytes for it.
        data: Data,
        /// The time.
        now: Instant,
    },
    /// `have_permission`.
    HavePermission {
        /// The transport between the server and the peer.
        transport: TransportType,
        /// The peer's IP address.
        to: IpAddr,
    },
    /// `request`.
    Request {
        /// What is requested.
        key: Key,
        /// Whether it is requested for data, so that it may rest.
        is_for_data: bool,
        /// The time.
        now: Instant,
    },
    /// `set_kept`.
    SetKept {
        /// What is kept or let go.
        key: Key,
        /// Whether it is kept.
        is_kept: bool,
    },
    /// `grant_of`.
    GrantOf {
        /// What may be granted.
        key: Key,
        /// The time.
        now: Instant,
    },
    /// `grants`.
    Grants,
    /// `may_be_kept_until`.
    KeptUntil,
    /// `counters`.
    Counters,
    /// `check`.
    Check {
        /// The time.
        now: Instant,
    },
    /// `abandon`.
    Abandon {
        /// The time.
        now: Instant,
    },
    /// `data_opened`.
    DataOpened {
        /// The server's number of the data connection.
        id: u32,
        /// The control connection.
        socket: Socket5Tuple,
        /// The peer.
        peer: SocketAddr,
        /// The local end of the data connection.
        local: SocketAddr,
        /// The time.
        now: Instant,
    },
    /// `data_failed`, with the number 0 of the caller's error.
    DataFailed {
        /// The server's number of the data connection.
        id: u32,
        /// The control connection.
        socket: Socket5Tuple,
        /// The peer.
        peer: SocketAddr,
        /// The time.
        now: Instant,
    },
    /// `data_closed`.
    DataClosed {
        /// The local end of the data connection.
        local: SocketAddr,
        /// The peer.
        peer: SocketAddr,
        /// The caller's number of the error.
        tag: Tag,
        /// The time.
        now: Instant,
    },
    /// What the caller reports: of its socket or its system, or that it leaves.
    Report {
        /// What it reports.
        report: Report,
        /// The time.
        now: Instant,
    },
}

/// What the caller reports.
#[derive(Clone, Copy, Debug, PartialEq, Eq)]
pub enum Report {
    /// `socket_error`, with the caller's number of the error.
    SocketError(Tag),
    /// `socket_ended`, with the caller's number of the error, or none if the server closed the stream.
    SocketEnded(Option<Tag>),
    /// `no_route`, with the caller's number of the error.
    NoRoute(Tag),
    /// `host_moved`, with the caller's number of the error.
    HostMoved(Tag),
    /// `full`.
    Full,
    /// `room`.
    Room,
    /// `data_written`.
    DataWritten,
    /// `leave`.
    Leave,
}

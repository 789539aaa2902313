//! What the caller reports of a socket.

use turn_session_book::tags::Tag;

/// What the caller reports of a socket, with its number of an error of its system.
#[derive(Clone, Copy, Debug, PartialEq, Eq)]
pub enum SocketReport {
    /// The socket reported this error, over UDP: as `Session::socket_error`.
    Error(Tag),
    /// The stream was closed by the server, or with this error: as `Session::socket_ended`.
    Ended(Option<Tag>),
    /// The stream took no bytes: as `Session::full`.
    Full,
    /// The stream takes bytes again: as `Session::room`.
    Room,
    /// The system has no route to the server any more: as `Session::no_route`.
    NoRoute(Tag),
    /// This host no longer has the address of the socket: as `Session::host_moved`.
    HostMoved(Tag),
}

//! The calls that a trace can make, by their names.

ghost use Rattle.std.specs.Prelude.{◌≡◌};
ghost use Rattle.turn_lines.specs.Call.{asking_calls, driving_calls, name_of, named};

/// The calls that a trace can make.
#[derive(Clone, Copy, Debug, PartialEq, Eq)]
pub enum CallName {
    /// `poll`.
    Poll,
    /// `transmit`, which is `poll_transmit`.
    Transmit,
    /// `event`, which is `poll_event`.
    Event,
    /// `recv`, with a packet.
    Recv,
    /// `poll_recv`.
    PollRecv,
    /// `send`, which is `send_to`, with the peer and the bytes for it.
    Send,
    /// `permit`, which is `create_permission`, with the peer's IP address.
    Permit,
    /// `bind`, which is `bind_channel`, with the peer.
    Bind,
    /// `connect`, which is `tcp_connect`, with the peer.
    Connect,
    /// `socket`, which is `allocated_tcp_socket`, with the values that `poll` returned and the local end.
    Socket,
    /// `delete`.
    Delete,
    /// `closed`, which is `tcp_closed`, with the two ends.
    Closed,
    /// `error`, which is `protocol_error`.
    Error,
    /// `relayed`, which is `relayed_addresses`.
    Relayed,
    /// `permissions`, with a relayed address.
    Permissions,
    /// `have`, which is `have_permission`, with the peer's IP address.
    Have,
    /// `release`: a permission, or with a port a channel, is not kept any more.
    Release,
    /// `keep`: a permission, or with a port a channel, is kept again.
    Keep,
}

/// The call of this name.
pub fn parse_name(text: &[u8]) -> Option<CallName>
    ensures { result ≡ name_of text.now }
{
    match parse_driving_name(text) {
        Some(name) => Some(name),
        None => parse_asking_name(text),
    }
}

/// A call that brings the client time, packets or sockets, or takes its output.
fn parse_driving_name(text: &[u8]) -> Option<CallName>
    ensures { result ≡ named driving_calls text.now }
{
    if text == b"poll".as_slice() {
        return Some(CallName::Poll);
    }
    if text == b"transmit".as_slice() {
        return Some(CallName::Transmit);
    }
    if text == b"event".as_slice() {
        return Some(CallName::Event);
    }
    if text == b"recv".as_slice() {
        return Some(CallName::Recv);
    }
    if text == b"poll_recv".as_slice() {
        return Some(CallName::PollRecv);
    }
    if text == b"socket".as_slice() {
        return Some(CallName::Socket);
    }
    if text == b"closed".as_slice() {
        return Some(CallName::Closed);
    }
    if text == b"error".as_slice() {
        return Some(CallName::Error);
    }
    None
}

/// A call that requests something of the client, or reads its state.
fn parse_asking_name(text: &[u8]) -> Option<CallName>
    ensures { result ≡ named asking_calls text.now }
{
    if text == b"send".as_slice() {
        return Some(CallName::Send);
    }
    if text == b"permit".as_slice() {
        return Some(CallName::Permit);
    }
    if text == b"bind".as_slice() {
        return Some(CallName::Bind);
    }
    if text == b"connect".as_slice() {
        return Some(CallName::Connect);
    }
    if text == b"delete".as_slice() {
        return Some(CallName::Delete);
    }
    if text == b"relayed".as_slice() {
        return Some(CallName::Relayed);
    }
    if text == b"permissions".as_slice() {
        return Some(CallName::Permissions);
    }
    if text == b"have".as_slice() {
        return Some(CallName::Have);
    }
    if text == b"release".as_slice() {
        return Some(CallName::Release);
    }
    if text == b"keep".as_slice() {
        return Some(CallName::Keep);
    }
    None
}

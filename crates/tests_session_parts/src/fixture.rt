//! Assertions, times and keys that all tests use.
//!
//! A proof follows the text of each assertion again, so each is written once, here.

ghost use Rattle.std.specs.Prelude.{◌≤◌, ◌^◌};

use std::net::{IpAddr, Ipv4Addr, SocketAddr};
use std::process::Abort;
use turn_session_book::book::Book;
use turn_session_book::events::Event;
use turn_session_book::keys::Key;
use turn_session_book::replies::{ErrorReply, Phrase};
use turn_stun::instant::Instant;

/// Asserts that this case holds.
pub(crate) fn check(rt: &impl Abort, is_so: bool, case: u32) {
    assert!(rt; is_so, "case {case}");
}

/// Asserts that this is the next event of the book, and the only one.
pub(crate) fn reports_alone(rt: &impl Abort, book: &mut Book, event: Event, case: u32) {
    check(rt, book.next_event() == Some(event), case);
    check(rt, book.next_event().is_none(), case);
}

/// This many milliseconds after the start.
pub(crate) fn at(millis: u32) -> Instant
    ensures { result ≤ 2 ^ 62 }
{
    Instant::from_nanos(u64::from(millis) * 1_000_000)
}

/// The peer 10.0.0.x, at the port 9000.
pub(crate) fn peer(last: u8) -> SocketAddr {
    SocketAddr::new(ip(last), 9_000)
}

/// The address 10.0.0.x.
pub(crate) fn ip(last: u8) -> IpAddr {
    IpAddr::V4(Ipv4Addr::new(10, 0, 0, last))
}

/// A permission for 10.0.0.x.
pub(crate) fn permission(last: u8) -> Key {
    Key::Permission(ip(last))
}

/// An error response with this code that the client accepted, and no reason phrase.
pub(crate) fn refusal(code: u16) -> ErrorReply {
    ErrorReply {
        code: Some(code),
        is_taken: true,
        phrase: Phrase::new(b""),
        alternate: None,
    }
}

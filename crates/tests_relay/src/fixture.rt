//! Assertions, times and addresses that all tests use.
//!
//! A proof follows the text of each assertion again, so each is written once, here.

use std::net::{IpAddr, Ipv4Addr, Ipv6Addr, SocketAddr};
use std::process::Abort;
use turn_relay_tries::backoff::Backoff;
use turn_relay_tries::causes::Cause;
use turn_session_book::causes::Why;
use turn_session_book::replies::{ErrorReply, Phrase};
use turn_stun::instant::Instant;

/// Asserts that this case holds.
pub(crate) fn check(rt: &impl Abort, is_so: bool, case: u32) {
    assert!(rt; is_so, "case {case}");
}

/// This many milliseconds after the start.
pub(crate) fn at(millis: u32) -> Instant {
    Instant::from_nanos(u64::from(millis) * 1_000_000)
}

/// The server's address 10.0.0.x.
pub(crate) fn v4(last: u8) -> SocketAddr {
    SocketAddr::new(IpAddr::V4(Ipv4Addr::new(10, 0, 0, last)), 3_478)
}

/// The server's address 2001:db8::x.
pub(crate) fn v6(last: u16) -> SocketAddr {
    SocketAddr::new(
        IpAddr::V6(Ipv6Addr::new(0x2001, 0xdb8, 0, 0, 0, 0, 0, last)),
        3_478,
    )
}

/// The waits of a relay without a random part.
pub(crate) fn certain() -> Backoff {
    Backoff {
        jitter: 0,
        ..Backoff::new()
    }
}

/// The server refused the allocation by this code, which nobody has signed.
pub(crate) fn refused(code: u16) -> Cause {
    Cause::Life(Why::Refused(error(code)))
}

/// The server refused user name and password.
pub(crate) fn wrong() -> Cause {
    Cause::Life(Why::WrongCredentials(error(401)))
}

/// An error response with this code.
fn error(code: u16) -> ErrorReply {
    ErrorReply {
        code: Some(code),
        is_taken: false,
        phrase: Phrase::new(b""),
        alternate: None,
    }
}

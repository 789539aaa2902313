//! The times and limits of checks. Times are in nanoseconds.

/// How long a round of path checks waits for a response, after the first request: those of 0.5, 1.0 and 2.0 s after each of
/// three (RFC 8489, section 6.2.1).
pub const CHECK: u64 = 3_500_000_000;

/// When the second request of a round is sent, after the first.
pub const SECOND_SEND: u64 = 500_000_000;

/// When the third request of a round is sent, after the first.
pub const THIRD_SEND: u64 = 1_500_000_000;

/// So many failures in a row end a session: rounds without a response, or seconds with an error of the socket. One may pass.
pub const RUN: u8 = 3;

/// How long an error of the socket is followed by more, until it counts.
pub const PAUSE: u64 = 1_000_000_000;

/// Over a stream, a round does not count if data was sent so shortly before it: an upload delays responses.
pub const SENDING: u64 = 10_000_000_000;

/// A stream that takes no bytes for so long, while nothing is received, has ended.
pub const FULL: u64 = 60_000_000_000;

/// How long a check of the allocation waits for a response. Three of them notice a silent server within 9 s, and one request
/// times out only after 39.5 s.
pub const ALLOCATION_CHECK: u64 = 3_000_000_000;

/// The pause between two checks of the allocation that the server answered: this long at first, and then twice as long each
/// time. Each check leaves a permission at the server, and some servers permit no more than ten.
pub const FIRST_ALLOCATION_PAUSE: u64 = 2_000_000_000;

/// The longest such pause.
pub const LAST_ALLOCATION_PAUSE: u64 = 60_000_000_000;

/// After so long without a check of the allocation the pause begins anew: the permission of a check ends after 300 s (RFC
/// 8656, section 9).
pub const ALLOCATION_PAUSE_ENDS: u64 = 300_000_000_000;

/// An unsigned error to the signed ALLOCATE is the server's answer after so long, unless a signed response comes. The client
/// retransmits the ALLOCATE after 0.5 s, so a true response has two chances.
pub const GRACE: u64 = 1_000_000_000;

/// The error code of a server that holds an allocation of this client under another user name (RFC 8656, section 19). A server
/// that was restarted with another realm answers so too.
pub const WRONG_CREDENTIALS: u16 = 441;

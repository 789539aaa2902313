//! The times and limits of a session. Times are in nanoseconds.

/// So many requests may be queued and not sent. The others wait in the session.
pub const MAX_UNSENT: usize = 8;

/// After a failed memory allocation the next `poll` is asked for after so long. Nothing was lost.
pub const SHORTAGE: u64 = 100_000_000;

/// Bytes of a data connection reach the peer so long after they have left: a server drops what it has not passed on when the
/// allocation is deleted, and nothing says when it has.
pub const LINGER: u64 = 1_000_000_000;

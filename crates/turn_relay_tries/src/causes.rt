//! Why a relay has no address.

use crate::tasks::Work;
use turn_session_book::causes::Why;
use turn_session_book::tags::Tag;

/// Why a try failed, a relay went down, or is over.
#[derive(Clone, Copy, Debug, PartialEq, Eq)]
pub enum Cause {
    /// The session with the server ended.
    Life(Why),
    /// There were no credentials: the caller's number of its error.
    NoCredentials(Tag),
    /// The server's name has no address: the caller's number of its error.
    NotResolved(Tag),
    /// There was no connection to any address of the server.
    NotConnected,
    /// The try lasted for this many nanoseconds, and there was no relayed address.
    TooSlow(u64),
    /// The caller did not answer this task in time.
    NotDone(Work),
    /// What the caller passed in is of no use, as user name or password with characters that are not permitted: the caller's number of
    /// its error.
    OwnError(Tag),
}

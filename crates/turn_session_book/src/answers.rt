//! How a request of the caller is answered, and what becomes of it.

use crate::causes::Why;
use crate::replies::ErrorReply;
use crate::tags::Tag;
use turn_stun::instant::Instant;

/// What a session answers to a request of the caller.
#[derive(Clone, Copy, Debug, PartialEq, Eq)]
pub enum Answer {
    /// The server has granted it already. Nothing is sent.
    Granted,
    /// It has begun. An event reports its outcome under this ticket, which is also that of an earlier request of the same key
    /// that is under way.
    Ticket(u32),
    /// The server refused it a while ago, by this error or without a response, and it is not requested again before this time.
    Resting(Instant, Option<ErrorReply>),
    /// The client refused it. Nothing is sent.
    Refused(CallError),
    /// The session has ended.
    Ended(Why),
}

/// Why the client made no request.
#[derive(Clone, Copy, Debug, PartialEq, Eq)]
pub enum CallError {
    /// It has no allocation of the peer's family or transport.
    NoAllocation,
    /// The peer is not permitted.
    NoPermission,
    /// It was requested before, or no channel number is left.
    AlreadyExists,
    /// The channel of this peer may not be bound again before this time (RFC 8656, section 12).
    Reserved(Instant),
    /// Nothing of this key was granted.
    NotGranted,
    /// A memory allocation failed. Nothing has changed.
    OutOfMemory,
}

/// What became of a request. There is one outcome for each ticket.
#[derive(Clone, Copy, Debug, PartialEq, Eq)]
pub enum Outcome {
    /// The server granted it.
    Granted,
    /// The server refused it.
    Refused(ErrorReply),
    /// No response to it was accepted in time. The error is that of the last response that was ignored.
    TimedOut(Option<ErrorReply>),
    /// The client could not make the request.
    NotMade(CallError),
    /// The caller could not open the data connection for it, or reported that it was closed before the server had bound it.
    NotOpened(Tag),
    /// The data connection for it was closed before the server had bound it, and the caller has not reported that.
    NotBound,
    /// The session ended first.
    Ended(Why),
}

//! Responses of the server to requests of a client.

use turn_session_book::replies::ErrorReply;

/// Which request a response answers.
#[derive(Clone, Copy, Debug, PartialEq, Eq)]
pub enum Asked {
    /// An ALLOCATE (RFC 8656, section 7).
    Allocate,
    /// A REFRESH of the allocation (RFC 8656, section 8).
    Refresh,
    /// A request for a grant.
    Other,
}

/// What a response says.
#[derive(Clone, Copy, Debug)]
pub enum Said {
    /// A success that the client accepted, with its LIFETIME in seconds if it has one.
    Granted(Option<u32>),
    /// An error to a request that awaits its response.
    Denied(ErrorReply),
    /// Nothing that counts: a success that the client ignored, or an error to a request that awaits no response, as the second
    /// copy of one.
    Nothing,
}

/// A response to a request of the client.
#[derive(Clone, Copy, Debug)]
pub struct Response {
    /// The request that it answers.
    pub asked: Asked,
    /// What it says.
    pub said: Said,
}

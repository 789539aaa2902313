//! Why a session ends.

use crate::keys::Key;
use crate::replies::ErrorReply;
use crate::tags::Tag;
use std::time::Duration;

/// Why a session ends, or has ended.
#[derive(Clone, Copy, Debug, PartialEq, Eq)]
pub enum Why {
    /// The caller left.
    Closed,
    /// The server sent no response to the ALLOCATE for this long.
    Silent(Duration),
    /// The server refused the ALLOCATE.
    Refused(ErrorReply),
    /// The server refused user name and password: 401 or 400 to the signed ALLOCATE.
    WrongCredentials(ErrorReply),
    /// The server granted the ALLOCATE without a challenge, so its response was not signed.
    Unauthenticated,
    /// The server granted no address of a requested family.
    NoUsableAddress,
    /// The server challenged one request more often than the client permits: the code of the last challenge.
    TooManyChallenges(u16),
    /// The server refused to refresh the allocation.
    NotRenewed(ErrorReply),
    /// The server refreshed the allocation for fewer seconds than 600 (RFC 8656, section 7.2).
    ShortRenewal(u32),
    /// The server sent no response to the REFRESH.
    RenewalSilent,
    /// The server no longer knows the allocation.
    Forgotten(ErrorReply),
    /// So many checks in a row had no response.
    Unanswered(u8),
    /// Over a stream, a request to renew this grant had no response.
    GrantSilent(Key),
    /// The server no longer accepts user name and password.
    CredentialsRefused,
    /// The socket reported errors, of which this was the first, and nothing was received.
    SocketErrors(Tag),
    /// The stream was closed by the server, or with this error.
    SocketEnded(Option<Tag>),
    /// The stream took no bytes for 60 s, and nothing was received.
    StreamFull,
    /// The stream has bytes that begin no message.
    NotAStream,
    /// The system has no route to the server.
    NoRoute(Tag),
    /// This host no longer has the address of the socket.
    HostMoved(Tag),
    /// A memory allocation failed, and the client ended by it.
    OutOfMemory,
}

//! The errors of this crate.

use thiserror::Error;

/// Why bytes do not begin with a ChannelData message: the first of these that holds.
#[derive(Clone, Copy, Debug, PartialEq, Eq, Error)]
pub enum ChannelParseError {
    /// There are fewer than the four bytes of a header.
    #[error("fewer bytes than the header of a channel frame")]
    Short,
    /// The first two bits are not 01 (RFC 8656, section 12.4).
    #[error("not the header of a channel frame")]
    NotChannel,
    /// There are fewer bytes after the header than it says.
    #[error("the channel frame runs past the end")]
    Length,
}

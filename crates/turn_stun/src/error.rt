//! The errors of this crate.

use std::alloc::AllocError;
use thiserror::Error;

/// Why bytes are not a message: the first of these that holds.
#[derive(Clone, Copy, Debug, PartialEq, Eq, Error)]
pub enum ParseError {
    /// There are fewer than the 20 bytes of a header.
    #[error("fewer bytes than the header of a message")]
    Short,
    /// The first two bits are not zero, the magic cookie is another, or the length is no multiple
    /// of four (RFC 8489, section 5).
    #[error("not the header of a message")]
    NotStun,
    /// The length in the header is not that of the bytes after it.
    #[error("the length of the message is not that of its header")]
    Length,
    /// An attribute runs past the end of the message.
    #[error("an attribute runs past the end of the message")]
    Attribute,
}

/// Why a message does not return an attribute.
#[derive(Clone, Copy, Debug, PartialEq, Eq, Error)]
pub enum AttributeError {
    /// No seen attribute has the type, or not as many as were asked for.
    #[error("the attribute is absent")]
    Absent,
    /// The seen attribute that was asked for has a value that the type does not allow.
    #[error("the attribute is malformed")]
    Malformed,
}

/// Why an attribute is not added to a message. The message is as before.
#[derive(Clone, Copy, Debug, PartialEq, Eq, Error)]
pub enum WriteError {
    /// The attributes would take more than 65,532 bytes, the greatest length of a message that is a
    /// multiple of four (RFC 8489, section 5).
    #[error("the attributes of the message would be too long")]
    TooLong,
    /// Memory allocation for the attribute failed.
    #[error("out of memory")]
    OutOfMemory,
}

impl From<AllocError> for WriteError {
    ghost use Rattle.std.specs.Prelude.{◌≡◌};
    ghost use Rattle.turn_stun.specs.declared.error.WriteError.TheVariants.{OutOfMemory};

    ghost from_gives = { λ _ error. error ≡ OutOfMemory };

    fn from(_error: AllocError) -> WriteError {
        WriteError::OutOfMemory
    }
}

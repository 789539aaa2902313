//! Errors in a trace.

use std::alloc::{AllocError, AllocFailed};

/// The first bad line of a trace.
#[derive(Clone, Copy, Debug, PartialEq, Eq)]
pub struct BadLine {
    /// Its number, counted from 1, or 0 for the whole trace.
    pub number: usize,
    /// The error.
    pub kind: BadKind,
}

/// An error in a line.
#[derive(Clone, Copy, Debug, PartialEq, Eq)]
pub enum BadKind {
    /// The trace, or in `turn_live` this line, has too many bytes, or this line is one call too
    /// many.
    Size,
    /// The line is not a head: it does not describe a client.
    Head,
    /// The call has no valid time.
    Time,
    /// There is no such call.
    Call,
    /// The arguments are not those of this call, or there is one too many or too few.
    Argument,
    /// The call sends more bytes to a peer than fit into one packet, and the allocation is over UDP.
    Payload,
}

/// Why a call or a trace could not be parsed.
#[derive(Clone, Copy, Debug, PartialEq, Eq)]
pub enum ReadError<E> {
    /// It has an error.
    Bad(E),
    /// Memory allocation failed.
    OutOfMemory,
}

impl<E> From<AllocError> for ReadError<E> {
    ghost use Rattle.std.specs.Prelude.{◌≡◌};
    ghost use Rattle.turn_lines.specs.declared.fault.ReadError.TheVariants.{OutOfMemory};

    ghost from_gives = { λ _ error. error ≡ OutOfMemory };

    fn from(_error: AllocError) -> ReadError<E> {
        ReadError::OutOfMemory
    }
}

impl<E, T: Drop> From<AllocFailed<T>> for ReadError<E> {
    ghost use Rattle.std.specs.Prelude.{◌≡◌};
    ghost use Rattle.turn_lines.specs.declared.fault.ReadError.TheVariants.{OutOfMemory};

    ghost from_gives = { λ _ error. error ≡ OutOfMemory };

    fn from(_error: AllocFailed<T>) -> ReadError<E> {
        ReadError::OutOfMemory
    }
}

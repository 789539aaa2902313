//! What a run has seen of a client.

use std::alloc::{AllocError, AllocFailed};
use std::io::Write;

/// What a run has seen of a client.
#[derive(Clone, Copy)]
pub enum Seen {
    /// All calls were answered as the row says.
    Right {
        /// The number of calls.
        calls: u64,
        /// How many of them were made again, since a memory allocation had failed.
        again: u64,
    },
    /// A call has another answer, or no memory allocation failed in it where one was to.
    Answered {
        /// The call, counted from 1.
        call: u64,
    },
    /// A memory allocation failed in a call where none was to, and ended the client.
    Ended {
        /// The call, counted from 1.
        call: u64,
    },
}

/// Why a run has seen nothing of a client that can be judged.
#[derive(Clone, Copy)]
pub enum Stop {
    /// A memory allocation outside of the client failed.
    OutOfMemory,
    /// The row could not be read.
    ReadFailed,
    /// The row is malformed.
    Malformed,
}

impl From<AllocError> for Stop {
    fn from(_error: AllocError) -> Stop {
        Stop::OutOfMemory
    }
}

/// Writes the line that says what was seen. Returns the exit status: 0 if all was as the row says, 1 if not, 2 for a
/// malformed row, 3 if memory allocation failed, and 4 if the reader or the writer failed.
pub fn report<W: Write>(found: Result<Seen, Stop>, writer: &mut W) -> u8 {
    let (status, written) = match found {
        Ok(Seen::Right { calls, again }) => {
            (
                0,
                writeln!(writer, "{calls} calls answered, {again} of them made again"),
            )
        }
        Ok(Seen::Answered { call }) => (1, writeln!(writer, "another answer to call {call}")),
        Ok(Seen::Ended { call }) => (1, writeln!(writer, "ended in call {call}")),
        Err(Stop::Malformed) => (2, writeln!(writer, "bad row")),
        Err(Stop::OutOfMemory) => (3, writeln!(writer, "no memory")),
        Err(Stop::ReadFailed) => (4, writeln!(writer, "read failed")),
    };
    if written.is_err() { 4 } else { status }
}

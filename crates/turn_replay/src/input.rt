//! The bytes of a trace, from a reader.

ghost use Rattle.std.specs.Prelude.{◌≡◌, ◌+◌, ◌≤◌, ◌++◌, false, ℕ, List, [], IfSome, MatchResult, Some, vec_len};
ghost use Rattle.std.specs.Io.KnownBytes.{Consumes, IsAtEnd};
ghost use Rattle.turn_replay.specs.Answer.{IsRead, LosesMore, ReadsMore, ReadsSome, trace_bytes};

use crate::trace::MAX_TRACE;
use std::alloc::{AllocError, Global};
use std::io::{ErrorKind, Read};

/// Why an input could not be read.
#[derive(Clone, Copy, Debug, PartialEq, Eq)]
pub enum InputError {
    /// The reader failed.
    ReadFailed,
    /// Memory allocation for the bytes failed.
    OutOfMemory,
}

impl From<AllocError> for InputError {
    ghost use Rattle.std.specs.Prelude.{◌≡◌};
    ghost use Rattle.turn_replay.specs.declared.input.InputError.TheVariants.{OutOfMemory};

    ghost from_gives = { λ _ error. error ≡ OutOfMemory };

    fn from(_error: AllocError) -> InputError {
        InputError::OutOfMemory
    }
}

/// Reads to the end, or until there is one byte more than a trace may have.
///
/// # Errors
///
/// `ReadFailed` if the reader fails, except by an interruption, after which it reads again. `OutOfMemory` if memory
/// allocation for the bytes failed. Then too at most one byte more than a trace may have was read, and is lost.
pub fn read_input<R: Read>(alloc: Global, reader: &mut R) -> Result<Vec<u8>, InputError>
    ensures { MatchResult result (λ input. IsRead (R.remaining reader.old) (R.remaining reader.new) input.items)
        (λ _. ReadsSome (R.remaining reader.old) (R.remaining reader.new)) }
{
    let mut input = Vec::new(alloc);
    for _ in 0..u64::MAX {
        if input.len() > MAX_TRACE {
            return Ok(input);
        }
        if !read_more(reader, &mut input)? {
            return Ok(input);
        }
    }
    Err(InputError::ReadFailed)
}

/// Reads once. Returns `false` if the end was reached.
fn read_more<R: Read>(reader: &mut R, input: &mut Vec<u8>) -> Result<bool, InputError>
    requires { vec_len input.old ≤ 1048576 }
    ensures { MatchResult result (λ goes_on. ReadsMore (R.remaining reader.old) (R.remaining reader.new) input.old.items input.new.items goes_on)
        (λ error. LosesMore (R.remaining reader.old) (R.remaining reader.new) input.old.items error) }
{
    let mut buffer = [0; 4096];
    let room = (MAX_TRACE + 1 - input.len()).min(buffer.len());
    match reader.read(&mut buffer[..room]) {
        Ok(0) => Ok(false),
        Ok(count) => {
            input.extend_from_slice(&buffer[..count])?;
            Ok(true)
        }
        Err(error) => {
            if error.kind() == ErrorKind::Interrupted {
                return Ok(true);
            }
            Err(InputError::ReadFailed)
        }
    }
}

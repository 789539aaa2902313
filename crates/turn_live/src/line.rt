//! One line, from a buffered reader.

ghost use Rattle.std.specs.Prelude.{◌≡◌, ◌-◌, ◌++◌, length, take, MatchResult};
ghost use Rattle.turn_live.specs.Line.{TakesLine, TakesSome};

use crate::stop::Stop;
use memchr::memchr;
use std::alloc::{AllocError, Global};
use std::io::{BufRead, ErrorKind};

/// The maximum length of a line in bytes, without its LF: that of a whole trace.
pub const MAX_LINE: usize = 1_048_576;

/// What ended a line.
#[derive(Clone, Copy, Debug, PartialEq, Eq)]
pub enum LineEnd {
    /// The LF.
    Feed,
    /// The end of the input.
    Input,
}

/// Takes the next line and returns it without its LF. It takes nothing after that. Of a line that is too long it returns
/// the first bytes, one more than a line may have.
///
/// # Errors
///
/// `ReadFailed` if the reader fails, except by an interruption, after which it reads again. `OutOfMemory` if memory
/// allocation for the line failed.
pub fn take_line<R: BufRead>(alloc: Global, reader: &mut R) -> Result<(Vec<u8>, LineEnd), Stop>
    ensures { TakesLine (R.remaining reader.old) (R.remaining reader.new) result }
{
    let mut line = Vec::new(alloc);
    for _ in 0..u64::MAX {
        if let Some(end) = take_some(reader, &mut line)? {
            return Ok((line, end));
        }
    }
    Err(Stop::ReadFailed)
}

/// Takes what the reader has buffered of the line, after at most one read. Returns what ended the line if it took that too.
fn take_some<R: BufRead>(reader: &mut R, line: &mut Vec<u8>) -> Result<Option<LineEnd>, Stop>
    ensures { TakesSome (R.remaining reader.old) (R.remaining reader.new) line.old.items line.new.items result }
{
    let available = match reader.fill_buf() {
        Ok(available) => available,
        Err(error) => {
            if error.kind() == ErrorKind::Interrupted {
                return Ok(None);
            }
            return Err(Stop::ReadFailed);
        }
    };
    if available.is_empty() {
        return Ok(Some(LineEnd::Input));
    }
    match memchr(b'\n', available) {
        Some(at) => {
            keep(line, &available[..at])?;
            reader.consume(at + 1);
            Ok(Some(LineEnd::Feed))
        }
        None => {
            let count = available.len();
            keep(line, available)?;
            reader.consume(count);
            Ok(None)
        }
    }
}

/// Appends a piece of a line, up to the first byte that is too many.
fn keep(line: &mut Vec<u8>, piece: &[u8]) -> Result<(), AllocError>
    ensures { MatchResult result (λ _. line.new.items ≡ line.old.items ++ take (1048577 - length line.old.items) piece.now)
        (λ _. line.new.items ≡ line.old.items) }
{
    let room = (MAX_LINE + 1).saturating_sub(line.len());
    line.extend_from_slice(&piece[..room.min(piece.len())])
}

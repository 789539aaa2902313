//! One line of the input.

ghost use Rattle.std.specs.Prelude.{◌≡◌};
ghost use Rattle.std.specs.Io.BufRead.{strip_last};
ghost use Rattle.turn_session_live.specs.Input.{TakesLine};

use std::alloc::Global;
use std::io::{BufRead, ErrorKind};
use turn_lines::status::Status;

/// The next line with its LF, which the last line may lack; at the end of the input no bytes. Nothing after that is taken.
///
/// # Errors
///
/// `OutOfMemory` if memory allocation for the line failed, and `ReadFailed` if the reader did, except by an interruption, after
/// which it reads again.
pub fn take_line<R: BufRead>(alloc: Global, reader: &mut R) -> Result<Vec<u8>, Status>
    ensures { TakesLine (R.remaining reader.old) (R.remaining reader.new) result }
{
    let mut line = Vec::new(alloc);
    match reader.read_until(b'\n', &mut line) {
        Ok(_) => Ok(line),
        Err(error) => {
            if error.kind() == ErrorKind::OutOfMemory {
                return Err(Status::OutOfMemory);
            }
            Err(Status::ReadFailed)
        }
    }
}

/// The line without its LF.
pub fn without_feed(line: &[u8]) -> &[u8]
    ensures { result.now ≡ strip_last 10 line.now }
{
    match line {
        [text @ .., b'\n'] => text,
        _ => line,
    }
}

//! Writes text to a writer.

ghost use Rattle.turn_lines.specs.Write.{PrintsText, Writes, WritesSome};

use crate::status::Status;
use std::io::{ErrorKind, Write};

/// The writer failed.
#[derive(Clone, Copy, Debug, PartialEq, Eq)]
pub struct WriteError;

/// Writes a text and flushes the writer. If the writer fails, a prefix of the text was written.
///
/// # Errors
///
/// `WriteError` if the writer fails, except by an interruption of a write, after which it writes
/// again.
pub fn write_text<W: Write>(writer: &mut W, text: &str) -> Result<(), WriteError>
    ensures { Writes (W.contents writer.old) (W.contents writer.new) text.now result }
{
    write_bytes(writer, text.as_bytes())?;
    if writer.flush().is_err() {
        return Err(WriteError);
    }
    Ok(())
}

/// Writes all bytes, by as many writes as necessary.
fn write_bytes<W: Write>(writer: &mut W, bytes: &[u8]) -> Result<(), WriteError>
    ensures { Writes (W.contents writer.old) (W.contents writer.new) bytes.now result }
{
    let mut at = 0;
    for _ in 0..u64::MAX {
        if at >= bytes.len() {
            return Ok(());
        }
        at += write_some(writer, &bytes[at..])?;
    }
    Err(WriteError)
}

/// Writes once, and returns how many bytes were written: 0 if the write was interrupted.
fn write_some<W: Write>(writer: &mut W, bytes: &[u8]) -> Result<usize, WriteError>
    ensures { WritesSome (W.contents writer.old) (W.contents writer.new) bytes.now result }
{
    match writer.write(bytes) {
        Ok(0) => Err(WriteError),
        Ok(count) => Ok(count),
        Err(error) => {
            if error.kind() == ErrorKind::Interrupted {
                return Ok(0);
            }
            Err(WriteError)
        }
    }
}

/// Writes the last text of a run. Returns its status, or `WriteFailed` if the writer fails.
pub fn write_last<W: Write>(writer: &mut W, status: Status, text: &str) -> Status
    ensures { PrintsText (W.contents writer.old) (W.contents writer.new) status text.now result }
{
    if write_text(writer, text).is_err() {
        return Status::WriteFailed;
    }
    status
}

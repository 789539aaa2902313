//! The program: a row in, one line out.

use crate::follow::follow;
use crate::head::head_of;
use crate::seen::{Seen, Stop, report};
use std::alloc::Global;
use std::io::{ErrorKind, Read, Write};
use std::process::ExitCode;
use turn_line_client::client::new_client;
use turn_lines::parts::Parts;

/// Reads a row, makes its calls, and writes one line that says what was seen.
///
/// The exit status says whether all was as the row says: 0 if it was, 1 if not, 2 if the row is malformed, 3 if a memory
/// allocation outside of the client failed, and 4 if reading or writing failed.
pub fn run<R: Read, W: Write>(alloc: Global, reader: &mut R, writer: &mut W) -> ExitCode {
    let found = look(alloc, reader, writer);
    ExitCode::from(report(found, writer))
}

/// Makes the client of a row, and the calls on it.
fn look<R: Read, W: Write>(alloc: Global, reader: &mut R, writer: &mut W) -> Result<Seen, Stop> {
    let row = read_row(alloc, reader)?;
    let mut lines = Parts::new(row.as_slice(), b'\n');
    let head = head_of(alloc, lines.next().ok_or(Stop::Malformed)?)?;
    let mut client = new_client(alloc, head)?;
    let seen = follow(alloc, &mut client, &mut lines, writer);
    drop(client);
    seen
}

/// All bytes of the reader.
fn read_row<R: Read>(alloc: Global, reader: &mut R) -> Result<Vec<u8>, Stop> {
    let mut row = Vec::new(alloc);
    match reader.read_to_end(&mut row) {
        Ok(_) => Ok(row),
        Err(error) => {
            if error.kind() == ErrorKind::OutOfMemory {
                return Err(Stop::OutOfMemory);
            }
            Err(Stop::ReadFailed)
        }
    }
}

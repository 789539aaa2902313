//! The program: lines in, answers out.

ghost use Rattle.std.specs.Process.{exit_status};
ghost use Rattle.turn_lines.specs.Status.{Exits};
ghost use Rattle.turn_live.specs.Session.{Closes, Runs};

use crate::session::hold_session;
use crate::stop::Stop;
use std::alloc::Global;
use std::io::{BufRead, Write};
use std::process::ExitCode;
use turn_lines::print::bad_text;
use turn_lines::status::Status;
use turn_lines::write::write_last;

/// Answers lines as [`run`] does. The exit status says how that ended: 0 at the end of the input, 2 at a bad head, 3
/// if memory allocation failed, and 4 if reading or writing failed.
pub fn exit_code<R: BufRead, W: Write>(alloc: Global, reader: &mut R, writer: &mut W) -> ExitCode
    ensures { Exits (Runs (R.remaining reader.old) (R.remaining reader.new) (W.contents writer.old) (W.contents writer.new)) (exit_status result) }
{
    ExitCode::from(run(alloc, reader, writer).code())
}

/// Takes the line that describes a client, and then its calls. The answer to each line after the first is written, and the
/// writer flushed, before the next line is taken; a line that is no call is answered by what is wrong with it. A bad first
/// line ends the session with the one line that reports it, a failed memory allocation with `no memory`, and a reader that
/// fails with `read failed`. It writes nothing else.
pub fn run<R: BufRead, W: Write>(alloc: Global, reader: &mut R, writer: &mut W) -> Status
    ensures { Runs (R.remaining reader.old) (R.remaining reader.new) (W.contents writer.old) (W.contents writer.new) result }
{
    match hold_session(alloc, reader, writer) {
        Ok(()) => Status::Answered,
        Err(stop) => close(alloc, stop, writer),
    }
}

/// Writes the last text of a session that ended early.
fn close<W: Write>(alloc: Global, stop: Stop, writer: &mut W) -> Status
    ensures { Closes stop (W.contents writer.old) (W.contents writer.new) result }
{
    match stop {
        Stop::Bad(bad) => match bad_text(alloc, bad) {
            Ok(text) => write_last(writer, Status::Malformed, text.as_str()),
            Err(_) => write_last(writer, Status::OutOfMemory, "no memory\n"),
        },
        Stop::OutOfMemory => write_last(writer, Status::OutOfMemory, "no memory\n"),
        Stop::ReadFailed => write_last(writer, Status::ReadFailed, "read failed\n"),
        Stop::WriteFailed => Status::WriteFailed,
    }
}

//! The program: a trace in, the answers out.

ghost use Rattle.std.specs.Process.{exit_status};
ghost use Rattle.turn_lines.specs.Status.{Exits};
ghost use Rattle.turn_replay.specs.Answer.{Runs};

use crate::answer::answer;
use crate::input::{InputError, read_input};
use std::alloc::Global;
use std::io::{Read, Write};
use std::process::ExitCode;
use turn_lines::status::Status;
use turn_lines::write::write_last;

/// Reads a trace and writes its answers, as [`run`] does. The exit status says what was written: 0 the answers to
/// the calls, 2 which line of the trace is bad, 3 that memory allocation failed, and 4 that the trace could not be
/// read, or not everything, as writing failed.
pub fn exit_code<R: Read, W: Write>(alloc: Global, reader: &mut R, writer: &mut W) -> ExitCode
    ensures { Exits (Runs (R.remaining reader.old) (R.remaining reader.new) (W.contents writer.old) (W.contents writer.new)) (exit_status result) }
{
    ExitCode::from(run(alloc, reader, writer).code())
}

/// Reads a trace and writes its answers: a line for each call, or the one line that reports the first bad line of
/// the trace. If memory allocation fails that is the one line `no memory`, and if the trace could not be read `read
/// failed`. It writes nothing else.
///
/// The whole trace is parsed before a client runs, and the whole text is made before a byte of it is written.
#[tactic(auto, using(crate::proofs::InputLemmas::read_some))]
pub fn run<R: Read, W: Write>(alloc: Global, reader: &mut R, writer: &mut W) -> Status
    ensures { Runs (R.remaining reader.old) (R.remaining reader.new) (W.contents writer.old) (W.contents writer.new) result }
{
    match read_input(alloc, reader) {
        Ok(text) => match answer(alloc, text.as_slice()) {
            Ok((status, answers)) => write_last(writer, status, answers.as_str()),
            Err(_) => write_last(writer, Status::OutOfMemory, "no memory\n"),
        },
        Err(InputError::OutOfMemory) => write_last(writer, Status::OutOfMemory, "no memory\n"),
        Err(InputError::ReadFailed) => write_last(writer, Status::ReadFailed, "read failed\n"),
    }
}

//! The program: lines in, answers out.

ghost use Rattle.std.specs.Prelude.{◌≡◌, IfOk, string_bytes};
ghost use Rattle.turn_lines.specs.Write.{PrintsText};
ghost use Rattle.turn_session_live.specs.Program.{AnswersAll, AnswersLine, Closes, IsAnsweredBy, Prints, ReadsHead, Runs, Steps, Talks};
ghost use Rattle.turn_session_lines.specs.Call.{session_call_of};

use crate::input::{take_line, without_feed};
use std::alloc::{AllocError, Global};
use std::io::{BufRead, Write};
use turn_client_api::TurnClientApi;
use turn_line_client::client::new_client;
use turn_lines::fault::{BadLine, ReadError};
use turn_lines::field::FieldError;
use turn_lines::print::bad_text;
use turn_lines::status::Status;
use turn_lines::write::{write_last, write_text};
use turn_session::session::Session;
use turn_session_lines::head::{SessionHead, parse_session_head};
use turn_session_lines::parse::parse_session_call;
use turn_session_lines::print::answer_text;
use turn_session_lines::reply::reply_to;
use turn_stun::instant::Instant;

/// Takes the line that describes a session, and then its calls. The session begins at time 0. The answer to each line after the first
/// is written, and the writer flushed, before the next line is taken; a line that is no call is answered by its number and what is
/// wrong with it. A bad first line ends the run with the one line that reports it, a failed memory allocation with `no memory`, and a
/// reader that fails with `read failed`. It writes nothing else.
pub fn run<R: BufRead, W: Write>(alloc: Global, reader: &mut R, writer: &mut W) -> Status
    ensures { Runs (R.remaining reader.old) (R.remaining reader.new) (W.contents writer.old) (W.contents writer.new) result }
{
    match answer_all(alloc, reader, writer) {
        Ok(()) => Status::Answered,
        Err(status) => close(status, writer),
    }
}

/// Writes the last line of a run that ends before its input does.
fn close<W: Write>(status: Status, writer: &mut W) -> Status
    ensures { Closes status (W.contents writer.old) (W.contents writer.new) result }
{
    match status {
        Status::Malformed => write_last(writer, status, "line 1: bad head\n"),
        Status::OutOfMemory => write_last(writer, status, "no memory\n"),
        Status::ReadFailed => write_last(writer, status, "read failed\n"),
        Status::Answered | Status::WriteFailed => status,
    }
}

/// Takes lines to the end of the input, and answers each after the first before it takes the next one.
///
/// # Errors
///
/// `Malformed` if the first line does not describe a session, after which nothing is read; `OutOfMemory`, `ReadFailed` and
/// `WriteFailed` when they occur.
fn answer_all<R: BufRead, W: Write>(
    alloc: Global,
    reader: &mut R,
    writer: &mut W,
) -> Result<(), Status>
    ensures { AnswersAll (R.remaining reader.old) (R.remaining reader.new) (W.contents writer.old) (W.contents writer.new) result }
{
    let line = take_line(alloc, reader)?;
    let head = read_head(alloc, without_feed(&line))?;
    let SessionHead {
        client,
        settings,
        seed,
    } = head;
    match new_client(alloc, client) {
        Ok(client) => {
            let session = Session::new(alloc, client, settings, seed, Instant::ZERO);
            answer_calls(alloc, session, reader, writer)
        }
        Err(_) => Err(Status::OutOfMemory),
    }
}

/// Parses the head, from the first line.
///
/// # Errors
///
/// `Malformed` if the line does not describe a session, `OutOfMemory` if memory allocation for the credentials failed.
fn read_head(alloc: Global, line: &[u8]) -> Result<SessionHead, Status>
    ensures { ReadsHead line.now result }
{
    match parse_session_head(alloc, line) {
        Ok(head) => Ok(head),
        Err(FieldError::Malformed) => Err(Status::Malformed),
        Err(FieldError::OutOfMemory) => Err(Status::OutOfMemory),
    }
}

/// Takes lines from the second one to the end of the input, and answers each before it takes the next one.
fn answer_calls<C: TurnClientApi, R: BufRead, W: Write>(
    alloc: Global,
    session: Session<C>,
    reader: &mut R,
    writer: &mut W,
) -> Result<(), Status>
    ensures { Talks session (R.remaining reader.old) (R.remaining reader.new) (W.contents writer.old) (W.contents writer.new) result }
{
    let mut session = session;
    for number in 2..usize::MAX {
        if !answer_next(alloc, &mut session, number, reader, writer)? {
            return Ok(());
        }
    }
    Err(Status::ReadFailed)
}

/// Takes the next line, which has this number, and answers it: the answer is written, and the writer flushed. A line that is no call
/// is answered by what is wrong with it, and the session stays as it was. Returns whether there was a line.
///
/// # Errors
///
/// `OutOfMemory`, `ReadFailed` and `WriteFailed` when they occur.
pub fn answer_next<C: TurnClientApi, R: BufRead, W: Write>(
    alloc: Global,
    session: &mut Session<C>,
    number: usize,
    reader: &mut R,
    writer: &mut W,
) -> Result<bool, Status>
    ensures { Steps number session.old session.new (R.remaining reader.old) (R.remaining reader.new) (W.contents writer.old)
        (W.contents writer.new) result }
{
    let line = take_line(alloc, reader)?;
    if line.is_empty() {
        return Ok(false);
    }
    answer_line(alloc, session, number, without_feed(&line), writer)?;
    Ok(true)
}

/// Makes the call of a line and writes its answer, or writes what is wrong with the line.
fn answer_line<C: TurnClientApi, W: Write>(
    alloc: Global,
    session: &mut Session<C>,
    number: usize,
    line: &[u8],
    writer: &mut W,
) -> Result<(), Status>
    ensures { AnswersLine number line.now session.old session.new (W.contents writer.old) (W.contents writer.new) result }
{
    match answer_to(alloc, session, number, line) {
        Ok(text) => print(text.as_str(), writer),
        Err(_) => Err(Status::OutOfMemory),
    }
}

/// Makes the call of a line and returns its answer, or what is wrong with the line.
fn answer_to<C: TurnClientApi>(
    alloc: Global,
    session: &mut Session<C>,
    number: usize,
    line: &[u8],
) -> Result<String, AllocError>
    ensures { IfOk result (λ text. IsAnsweredBy number (session_call_of line.now) session.old (string_bytes text) session.new) }
{
    match parse_session_call(alloc, line) {
        Ok(call) => {
            let reply = reply_to(alloc, session, call)?;
            answer_text(alloc, &reply)
        }
        Err(ReadError::Bad(kind)) => bad_text(alloc, BadLine { number, kind }),
        Err(ReadError::OutOfMemory) => Err(AllocError),
    }
}

/// Writes this text, and flushes the writer.
///
/// # Errors
///
/// `WriteFailed` if the writer fails.
fn print<W: Write>(text: &str, writer: &mut W) -> Result<(), Status>
    ensures { Prints (W.contents writer.old) (W.contents writer.new) text.now result }
{
    match write_text(writer, text) {
        Ok(()) => Ok(()),
        Err(_) => Err(Status::WriteFailed),
    }
}

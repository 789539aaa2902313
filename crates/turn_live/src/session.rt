//! A session: a line that describes a client, and then its calls, each answered before the next line is taken.

ghost use Rattle.std.specs.Prelude.{◌≡◌};
ghost use Rattle.turn_lines.specs.Fault.{Reads, bad_line};
ghost use Rattle.turn_live.specs.Lines.{bad_answer, calls_said, line_call};
ghost use Rattle.turn_live.specs.Session.{AnswersLine, IsSession, ReadsHead, Steps, Talks};

use crate::line::{LineEnd, MAX_LINE, take_line};
use crate::stop::Stop;
use std::alloc::Global;
use std::io::{BufRead, Write};
use turn_client_api::TurnClientApi;
use turn_client_calls::{Call, reply_to};
use turn_line_client::client::new_client;
use turn_lines::call::parse_call;
use turn_lines::fault::{BadKind, BadLine, ReadError};
use turn_lines::field::FieldError;
use turn_lines::head::{Head, parse_head};
use turn_lines::print::answers_text;
use turn_lines::write::write_text;
use turn_types::TransportType;

/// Takes lines to the end of the input, and answers each after the first before it takes the next one.
///
/// # Errors
///
/// `Bad` if the first line does not describe a client, after which nothing is read; `OutOfMemory`, `ReadFailed` and
/// `WriteFailed` when they occur.
pub fn hold_session<R: BufRead, W: Write>(
    alloc: Global,
    reader: &mut R,
    writer: &mut W,
) -> Result<(), Stop>
    ensures { IsSession (R.remaining reader.old) (R.remaining reader.new) (W.contents writer.old) (W.contents writer.new) result }
{
    let (line, end) = take_line(alloc, reader)?;
    let head = read_head(alloc, line.as_slice())?;
    match end {
        LineEnd::Feed => {
            let relays = head.request.allocation;
            let client = new_client(alloc, head)?;
            answer_calls(alloc, client, relays, reader, writer)
        }
        // no call follows, so no client is made
        LineEnd::Input => Ok(()),
    }
}

/// Parses the head, from the first line.
fn read_head(alloc: Global, line: &[u8]) -> Result<Head, Stop>
    ensures { ReadsHead line.now result }
{
    if line.len() > MAX_LINE {
        return Err(bad_first(BadKind::Size));
    }
    match parse_head(alloc, line) {
        Ok(head) => Ok(head),
        Err(FieldError::Malformed) => Err(bad_first(BadKind::Head)),
        Err(FieldError::OutOfMemory) => Err(Stop::OutOfMemory),
    }
}

/// The error for a first line that does not describe a client.
fn bad_first(kind: BadKind) -> Stop
    ensures { result ≡ Stop.Bad (bad_line 1 kind) }
{
    Stop::Bad(BadLine { number: 1, kind })
}

/// Takes lines from the second one to the end of the input, and answers each before it takes the next one.
fn answer_calls<C: TurnClientApi, R: BufRead, W: Write>(
    alloc: Global,
    client: C,
    relays: TransportType,
    reader: &mut R,
    writer: &mut W,
) -> Result<(), Stop>
    requires { (C.state client).config.allocation_transport ≡ relays }
    ensures { Talks (calls_said relays (C.state client)) (R.remaining reader.old) (R.remaining reader.new) (W.contents writer.old)
        (W.contents writer.new) result }
{
    let mut client = client;
    for _ in 0..u64::MAX {
        if !answer_next(alloc, &mut client, relays, reader, writer)? {
            return Ok(());
        }
    }
    Err(Stop::ReadFailed)
}

/// Takes the next line and answers it: the answer is written, and the writer flushed. A line that is no call is answered
/// by what is wrong with it, and the client stays as it was. Returns whether there may be more lines.
///
/// # Errors
///
/// `OutOfMemory`, `ReadFailed` and `WriteFailed` when they occur.
pub fn answer_next<C: TurnClientApi, R: BufRead, W: Write>(
    alloc: Global,
    client: &mut C,
    relays: TransportType,
    reader: &mut R,
    writer: &mut W,
) -> Result<bool, Stop>
    requires { (C.state client.old).config.allocation_transport ≡ relays }
    ensures { Steps relays (C.state client.old) (C.state client.new) (R.remaining reader.old) (R.remaining reader.new) (W.contents writer.old)
        (W.contents writer.new) result }
{
    let (line, end) = take_line(alloc, reader)?;
    if end == LineEnd::Input && line.is_empty() {
        return Ok(false);
    }
    answer_line(alloc, client, relays, line.as_slice(), writer)?;
    match end {
        LineEnd::Feed => Ok(true),
        LineEnd::Input => Ok(false),
    }
}

/// Makes the call of a line and writes its answer, or writes what is wrong with the line.
fn answer_line<C: TurnClientApi, W: Write>(
    alloc: Global,
    client: &mut C,
    relays: TransportType,
    line: &[u8],
    writer: &mut W,
) -> Result<(), Stop>
    requires { (C.state client.old).config.allocation_transport ≡ relays }
    ensures { AnswersLine (line_call relays line.now) (C.state client.old) (C.state client.new) (W.contents writer.old) (W.contents writer.new) result }
{
    match read_call(alloc, relays, line) {
        Ok(call) => {
            let reply = reply_to(alloc, client, &call)?;
            let text = answers_text(alloc, &[reply])?;
            Ok(write_text(writer, text.as_str())?)
        }
        Err(ReadError::Bad(kind)) => Ok(write_text(writer, bad_answer(kind))?),
        Err(ReadError::OutOfMemory) => Err(Stop::OutOfMemory),
    }
}

/// Parses the call of a line.
fn read_call(alloc: Global, relays: TransportType, line: &[u8]) -> Result<Call, ReadError<BadKind>>
    ensures { Reads (λ call. call) result (line_call relays line.now) }
{
    if line.len() > MAX_LINE {
        return Err(ReadError::Bad(BadKind::Size));
    }
    parse_call(alloc, relays, line)
}

/// The answer to a line that is no call.
fn bad_answer(kind: BadKind) -> &'static str
    ensures { result.now ≡ bad_answer kind }
{
    match kind {
        BadKind::Size => "bad size\n",
        BadKind::Head => "bad head\n",
        BadKind::Time => "bad moment\n",
        BadKind::Call => "bad call\n",
        BadKind::Argument => "bad argument\n",
        BadKind::Payload => "bad payload\n",
    }
}

//! The calls of a row, in order.

use crate::make::{Made, make};
use crate::parse::parse;
use crate::seen::{Seen, Stop};
use std::alloc::{AllocError, Global};
use std::io::Write;
use turn_client_api::TurnClientApi;
use turn_client_calls::Reply;
use turn_lines::parts::Parts;
use turn_lines::print::answers_text;

/// What came of a step of a row: a call and its answer.
#[derive(Clone, Copy)]
enum Step {
    /// There is none.
    Missing,
    /// The call was answered as the row says.
    Right,
    /// It was, when it was made again.
    Again,
    /// It has another answer, or no memory allocation failed in it where one was to.
    Answered,
    /// A memory allocation failed in it where none was to, and ended the client.
    Ended,
}

/// Makes the calls of the row on its client, up to the first that is not answered as the row says.
///
/// # Errors
///
/// `Malformed` if a line is not a call or has no answer, `OutOfMemory` if a memory allocation outside of the client failed.
pub fn follow<C: TurnClientApi, W: Write>(
    alloc: Global,
    client: &mut C,
    lines: &mut Parts<'_>,
    writer: &mut W,
) -> Result<Seen, Stop> {
    let mut again = 0u64;
    for calls in 0..u64::MAX {
        match take(alloc, client, lines, writer)? {
            Step::Missing => return Ok(Seen::Right { calls, again }),
            Step::Right => {}
            Step::Again => again = again.saturating_add(1),
            Step::Answered => return Ok(Seen::Answered { call: calls + 1 }),
            Step::Ended => return Ok(Seen::Ended { call: calls + 1 }),
        }
    }
    Err(Stop::Malformed)
}

/// Takes the next call, makes it, and compares its answer with that of the row.
fn take<C: TurnClientApi, W: Write>(
    alloc: Global,
    client: &mut C,
    lines: &mut Parts<'_>,
    writer: &mut W,
) -> Result<Step, Stop> {
    let Some(line) = lines.next() else {
        return Ok(Step::Missing);
    };
    if line.is_empty() {
        return Ok(Step::Missing);
    }
    let answer = lines.next().ok_or(Stop::Malformed)?;
    let call = parse(alloc, line)?;
    let made = make(alloc, client, &call, writer)?;
    Ok(judge(alloc, made, answer)?)
}

/// Compares what came of a call with the answer of the row.
fn judge(alloc: Global, made: Made, answer: &[u8]) -> Result<Step, AllocError> {
    match made {
        Made::Replied(reply) => compare(alloc, reply, answer, Step::Right),
        Made::Again(reply) => compare(alloc, reply, answer, Step::Again),
        Made::Ended => {
            if answer == b"ended".as_slice() {
                return Ok(Step::Right);
            }
            Ok(Step::Ended)
        }
    }
}

/// This step if the reply is printed as the answer of the row.
fn compare(alloc: Global, reply: Reply, answer: &[u8], step: Step) -> Result<Step, AllocError> {
    let text = answers_text(alloc, &[reply])?;
    if text.as_bytes().strip_suffix(b"\n") == Some(answer) {
        return Ok(step);
    }
    Ok(Step::Answered)
}

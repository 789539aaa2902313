//! The answer to a trace.

ghost use Rattle.std.specs.Prelude.{◌≡◌, All, IfOk, string_bytes};
ghost use Rattle.turn_client_calls.specs.Run.{IsCallable};
ghost use Rattle.turn_line_client.specs.Answered.{answered_text};
ghost use Rattle.turn_replay.specs.Answer.{answer_to};

use crate::trace::{Trace, parse_trace};
use std::alloc::{AllocError, Global};
use turn_line_client::run::replayed_text;
use turn_lines::fault::ReadError;
use turn_lines::print::bad_text;
use turn_lines::status::Status;
use turn_types::TransportType;

/// The text that answers a trace: a line for each call of it, or the one line that reports its first bad line. The
/// whole trace is parsed before a client runs.
///
/// # Errors
///
/// Memory allocation failed, for the trace, for the client or for the text.
pub fn answer(alloc: Global, text: &[u8]) -> Result<(Status, String), AllocError>
    ensures { IfOk result (λ answer. (answer.0, string_bytes answer.1) ≡ answer_to text.now) }
{
    match parse_trace(alloc, text) {
        Ok(trace) => {
            let answers = answered_text(alloc, trace)?;
            Ok((Status::Answered, answers))
        }
        Err(ReadError::Bad(bad)) => {
            let line = bad_text(alloc, bad)?;
            Ok((Status::Malformed, line))
        }
        Err(ReadError::OutOfMemory) => Err(AllocError),
    }
}

/// The lines of a client's answers.
fn answered_text(alloc: Global, trace: Trace) -> Result<String, AllocError>
    requires allocation { trace.head.ends.transport ≡ TransportType.Udp → trace.head.request.allocation ≡ TransportType.Udp }
    requires callable { All (IsCallable trace.head.request.allocation) trace.calls.items }
    ensures { IfOk result (λ text. string_bytes text ≡ answered_text trace.head trace.calls.items) }
{
    let Trace { head, calls } = trace;
    replayed_text(alloc, head, calls.as_slice())
}

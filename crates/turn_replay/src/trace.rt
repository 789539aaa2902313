//! A trace: its lines, the head and the calls.

ghost use Rattle.std.specs.Prelude.{◌≡◌, List};
ghost use Rattle.turn_client_api.specs.declared.call.Call.{Call};
ghost use Rattle.turn_lines.specs.Fault.{Reads};
ghost use Rattle.turn_replay.specs.Trace.{trace_of, calls_of, head_line_of, numbered_call_of, without_last_feed};

use std::alloc::Global;
use turn_client_calls::Call;
use turn_lines::call::parse_call;
use turn_lines::fault::{BadKind, BadLine, ReadError};
use turn_lines::field::FieldError;
use turn_lines::head::{Head, parse_head};
use turn_lines::parts::Parts;
use turn_types::TransportType;

/// The most bytes that a trace may have.
pub const MAX_TRACE: usize = 1_048_576;

/// The most calls that a trace may make.
pub const MAX_CALLS: usize = 10_000;

/// A client, and the calls to make on it.
#[derive(Debug, Drop)]
pub struct Trace {
    /// The client and its server.
    pub head: Head,
    /// The calls, in their order.
    pub calls: Vec<Call>,
}

/// The trace that a text spells: a line for the client, and then a line for each call. Lines end
/// with LF, which the last may lack.
///
/// # Errors
///
/// `Bad` with the first line, from the front, that is not as it is to be. `OutOfMemory` if
/// a memory allocation for the trace fails.
#[tactic(auto, unfolding(crate::specs::Trace::trace_of))]
pub fn parse_trace(alloc: Global, text: &[u8]) -> Result<Trace, ReadError<BadLine>>
    ensures { Reads (λ trace. (trace.head, trace.calls.items)) result (trace_of text.now) }
{
    if text.len() > MAX_TRACE {
        return Err(ReadError::Bad(BadLine {
            number: 0,
            kind: BadKind::Size,
        }));
    }
    let mut lines = Parts::new(without_last_feed(text), b'\n');
    let head = take_head(alloc, &mut lines)?;
    let calls = take_calls(alloc, head.request.allocation, lines)?;
    Ok(Trace { head, calls })
}

/// The text without the LF at its end, if it has one there.
fn without_last_feed(text: &[u8]) -> &[u8]
    ensures { result.now ≡ without_last_feed text.now }
{
    match text {
        [front @ .., b'\n'] => front,
        _ => text,
    }
}

/// Reads the first line.
fn take_head(alloc: Global, lines: &mut Parts<'_>) -> Result<Head, ReadError<BadLine>>
    ensures { Reads (λ head. (head, lines.new)) result (head_line_of lines.old) }
{
    let bad = ReadError::Bad(BadLine {
        number: 1,
        kind: BadKind::Head,
    });
    let Some(line) = lines.next() else {
        return Err(bad);
    };
    match parse_head(alloc, line) {
        Ok(head) => Ok(head),
        Err(FieldError::Malformed) => Err(bad),
        Err(FieldError::OutOfMemory) => Err(ReadError::OutOfMemory),
    }
}

/// Reads the other lines, from the second on.
fn take_calls(
    alloc: Global,
    relays: TransportType,
    mut lines: Parts<'_>,
) -> Result<Vec<Call>, ReadError<BadLine>>
    ensures { Reads (λ calls. calls.items) result (calls_of relays 2 lines.entry) }
{
    let mut calls = Vec::new(alloc);
    while let Some(line) = lines.next() {
        let call = parse_numbered_call(alloc, relays, calls.len() + 2, line)?;
        calls.push(call)?;
    }
    Ok(calls)
}

/// The call of a line with this number.
fn parse_numbered_call(
    alloc: Global,
    relays: TransportType,
    number: usize,
    line: &[u8],
) -> Result<Call, ReadError<BadLine>>
    ensures { Reads (λ call. call) result (numbered_call_of relays number line.now) }
{
    if number > MAX_CALLS + 1 {
        return Err(ReadError::Bad(BadLine {
            number,
            kind: BadKind::Size,
        }));
    }
    match parse_call(alloc, relays, line) {
        Ok(call) => Ok(call),
        Err(ReadError::Bad(kind)) => Err(ReadError::Bad(BadLine { number, kind })),
        Err(ReadError::OutOfMemory) => Err(ReadError::OutOfMemory),
    }
}

//! The head of a row.

ghost use Rattle.std.specs.Prelude.{◌≡◌, IfOk};

use crate::seen::Stop;
use std::alloc::Global;
use turn_lines::field::FieldError;
use turn_lines::head::{Head, parse_head};
use turn_types::TransportType;

/// The client that this line describes, and its server.
///
/// # Errors
///
/// `Malformed` if the line is not a head, `OutOfMemory` if memory allocation for the credentials failed.
#[tactic(auto, using(turn_lines::proofs::HeadLemmas::made_line))]
pub fn head_of(alloc: Global, line: &[u8]) -> Result<Head, Stop>
    ensures { IfOk result (λ head. head.ends.transport ≡ TransportType.Udp → head.request.allocation ≡ TransportType.Udp) }
{
    match parse_head(alloc, line) {
        Ok(head) => Ok(head),
        Err(FieldError::OutOfMemory) => Err(Stop::OutOfMemory),
        Err(FieldError::Malformed) => Err(Stop::Malformed),
    }
}

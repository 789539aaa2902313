//! The call of a line.

ghost use Rattle.std.specs.Prelude.{IfOk};
ghost use Rattle.turn_stun.specs.declared.transport.TransportType.TheVariants.{Udp};
ghost use Rattle.turn_client_calls.specs.Run.{IsCallable};

use crate::seen::Stop;
use std::alloc::Global;
use turn_client_calls::Call;
use turn_lines::call::parse_call;
use turn_lines::fault::ReadError;
use turn_types::TransportType;

/// The call of a line, which any allocation can carry.
///
/// # Errors
///
/// `Malformed` if the line is not a call, or has more data for a peer than an allocation over UDP takes. `OutOfMemory` if
/// memory allocation for its bytes failed.
#[tactic(auto, using(turn_lines::proofs::CallableLemmas::callable_line))]
pub fn parse(alloc: Global, line: &[u8]) -> Result<Call, Stop>
    ensures { IfOk result (IsCallable Udp) }
{
    match parse_call(alloc, TransportType::Udp, line) {
        Ok(call) => Ok(call),
        Err(ReadError::OutOfMemory) => Err(Stop::OutOfMemory),
        Err(ReadError::Bad(_)) => Err(Stop::Malformed),
    }
}

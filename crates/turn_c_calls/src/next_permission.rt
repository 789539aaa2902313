//! The permissions of an allocation one after the other, for a caller that keeps its position among them.

ghost use Rattle.std.specs.Prelude.{IfErr, OnOk};
ghost use Rattle.turn_client_proto.specs.Client.{state_of};
ghost use Rattle.turn_c_calls.specs.Look.{LacksSight, Looks, next_looked};

use crate::answer::Answer;
use crate::fault::Fault;
use crate::request::{Request, relayed_of, time_of};
use turn_client_proto::client::TurnClient;

/// Answers a request for the next permission.
///
/// # Errors
///
/// The first of these: `Time`, `Call`. The answer has not changed then.
pub fn next_permission(
    client: &TurnClient,
    request: &Request,
    answer: &mut Answer,
) -> Result<(), Fault>
    ensures ok { OnOk result (Looks (next_looked request.now (state_of client.now)) answer.old answer.new) }
    ensures err { IfErr result (λ fault. LacksSight (next_looked request.now (state_of client.now)) fault answer.old answer.new) }
{
    let _now = time_of(request.time).ok_or(Fault::Time)?;
    if request.reserved != 0 {
        return Err(Fault::Call);
    }
    let (transport, relayed) = relayed_of(request).ok_or(Fault::Call)?;
    answer.set_next_permission(client.next_permission(transport, relayed, request.id as usize));
    Ok(())
}

//! A client that is given up at once, by a caller that closes its socket.

ghost use Rattle.std.specs.Prelude.{◌≡◌, ◌≤◌, ◌^◌, [], IfErr, OnErr, OnOk};
ghost use Rattle.turn_client_api.specs.declared.state.Phase.TheVariants.{Allocated};
ghost use Rattle.turn_c_calls.specs.Abandon.{AbandonRequestEnds, AbandonRequestLacks, IsAbandoned};

use crate::answer::Answer;
use crate::code::NOTHING;
use crate::fault::Fault;
use crate::give::give;
use crate::request::{Request, time_of};
use crate::unread::{Kept, Unread};
use std::alloc::AllocError;
use turn_client_api::TurnClientApi;
use turn_stun::instant::Instant;

/// Gives the client up: the packet that deletes its allocations is written to the buffer, and what does not fit is left to be
/// read.
///
/// # Errors
///
/// The first of these: `Time`, `Call`, `Unread` if bytes are left, `OutOfMemory` if a memory allocation fails, which only a
/// client with an allocation needs. Nothing has changed then.
pub fn abandon<C: TurnClientApi>(
    client: &mut C,
    request: &Request,
    unread: &mut Unread,
    buffer: &mut [u8],
    answer: &mut Answer,
) -> Result<(), Fault>
    ensures ok { OnOk result (AbandonRequestEnds request.now (C.state client.old) (C.state client.new)
        unread.old unread.new buffer.old buffer.new answer.old answer.new) }
    ensures err { IfErr result (λ fault. AbandonRequestLacks request.now fault (C.state client.old) (C.state client.new)
        unread.old unread.new buffer.old buffer.new answer.old answer.new) }
{
    let now = time_of(request.time).ok_or(Fault::Time)?;
    if request.reserved != 0 {
        return Err(Fault::Call);
    }
    if unread.is_left() {
        return Err(Fault::Unread);
    }
    give_up(client, now, unread, buffer, answer)?;
    Ok(())
}

/// Gives the client up, with nothing to be read.
fn give_up<C: TurnClientApi>(
    client: &mut C,
    now: Instant,
    unread: &mut Unread,
    buffer: &mut [u8],
    answer: &mut Answer,
) -> Result<(), AllocError>
    requires time { now ≤ 2 ^ 62 }
    requires none_left { unread.old ≡ [] }
    ensures ok { OnOk result (IsAbandoned now (C.state client.old) (C.state client.new)
        unread.old unread.new buffer.old buffer.new answer.old answer.new) }
    ensures client { OnErr result (C.state client.new ≡ C.state client.old) }
    ensures needs { OnErr result ((C.state client.old).phase ≡ Allocated) }
    ensures unread { OnErr result (unread.new ≡ unread.old) }
    ensures buffer { OnErr result (buffer.new ≡ buffer.old) }
    ensures same { OnErr result (answer.new ≡ answer.old) }
{
    match client.abandon(now)? {
        None => answer.kind = NOTHING,
        Some(packet) => {
            answer.set_packet(packet.transport, &packet.from, &packet.to);
            give(Kept::Packet(packet.payload), unread, buffer, answer);
        }
    }
    Ok(())
}

//! One iteration of the caller's loop.

ghost use Rattle.std.specs.Prelude.{◌≡◌, ◌⊎◌, ◌≤◌, ◌^◌, IfOk, OnErr, OnOk, Some};
ghost use Rattle.turn_client_api.specs.Answers.{RecvEnds};
ghost use Rattle.turn_driver.specs.Given.{packet_in, packet_of};
ghost use Rattle.turn_driver.specs.Next.{IsRestful};
ghost use Rattle.turn_driver.specs.OnTime.{WakesOnTime};
ghost use Rattle.turn_driver.specs.Run.{IsWhole};
ghost use Rattle.turn_driver.specs.Driver.{Draws, IsFull, Stops, StopsAtHand, begun, drive_state, driven, drive_step, drive_steps};

use crate::next::{Next, next_task};
use crate::task::{Rest, Task};
use std::alloc::AllocError;
use turn_client_api::{TurnClientApi, TurnRecvRet};
use turn_stun::instant::Instant;
use turn_stun::transport::Transmit;

/// One iteration of the caller's loop: passes in a packet, if there is one, and then polls the client until it
/// has nothing more to do, at most `most` times. All that the client returns is appended to the list, in order.
/// The result says what follows: a caller that calls again by then is on time, so that no grant is lost while the server
/// answers (`turn_client_runs::grants_last_while_the_server_answers`, [`loops_are_on_time`](crate::loops_are_on_time)).
///
/// # Errors
///
/// Memory allocation failed. Either it failed for the list, and that call of the client was not made (a packet
/// that was not passed in is dropped then); or it failed in the client, which has then ended as its own docs
/// say. The list keeps what the client returned before.
pub fn drive_client<C: TurnClientApi>(
    client: &mut C,
    came: Option<Transmit<Vec<u8>>>,
    now: Instant,
    most: u32,
    tasks: &mut Vec<Task>,
) -> Result<Rest, AllocError>
    requires now_in_range { now ≤ 2 ^ 62 }
    ensures ok { IfOk result (λ rest. driven tasks.new.items rest (C.state client.new) ≡ drive_step most came now tasks.old.items (C.state client.old)) }
    ensures whole { OnOk result (IsWhole (packet_in came) now (drive_state tasks.old.items (C.state client.old))
        (drive_state tasks.new.items (C.state client.new))) }
    ensures restful { IfOk result (λ rest. IsRestful rest now (C.state client.new)) }
    ensures on_time { IfOk result (λ rest. WakesOnTime rest now (C.state client.new)) }
    ensures no_memory { OnErr result (Stops most came now (drive_state tasks.old.items (C.state client.old))
        (drive_state tasks.new.items (C.state client.new))) }
{
    if let Some(packet) = came {
        receive(client, packet, now, tasks)?;
    }
    poll_tasks(client, now, most, tasks)
}

/// Passes a packet in. What the client returns at once is appended to the list.
///
/// # Errors
///
/// If the list is full and memory allocation for it fails: the packet is dropped then. Or if it fails in the client.
fn receive<C: TurnClientApi>(
    client: &mut C,
    came: Transmit<Vec<u8>>,
    now: Instant,
    tasks: &mut Vec<Task>,
) -> Result<(), AllocError>
    requires now_in_range { now ≤ 2 ^ 62 }
    ensures ok { OnOk result (drive_state tasks.new.items (C.state client.new)
        ≡ begun (Some (packet_of came)) now (drive_state tasks.old.items (C.state client.old))) }
    ensures list { OnErr result (tasks.new.items ≡ tasks.old.items) }
    ensures no_memory { OnErr result (StopsAtHand (Some (packet_of came)) now (C.state client.old) (C.state client.new)) }
    ensures wanted { OnErr result (IsFull tasks.old ⊎ RecvEnds came.to came.payload.items now (C.state client.old) (C.state client.new)) }
{
    // Room first (our choice): an allocation failure loses nothing that the client returns.
    tasks.reserve(1)?;
    let task = match client.recv(came, now)? {
        TurnRecvRet::Handled => return Ok(()),
        TurnRecvRet::Ignored(packet) => Task::Other(packet),
        TurnRecvRet::PeerData(given) => Task::Payload(given),
        TurnRecvRet::PeerIcmp {
            transport,
            peer,
            icmp_type,
            icmp_code,
            icmp_data,
        } => Task::Icmp {
            transport,
            peer,
            icmp_type,
            icmp_code,
            icmp_data,
        },
    };
    Ok(tasks.push(task)?)
}

/// Polls the client until it has nothing more to do, at most `most` times.
fn poll_tasks<C: TurnClientApi>(
    client: &mut C,
    now: Instant,
    most: u32,
    tasks: &mut Vec<Task>,
) -> Result<Rest, AllocError>
    requires now_in_range { now ≤ 2 ^ 62 }
    ensures ok { IfOk result (λ rest. driven tasks.new.items rest (C.state client.new)
        ≡ drive_steps most now (drive_state tasks.old.items (C.state client.old))) }
    ensures restful { IfOk result (λ rest. IsRestful rest now (C.state client.new)) }
    ensures no_memory { OnErr result (Draws most now (drive_state tasks.old.items (C.state client.old)) (drive_state tasks.new.items (C.state client.new))) }
{
    // No more than the caller says (our choice): a busy client holds up nothing else.
    for _ in 0..most {
        tasks.reserve(1)?;
        match next_task(client, now)? {
            Next::Do(task) => tasks.push(task)?,
            Next::Rest(rest) => {
                if rest != Rest::Now {
                    return Ok(rest);
                }
            }
        }
    }
    Ok(Rest::Now)
}

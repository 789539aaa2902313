//! One call on a client, given as a value.

ghost use Rattle.std.specs.Prelude.{◌≡◌, ◌≤◌, ◌^◌, IfOk, OnErr};
ghost use Rattle.turn_client_calls.specs.Run.{IsCallable, step};
ghost use Rattle.turn_client_calls.specs.Wanted.{FailsForMemory};

use crate::carries::{poll_recv, recv, send_to};
use crate::plain::plain_reply_to;
use crate::reads::{have_permission, permissions, relayed_addresses};
use crate::{Call, Reply};
use std::alloc::{AllocError, Global};
use turn_client_api::TurnClientApi;
use turn_stun::instant::Instant;

/// Makes this call on the client and returns its reply. A packet for a peer is built at once, and data
/// of a peer is copied.
///
/// # Errors
///
/// If memory allocation for the call fails, which needs it: the client is then as the call leaves it. Or
/// if memory allocation fails for a reply that is a copy of bytes or a list: the client is then in the
/// state after the call. A packet that `poll_transmit` returned is never lost so.
pub fn reply_to<C: TurnClientApi>(
    alloc: Global,
    client: &mut C,
    call: &Call,
) -> Result<Reply, AllocError>
    requires callable { IsCallable (C.state client.old).config.allocation_transport call.now }
    ensures ok { IfOk result (λ reply. (reply, C.state client.new) ≡ step (C.state client.old) call.now) }
    ensures no_memory { OnErr result (FailsForMemory call.now (C.state client.old) (C.state client.new)) }
{
    match call {
        Call::SendTo {
            transport,
            to,
            data,
            now,
        } => send_to(alloc, client, *transport, *to, data, *now),
        Call::Recv { transmit, now } => recv(alloc, client, transmit, *now),
        Call::PollRecv { now } => poll_recv(alloc, client, *now),
        Call::Poll { now } => poll(client, *now),
        Call::PollTransmit { now } => poll_transmit(client, *now),
        Call::PollEvent => Ok(Reply::Event(client.poll_event())),
        Call::RelayedAddresses => relayed_addresses(alloc, client),
        Call::Permissions { transport, relayed } => permissions(
            alloc, client, *transport, *relayed,
        ),
        Call::HavePermission { transport, to } => Ok(have_permission(client, *transport, *to)),
        _ => Ok(plain_reply_to(client, call)?),
    }
}

/// Handles expired timers and returns what to do next.
fn poll<C: TurnClientApi>(client: &mut C, now: Instant) -> Result<Reply, AllocError>
    requires { now ≤ 2 ^ 62 }
    ensures ok { IfOk result (λ reply. (reply, C.state client.new) ≡ step (C.state client.old) (Call.Poll now)) }
    ensures no_memory { OnErr result (FailsForMemory (Call.Poll now) (C.state client.old) (C.state client.new)) }
{
    Ok(Reply::Poll(client.poll(now)?))
}

/// Returns the next packet.
fn poll_transmit<C: TurnClientApi>(client: &mut C, now: Instant) -> Result<Reply, AllocError>
    requires { now ≤ 2 ^ 62 }
    ensures ok { IfOk result (λ reply. (reply, C.state client.new) ≡ step (C.state client.old) (Call.PollTransmit now)) }
    ensures no_memory { OnErr result (FailsForMemory (Call.PollTransmit now) (C.state client.old) (C.state client.new)) }
{
    Ok(Reply::Transmit(client.poll_transmit(now)?))
}

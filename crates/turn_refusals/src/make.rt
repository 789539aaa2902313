//! One call of a row.

ghost use Rattle.turn_stun.specs.declared.transport.TransportType.TheVariants.{Udp};
ghost use Rattle.turn_client_calls.specs.Run.{IsCallable};

use crate::carry::{poll_recv, recv, send_to};
use crate::list::{permissions, relayed_addresses};
use crate::signal::signal;
use std::alloc::{AllocError, Global};
use std::io::Write;
use turn_client_api::TurnClientApi;
use turn_client_calls::{Call, Reply, reply_to};

/// What came of a call.
#[derive(Drop)]
pub enum Made {
    /// This is its reply.
    Replied(Reply),
    /// Memory allocation failed and nothing changed, so that the call was made again. This is its reply.
    Again(Reply),
    /// Memory allocation failed, and the client has ended.
    Ended,
}

/// Makes this call on the client, and again if memory allocation fails and the call changes nothing then. Signals where
/// it begins and ends.
///
/// # Errors
///
/// If memory allocation for a copy of what the client returned fails, or if it fails again.
pub fn make<C: TurnClientApi, W: Write>(
    alloc: Global,
    client: &mut C,
    call: &Call,
    writer: &mut W,
) -> Result<Made, AllocError>
    requires { IsCallable Udp call.now }
{
    match reply_if_memory(alloc, client, call, writer)? {
        Some(reply) => Ok(Made::Replied(reply)),
        None => {
            if ends_client(call) {
                return Ok(Made::Ended);
            }
            Ok(Made::Again(ask(alloc, client, call)?))
        }
    }
}

/// Whether a client ends if memory allocation fails in this call.
fn ends_client(call: &Call) -> bool {
    matches!(
        call,
        Call::Recv { .. }
            | Call::PollRecv { .. }
            | Call::Poll { .. }
            | Call::PollTransmit { .. }
            | Call::ProtocolError
    )
}

/// The reply to this call, or `None` if a memory allocation of the client failed. What it returned is copied after the
/// call has ended.
///
/// # Errors
///
/// If memory allocation for a copy fails.
fn reply_if_memory<C: TurnClientApi, W: Write>(
    alloc: Global,
    client: &mut C,
    call: &Call,
    writer: &mut W,
) -> Result<Option<Reply>, AllocError>
    requires { IsCallable Udp call.now }
{
    match call {
        Call::Recv { transmit, now } => recv(alloc, client, transmit, *now, writer),
        Call::PollRecv { now } => poll_recv(alloc, client, *now, writer),
        Call::SendTo {
            transport,
            to,
            data,
            now,
        } => send_to(alloc, client, *transport, *to, data, *now, writer),
        Call::RelayedAddresses => {
            relayed_addresses(client, writer);
            Ok(Some(ask(alloc, client, call)?))
        }
        Call::Permissions { transport, relayed } => {
            permissions(client, *transport, *relayed, writer);
            Ok(Some(ask(alloc, client, call)?))
        }
        _ => Ok(ask_signalled(alloc, client, call, writer)),
    }
}

/// The reply to a call whose reply is what the client returned, or `None` if memory allocation failed.
fn ask_signalled<C: TurnClientApi, W: Write>(
    alloc: Global,
    client: &mut C,
    call: &Call,
    writer: &mut W,
) -> Option<Reply>
    requires { IsCallable Udp call.now }
{
    signal(writer);
    let reply = ask(alloc, client, call);
    signal(writer);
    reply.ok()
}

/// The reply of a client to this call, which any allocation can carry.
///
/// # Errors
///
/// If memory allocation fails.
fn ask<C: TurnClientApi>(alloc: Global, client: &mut C, call: &Call) -> Result<Reply, AllocError>
    requires { IsCallable Udp call.now }
{
    reply_to(alloc, client, call)
}

//! The calls that carry data from and to peers. What they return is copied, or built, after the call has ended.

ghost use Rattle.std.specs.Prelude.{◌≤◌, ◌^◌};
ghost use Rattle.turn_client_api.specs.Calls.{FitsDatagram};
ghost use Rattle.turn_stun.specs.declared.transport.TransportType.TheVariants.{Udp};

use crate::signal::signal;
use std::alloc::{AllocError, Global};
use std::io::Write;
use std::net::SocketAddr;
use turn_client_api::{DelayedMessageOrChannelSend, SendError, TransmitBuild, TurnClientApi};
use turn_client_calls::{Reply, drained, received};
use turn_stun::data::Data;
use turn_stun::instant::Instant;
use turn_stun::transport::{Transmit, TransportType};

/// Sends data to a peer.
///
/// # Errors
///
/// If memory allocation for the packet fails.
pub fn send_to<C: TurnClientApi, W: Write>(
    alloc: Global,
    client: &mut C,
    transport: TransportType,
    to: SocketAddr,
    payload: &Data,
    now: Instant,
    writer: &mut W,
) -> Result<Option<Reply>, AllocError>
    requires now_in_range { now ≤ 2 ^ 62 }
    requires short { FitsDatagram Udp payload.now }
{
    signal(writer);
    let sent = client.send_to(transport, to, payload.as_bytes(), now);
    signal(writer);
    built(alloc, sent)
}

/// What came of sending data to a peer. The packet is built now.
fn built(
    alloc: Global,
    sent: Result<Option<TransmitBuild<DelayedMessageOrChannelSend<&[u8]>>>, SendError>,
) -> Result<Option<Reply>, AllocError> {
    match sent {
        Ok(Some(packet)) => Ok(Some(Reply::SendTo(Ok(packet.build(alloc)?)))),
        Ok(None) => Ok(None),
        Err(refusal) => Ok(Some(Reply::SendTo(Err(refusal)))),
    }
}

/// Processes a received packet. `None` if a memory allocation of the client failed.
///
/// # Errors
///
/// If memory allocation for a copy of a peer's data fails.
pub fn recv<C: TurnClientApi, W: Write>(
    alloc: Global,
    client: &mut C,
    transmit: &Transmit<Data>,
    now: Instant,
    writer: &mut W,
) -> Result<Option<Reply>, AllocError>
    requires { now ≤ 2 ^ 62 }
{
    let bytes = transmit.payload.as_bytes();
    let packet = Transmit::new(bytes, transmit.transport, transmit.from, transmit.to);
    signal(writer);
    let answer = client.recv(packet, now);
    signal(writer);
    match answer {
        Ok(returned) => Ok(Some(received(alloc, returned)?)),
        Err(_) => Ok(None),
    }
}

/// Returns the next data of a peer. `None` if a memory allocation of the client failed.
///
/// # Errors
///
/// If memory allocation for a copy of the data fails.
pub fn poll_recv<C: TurnClientApi, W: Write>(
    alloc: Global,
    client: &mut C,
    now: Instant,
    writer: &mut W,
) -> Result<Option<Reply>, AllocError>
    requires { now ≤ 2 ^ 62 }
{
    signal(writer);
    let answer = client.poll_recv(now);
    signal(writer);
    match answer {
        Ok(returned) => Ok(Some(drained(alloc, returned)?)),
        Err(_) => Ok(None),
    }
}

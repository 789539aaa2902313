//! The calls of a client, each with what it writes to the answer.

ghost use Rattle.std.specs.Prelude.{◌≡◌, ◌≤◌, ◌^◌, ◌+◌, [], length, slice_get, OnOk, OnErr};
ghost use Rattle.turn_client_api.specs.Calls.{can_send_to, permissions_of, relayed_addresses_of, FitsDatagram};
ghost use Rattle.turn_client_calls.specs.Plain.{IsPlainCall};
ghost use Rattle.turn_client_calls.specs.Run.{IsCallable};
ghost use Rattle.turn_client_calls.specs.Wanted.{EndsForMemory};
ghost use Rattle.turn_c_calls.specs.Answer.{found_answer, of_kind, permission_answer, relayed_answer};
ghost use Rattle.turn_c_calls.specs.Arms.{Makes, MakesAside, MakesPlain, Stops};
ghost use Rattle.turn_c_calls.specs.Buffer.{Puts};
ghost use Rattle.turn_c_calls.specs.Request.{recv_call};

use crate::answer::Answer;
use crate::code::{BYTES, DONE, NO, NOTHING, YES};
use crate::give::{deliver, give, report, write};
use crate::unread::{Kept, Unread};
use std::alloc::{AllocError, Global};
use std::net::{IpAddr, SocketAddr};
use turn_client_api::{DeleteError, Socket5Tuple, TurnClientApi};
use turn_client_calls::{Call, Refusal, plain_reply_to};
use turn_stun::instant::Instant;
use turn_stun::transport::{Transmit, TransportType};

/// Makes a call whose reply has neither bytes nor a list.
pub fn plain<C: TurnClientApi>(
    client: &mut C,
    call: &Call,
    answer: &mut Answer,
) -> Result<(), AllocError>
    requires callable { IsCallable (C.state client.old).config.allocation_transport call.now }
    requires plain { IsPlainCall call.now }
    ensures ok { OnOk result (MakesPlain call.now 0 (C.state client.old) (C.state client.new) answer.old answer.new) }
    ensures err { OnErr result (EndsForMemory call.now (C.state client.old) (C.state client.new)) }
    ensures same { OnErr result (answer.new ≡ answer.old) }
{
    let reply = plain_reply_to(client, call)?;
    answer.set_reply(&reply);
    Ok(())
}

/// Deletes the allocations.
// Apart from the other plain calls, since it has no argument that could be invalid.
#[inline(always)]
pub fn delete<C: TurnClientApi>(
    client: &mut C,
    now: Instant,
    answer: &mut Answer,
) -> Result<(), AllocError>
    requires { now ≤ 2 ^ 62 }
    ensures ok { OnOk result (MakesPlain (Call.Delete now) 0 (C.state client.old) (C.state client.new) answer.old answer.new) }
    ensures err { OnErr result (EndsForMemory (Call.Delete now) (C.state client.old) (C.state client.new)) }
    ensures same { OnErr result (answer.new ≡ answer.old) }
{
    match client.delete(now) {
        Ok(()) => answer.kind = DONE,
        Err(DeleteError::OutOfMemory) => return Err(AllocError),
        Err(error) => answer.set_refusal(Refusal::from(error)),
    }
    Ok(())
}

/// Sends the data to a peer: the packet is written to the buffer.
#[inline(always)]
pub fn send_to<C: TurnClientApi>(
    client: &mut C,
    transport: TransportType,
    to: SocketAddr,
    bytes: &[u8],
    now: Instant,
    buffer: &mut [u8],
    answer: &mut Answer,
)
    requires time { now ≤ 2 ^ 62 }
    requires short { FitsDatagram (C.state client.old).config.allocation_transport bytes.now }
    requires fits { length bytes.now + 64 ≤ length buffer.old }
    ensures { MakesAside (Call.SendTo transport to bytes.now now) (C.state client.old) (C.state client.new) buffer.old buffer.new answer.old answer.new }
{
    match client.send_to(transport, to, bytes, now) {
        Ok(Some(packet)) => write(packet, buffer, answer),
        Ok(None) => unreachable!(),
        Err(error) => answer.set_refusal(Refusal::from(error)),
    }
}

/// Passes in the data that was received.
#[inline(always)]
pub fn recv<C: TurnClientApi>(
    alloc: Global,
    client: &mut C,
    tuple: Socket5Tuple,
    bytes: &[u8],
    now: Instant,
    unread: &mut Unread,
    buffer: &mut [u8],
    answer: &mut Answer,
) -> Result<(), AllocError>
    requires time { now ≤ 2 ^ 62 }
    requires none_left { unread.old ≡ [] }
    ensures ok { OnOk result (Makes (recv_call tuple bytes.now now) (C.state client.old) (C.state client.new)
        unread.old unread.new buffer.old buffer.new answer.old answer.new) }
    ensures err { OnErr result (Stops (recv_call tuple bytes.now now) (C.state client.old) (C.state client.new)
        unread.old unread.new buffer.old buffer.new) }
    ensures same { OnErr result (answer.new ≡ answer.old) }
{
    let packet = Transmit::new(bytes, tuple.transport, tuple.from, tuple.to);
    let outcome = client.recv(packet, now)?;
    report(alloc, outcome, unread, buffer, answer);
    Ok(())
}

/// Returns the next data of a peer that the streams hold.
pub fn poll_recv<C: TurnClientApi>(
    client: &mut C,
    now: Instant,
    unread: &mut Unread,
    buffer: &mut [u8],
    answer: &mut Answer,
) -> Result<(), AllocError>
    requires time { now ≤ 2 ^ 62 }
    requires none_left { unread.old ≡ [] }
    ensures ok { OnOk result (Makes (Call.PollRecv now) (C.state client.old) (C.state client.new)
        unread.old unread.new buffer.old buffer.new answer.old answer.new) }
    ensures err { OnErr result (Stops (Call.PollRecv now) (C.state client.old) (C.state client.new)
        unread.old unread.new buffer.old buffer.new) }
    ensures same { OnErr result (answer.new ≡ answer.old) }
{
    match client.poll_recv(now)? {
        None => answer.kind = NOTHING,
        Some(given) => deliver(given, unread, buffer, answer),
    }
    Ok(())
}

/// Returns what to do next.
pub fn poll<C: TurnClientApi>(
    client: &mut C,
    now: Instant,
    answer: &mut Answer,
) -> Result<(), AllocError>
    requires { now ≤ 2 ^ 62 }
    ensures ok { OnOk result (MakesPlain (Call.Poll now) 0 (C.state client.old) (C.state client.new) answer.old answer.new) }
    ensures err { OnErr result (EndsForMemory (Call.Poll now) (C.state client.old) (C.state client.new)) }
    ensures same { OnErr result (answer.new ≡ answer.old) }
{
    let returned = client.poll(now)?;
    answer.set_poll(&returned);
    Ok(())
}

/// Returns the next packet.
pub fn poll_transmit<C: TurnClientApi>(
    client: &mut C,
    now: Instant,
    unread: &mut Unread,
    buffer: &mut [u8],
    answer: &mut Answer,
) -> Result<(), AllocError>
    requires time { now ≤ 2 ^ 62 }
    requires none_left { unread.old ≡ [] }
    ensures ok { OnOk result (Makes (Call.PollTransmit now) (C.state client.old) (C.state client.new)
        unread.old unread.new buffer.old buffer.new answer.old answer.new) }
    ensures err { OnErr result (Stops (Call.PollTransmit now) (C.state client.old) (C.state client.new)
        unread.old unread.new buffer.old buffer.new) }
    ensures same { OnErr result (answer.new ≡ answer.old) }
{
    match client.poll_transmit(now)? {
        None => answer.kind = NOTHING,
        Some(packet) => {
            answer.set_packet(packet.transport, &packet.from, &packet.to);
            give(Kept::Packet(packet.payload), unread, buffer, answer);
        }
    }
    Ok(())
}

/// Returns the next event.
pub fn poll_event<C: TurnClientApi>(client: &mut C, answer: &mut Answer)
    ensures { MakesPlain Call.PollEvent 0 (C.state client.old) (C.state client.new) answer.old answer.new }
{
    match client.poll_event() {
        None => answer.kind = NOTHING,
        Some(event) => answer.set_event(&event),
    }
}

/// The relayed address at this index.
pub fn relayed_addresses<C: TurnClientApi>(client: &C, index: u32, answer: &mut Answer)
    ensures { answer.new ≡ relayed_answer (slice_get (relayed_addresses_of (C.state client.now)) index) answer.old }
{
    answer.set_relayed(client.relayed_addresses().nth(index as usize));
}

/// The address at this index of those that have a permission in the allocation with this relayed address.
pub fn permissions<C: TurnClientApi>(
    client: &C,
    transport: TransportType,
    relayed: SocketAddr,
    index: u32,
    answer: &mut Answer,
)
    ensures { answer.new ≡ permission_answer (slice_get (permissions_of transport relayed (C.state client.now)) index) answer.old }
{
    answer.set_permission(client.permissions(transport, relayed).nth(index as usize));
}

/// Whether there is a permission.
pub fn have_permission<C: TurnClientApi>(
    client: &C,
    transport: TransportType,
    to: IpAddr,
    answer: &mut Answer,
)
    ensures { answer.new ≡ found_answer (can_send_to transport to (C.state client.now)) answer.old }
{
    let found = client.have_permission(transport, to);
    answer.kind = if found { YES } else { NO };
}

/// Reads the next bytes.
#[inline(always)]
pub fn read(unread: &mut Unread, buffer: &mut [u8], answer: &mut Answer)
    ensures { Puts unread.old [] (of_kind BYTES answer.old) buffer.old buffer.new unread.new answer.new }
{
    answer.kind = BYTES;
    answer.len = unread.read(buffer);
    answer.left = unread.len();
}

//! The head of a packet that carries data to a peer, for a caller that sends the data from where it lies.

ghost use Rattle.std.specs.Prelude.{◌≡◌, ◌≤◌, ◌<◌, ◌+◌, ◌^◌, ◌==◌, length, nat_lt, true, false, IfErr, OnOk};
ghost use Rattle.turn_stun.specs.declared.transport.TransportType.TheVariants.{Udp};
ghost use Rattle.turn_c_calls.specs.Head.{HeadMade, HeadRequestEnds, HeadRequestLacks, head_of, number_set, padding_of};
ghost use Rattle.turn_c_calls.specs.Request.{peer_of};

use crate::answer::Answer;
use crate::fault::Fault;
use crate::request::{Request, peer_of, time_of};
use std::net::SocketAddr;
use turn_client_api::TurnClientApi;
use turn_client_calls::Refusal;
use turn_stun::instant::Instant;
use turn_stun::transport::TransportType;
use turn_types::transmit::DelayedTransmitBuild;

/// The most bytes that are sent to a peer if the allocation is over UDP.
const MAX_PAYLOAD: usize = 65_504;

/// The least length of a buffer for a head.
const HEAD_ROOM: usize = 64;

/// Sends data of this length to a peer, for a client whose allocation is over `relays`: of the packet, what precedes the data
/// is written to the buffer, and the answer says how many zeros follow the data.
///
/// # Errors
///
/// The first of these: `Time`, `Call`, `Payload`, `Buffer`. Nothing has changed then.
pub fn send_head<C: TurnClientApi>(
    client: &mut C,
    relays: TransportType,
    request: &Request,
    len: usize,
    buffer: &mut [u8],
    answer: &mut Answer,
) -> Result<(), Fault>
    requires { (C.state client.old).config.allocation_transport ≡ relays }
    ensures ok { OnOk result (HeadRequestEnds request.now len (C.state client.old) (C.state client.new)
        buffer.old buffer.new answer.old answer.new) }
    ensures err { IfErr result (λ fault. HeadRequestLacks request.now fault len (C.state client.old) (C.state client.new)
        buffer.old buffer.new answer.old answer.new) }
{
    // Compiled for each family apart, as `send_to` of a whole packet. The two calls differ, so that the compiler does not make one
    // of them.
    match peer_of(request) {
        Some((transport, SocketAddr::V4(to))) => {
            let peer = Some((transport, SocketAddr::V4(to)));
            head_to_peer(client, relays, request, peer, len, buffer, answer)
        }
        peer => head_to_peer(client, relays, request, peer, len, buffer, answer),
    }
}

/// As [`send_head`], to the peer that was read, compiled into each of its cases.
#[inline(always)]
fn head_to_peer<C: TurnClientApi>(
    client: &mut C,
    relays: TransportType,
    request: &Request,
    peer: Option<(TransportType, SocketAddr)>,
    len: usize,
    buffer: &mut [u8],
    answer: &mut Answer,
) -> Result<(), Fault>
    requires relays { (C.state client.old).config.allocation_transport ≡ relays }
    requires peer { peer ≡ peer_of request.now }
    ensures ok { OnOk result (HeadRequestEnds request.now len (C.state client.old) (C.state client.new)
        buffer.old buffer.new answer.old answer.new) }
    ensures err { IfErr result (λ fault. HeadRequestLacks request.now fault len (C.state client.old) (C.state client.new)
        buffer.old buffer.new answer.old answer.new) }
{
    let now = time_of(request.time).ok_or(Fault::Time)?;
    if request.reserved != 0 {
        return Err(Fault::Call);
    }
    let (transport, to) = peer.ok_or(Fault::Call)?;
    if relays == TransportType::Udp && len > MAX_PAYLOAD {
        return Err(Fault::Payload);
    }
    if buffer.len() < HEAD_ROOM {
        return Err(Fault::Buffer);
    }
    make_head(client, transport, to, len, now, buffer, answer);
    Ok(())
}

/// Sends data of this length to a peer: the head is written to the buffer.
#[inline(always)]
fn make_head<C: TurnClientApi>(
    client: &mut C,
    transport: TransportType,
    to: SocketAddr,
    len: usize,
    now: Instant,
    buffer: &mut [u8],
    answer: &mut Answer,
)
    requires time { now ≤ 2 ^ 62 }
    requires short { (C.state client.old).config.allocation_transport ≡ Udp → len ≤ 65504 }
    requires fits { 64 ≤ length buffer.old }
    ensures { HeadMade transport to now len (C.state client.old) (C.state client.new) buffer.old buffer.new answer.old answer.new }
{
    let none: &[u8] = &[];
    match client.send_to(transport, to, none, now) {
        Ok(Some(packet)) => {
            answer.set_packet(packet.transport, &packet.from, &packet.to);
            let head_len = packet.payload.len();
            let (head, _) = buffer.split_at_mut(head_len);
            packet.write_into(head);
            answer.start = set_lengths(head, len);
            answer.len = head_len;
            answer.left = 0;
        }
        Ok(None) => unreachable!(),
        Err(error) => answer.set_refusal(Refusal::from(error)),
    }
}

/// Makes a head of the packet for no data: the packet has lengths that count the data, at its end and in the header of a Send
/// indication, and these become those of so many bytes. Returns how many zeros follow the data.
fn set_lengths(packet: &mut [u8], len: usize) -> usize
    requires frame { (length packet.old == 0) ≡ false → 4 ≤ length packet.old }
    requires message { nat_lt 4 (length packet.old) ≡ true → 20 ≤ length packet.old }
    requires most { length packet.old ≤ 48 }
    requires short { (length packet.old == 0) ≡ false → len ≤ 65504 }
    ensures head { packet.new ≡ head_of len packet.old }
    ensures padding { result ≡ padding_of len packet.old }
{
    let end = packet.len();
    if end == 0 {
        return 0;
    }
    let padded = (len + 3) / 4 * 4;
    if end > 4 {
        set_number(packet, 2, end - 20 + padded);
    }
    set_number(packet, end - 2, len);
    padded - len
}

/// Writes a number of two bytes to this place.
fn set_number(packet: &mut [u8], at: usize, number: usize)
    requires inside { at + 2 ≤ length packet.old }
    requires short { number < 2 ^ 16 }
    ensures { packet.new ≡ number_set at number packet.old }
{
    let (_, behind) = packet.split_at_mut(at);
    let (place, _) = behind.split_at_mut(2);
    place.copy_from_slice(&(number as u16).to_be_bytes());
}

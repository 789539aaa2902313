//! Bytes that are returned to the caller.

ghost use Rattle.std.specs.Prelude.{◌≡◌, ◌≤◌, ℕ, List, [], length};
ghost use Rattle.turn_client_api.specs.Answers.{outcome_of};
ghost use Rattle.turn_client_api.specs.PeerBytes.{payload_of};
ghost use Rattle.turn_c_calls.specs.Answer.{data_answer, packet_answer};
ghost use Rattle.turn_c_calls.specs.Arms.{Reports};
ghost use Rattle.turn_c_calls.specs.Buffer.{Puts};
ghost use Rattle.turn_c_calls.specs.Unread.{kept_bytes};

use crate::answer::Answer;
use crate::code::{HANDLED, IGNORED};
use crate::unread::{Kept, Unread};
use std::alloc::Global;
use std::convert::AsSlice;
use turn_client_api::{TransmitBuild, TurnPeerData, TurnRecvRet};
use turn_types::transmit::DelayedTransmitBuild;

/// Answers what became of an input. Allocates no memory.
#[inline(always)]
pub fn report<T: AsSlice<u8> + Drop>(
    alloc: Global,
    outcome: TurnRecvRet<T>,
    unread: &mut Unread,
    buffer: &mut [u8],
    answer: &mut Answer,
)
    requires { unread.old ≡ [] }
    ensures { Reports (outcome_of outcome) unread.old buffer.old buffer.new unread.new answer.old answer.new }
{
    match outcome {
        TurnRecvRet::Handled => answer.kind = HANDLED,
        TurnRecvRet::Ignored(_) => answer.kind = IGNORED,
        TurnRecvRet::PeerData(given) => match given.place() {
            Some(place) => {
                let len = given.data().len();
                answer.set_peer_data_range(given.transport, &given.peer, place.start, len);
            }
            // Bytes that lie nowhere in the input are owned, and so are not copied.
            None => match given.into_owned(alloc) {
                Ok(owned) => deliver(owned, unread, buffer, answer),
                Err(_) => unreachable!(),
            },
        },
        TurnRecvRet::PeerIcmp {
            transport,
            peer,
            icmp_type,
            icmp_code,
            icmp_data,
        } => answer.set_peer_icmp(transport, &peer, icmp_type, icmp_code, icmp_data),
    }
}

/// Returns data of a peer: what fits into the buffer there, and the rest to be read. Allocates no memory.
pub fn deliver(
    given: TurnPeerData<Vec<u8>>,
    unread: &mut Unread,
    buffer: &mut [u8],
    answer: &mut Answer,
)
    requires { unread.old ≡ [] }
    ensures { Puts (payload_of given) unread.old (data_answer given.transport given.peer answer.old) buffer.old buffer.new unread.new answer.new }
{
    answer.set_peer_data(given.transport, &given.peer);
    give(Kept::Given(given), unread, buffer, answer);
}

/// Returns bytes: what fits into the buffer there, and the rest to be read.
pub fn give(kept: Kept, unread: &mut Unread, buffer: &mut [u8], answer: &mut Answer)
    requires { unread.old ≡ [] }
    ensures { Puts (kept_bytes kept) unread.old answer.old buffer.old buffer.new unread.new answer.new }
{
    answer.len = unread.keep(kept, buffer);
    answer.left = unread.len();
}

/// Writes a packet to the buffer, which is large enough.
#[inline(always)]
pub fn write<T: DelayedTransmitBuild>(
    packet: TransmitBuild<T>,
    buffer: &mut [u8],
    answer: &mut Answer,
)
    requires { length (T.bytes packet.payload) ≤ length buffer.old }
    ensures { (u : List ℕ) → Puts (T.bytes packet.payload) u (packet_answer packet.transport packet.from packet.to answer.old)
        buffer.old buffer.new u answer.new }
{
    answer.set_packet(packet.transport, &packet.from, &packet.to);
    let len = packet.payload.len();
    let (front, _) = buffer.split_at_mut(len);
    packet.write_into(front);
    answer.len = len;
    answer.left = 0;
}

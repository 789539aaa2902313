//! Data of a peer that came over a channel, answered from where it lies: most of what a client receives is that.

ghost use Rattle.std.specs.Prelude.{◌≡◌, ℕ, List, nat_le, Some, true, false, IfErr, OnOk};
ghost use Rattle.turn_stun.specs.Number.{u16_at};
ghost use Rattle.turn_c_calls.specs.Arms.{Makes, RequestEnds, RequestLacks, RequestShows};
ghost use Rattle.turn_c_calls.specs.Request.{kind_of, recv_call};
ghost use Rattle.turn_c_calls.specs.declared.request.Kind.TheVariants as Kind;

use crate::answer::Answer;
use crate::code::{IGNORED, IPV4};
use crate::fault::Fault;
use crate::handle::recv;
use crate::request::{Kind, Request, c_tuple, kind_in, time_of};
use crate::unread::Unread;
use std::alloc::Global;
use turn_client_api::Socket5Tuple;
use turn_client_proto::udp::TurnClientUdp;
use turn_stun::transport::TransportType;
use turn_types::channel::ChannelData;

/// As [`recv`], for a client over UDP: a ChannelData message is answered first.
#[inline(always)]
pub fn recv_udp(
    alloc: Global,
    client: &mut TurnClientUdp,
    request: &Request,
    bytes: &[u8],
    unread: &mut Unread,
    buffer: &mut [u8],
    answer: &mut Answer,
) -> Result<(), Fault>
    requires { kind_of request.now.kind ≡ Some Kind.Recv }
    ensures ok { OnOk result (RequestEnds request.now bytes.now client.old client.new
        unread.old unread.new buffer.old buffer.new answer.old answer.new) }
    ensures err { IfErr result (λ fault. RequestLacks request.now fault bytes.now client.old client.new
        unread.old unread.new buffer.old buffer.new answer.old answer.new) }
{
    if begins_frame(bytes) {
        let is_answered = answer_channel_data(client, request, bytes, unread, answer);
        if is_answered {
            return Ok(());
        }
    }
    recv(alloc, client, request, bytes, unread, buffer, answer)
}

/// Whether the bytes may begin with a ChannelData message. A STUN message begins with two bits 0 (RFC 8656, section 12).
#[inline(always)]
fn begins_frame(bytes: &[u8]) -> bool
    ensures { result ≡ nat_le 0x4000 (u16_at bytes.now 0) }
{
    match bytes.first() {
        Some(first) => *first >= 0x40,
        None => false,
    }
}

/// Answers a `recv` of a ChannelData message, and returns whether it was that. Nothing has changed otherwise.
#[inline(always)]
fn answer_channel_data(
    client: &TurnClientUdp,
    request: &Request,
    bytes: &[u8],
    unread: &Unread,
    answer: &mut Answer,
) -> bool
    ensures made { result ≡ true → RequestShows request.now bytes.now client.now unread.now answer.old answer.new }
    ensures same { result ≡ false → answer.new ≡ answer.old }
{
    // Compiled for addresses of IPv4 apart, as `send_to` of a packet.
    let is_ipv4 = request.from.family == IPV4 && request.to.family == IPV4;
    if is_ipv4 {
        answer_between(client, request, bytes, unread, answer)
    } else {
        answer_between(client, request, bytes, unread, answer)
    }
}

/// As [`answer_channel_data`], compiled into each of its cases.
#[inline(always)]
fn answer_between(
    client: &TurnClientUdp,
    request: &Request,
    bytes: &[u8],
    unread: &Unread,
    answer: &mut Answer,
) -> bool
    ensures made { result ≡ true → RequestShows request.now bytes.now client.now unread.now answer.old answer.new }
    ensures same { result ≡ false → answer.new ≡ answer.old }
{
    let Some(_now) = time_of(request.time) else {
        return false;
    };
    let Some(Kind::Recv) = kind_in(request) else {
        return false;
    };
    let Some(tuple) = c_tuple(request) else {
        return false;
    };
    if unread.is_left() {
        return false;
    }
    recv_channel_data(client, &tuple, bytes, answer)
}

/// Passes in a ChannelData message, and returns whether it was one. Nothing has changed otherwise.
#[inline(always)]
fn recv_channel_data(
    client: &TurnClientUdp,
    tuple: &Socket5Tuple,
    bytes: &[u8],
    answer: &mut Answer,
) -> bool
    ensures made { result ≡ true → (now : ℕ) (unread buffer : List ℕ) → Makes (recv_call tuple.now bytes.now now)
        client.now client.now unread unread buffer buffer answer.old answer.new }
    ensures same { result ≡ false → answer.new ≡ answer.old }
{
    match client.channel_data(tuple.transport, &tuple.from, &tuple.to, bytes) {
        Some((transport, peer, place)) => {
            let len = place.end - place.start;
            answer.set_channel_data(transport, &peer, place.start, len);
            true
        }
        // A ChannelData message of which none is returned is ignored.
        None => match ChannelData::parse(bytes) {
            Ok(_) => {
                answer.kind = IGNORED;
                true
            }
            Err(_) => false,
        },
    }
}

//! Packets, as they are built and as they are written, are read again as what they were made of.

use crate::fixture::same;
use crate::types::first_id;
use std::alloc::Global;
use std::net::{Ipv4Addr, Ipv6Addr, SocketAddr, SocketAddrV4, SocketAddrV6};
use std::process::Abort;
use turn_stun::message::Message;
use turn_stun::message::header::{MessageClass, MessageType};
use turn_types::attribute::{Data, XorPeerAddress};
use turn_types::channel::ChannelData;
use turn_types::message::SEND;
use turn_types::prelude::DelayedTransmitBuild;
use turn_types::transmit::{DelayedChannel, DelayedMessage};

const SEND_INDICATION: MessageType = MessageType {
    method: SEND,
    class: MessageClass::Indication,
};

/// Payloads with each number of bytes of padding, and the empty one.
static PAYLOADS: [&[u8]; 6] = [b"", b"a", b"ab", b"abc", b"abcd", b"hello"];

/// 10.0.0.3:9000.
fn ipv4() -> SocketAddr {
    SocketAddr::V4(SocketAddrV4::new(Ipv4Addr::new(10, 0, 0, 3), 9000))
}

/// [2001:db8::3]:9000.
fn ipv6() -> SocketAddr {
    let ip = Ipv6Addr::new(0x2001, 0xdb8, 0, 0, 0, 0, 0, 3);
    SocketAddr::V6(SocketAddrV6::new(ip, 9000, 0, 0))
}

/// The packet as it is built.
fn built(rt: &impl Abort, alloc: Global, packet: impl DelayedTransmitBuild) -> Vec<u8> {
    packet.build(alloc).expect(rt, "memory")
}

/// The packet as it is written.
fn written(rt: &impl Abort, alloc: Global, packet: impl DelayedTransmitBuild) -> Vec<u8> {
    let mut place = vec![in alloc; 0xaa; packet.len()].expect(rt, "memory");
    assert!(rt; packet.len() == place.len());
    same(rt, packet.write_into(place.as_mut_slice()), place.len());
    place
}

/// These bytes are a Send indication to this peer, with this payload.
fn is_message(rt: &impl Abort, bytes: &[u8], peer: SocketAddr, payload: &[u8]) {
    let message = Message::from_bytes(bytes).expect(rt, "a message");
    let found = (message.message_type(), message.transaction_id());
    same(rt, found, (SEND_INDICATION, first_id()));
    let found = message.attribute::<XorPeerAddress>().expect(rt, "a peer");
    same(rt, found.addr(), peer);
    let found = message.attribute::<Data>().expect(rt, "data");
    same(rt, found.data(), payload);
}

/// Builds and writes a Send indication to this peer, with this payload.
fn sends(rt: &impl Abort, alloc: Global, peer: SocketAddr, payload: &[u8]) {
    assert!(rt; payload.len() <= 65504);
    let message = DelayedMessage::for_server(peer, payload, first_id());
    is_message(rt, built(rt, alloc, message).as_slice(), peer, payload);
    let message = DelayedMessage::for_server(peer, payload, first_id());
    is_message(rt, written(rt, alloc, message).as_slice(), peer, payload);
}

#[test]
fn messages_to_both_families(rt: HostRuntime) {
    for payload in &PAYLOADS {
        sends(&rt, rt.alloc(), ipv4(), *payload);
        sends(&rt, rt.alloc(), ipv6(), *payload);
    }
}

/// These bytes are a ChannelData message of this channel, with this payload.
fn is_frame(rt: &impl Abort, bytes: &[u8], number: u16, payload: &[u8]) {
    let frame = ChannelData::parse(bytes).expect(rt, "a frame");
    same(rt, (frame.id(), frame.data()), (number, payload));
}

/// Builds and writes a ChannelData message of this channel, with this payload.
fn goes_over(rt: &impl Abort, alloc: Global, number: u16, payload: &[u8]) {
    assert!(rt; (0x4000..0x8000).contains(&number) && payload.len() < 0x1_0000);
    let frame = DelayedChannel::new(number, payload);
    is_frame(rt, built(rt, alloc, frame).as_slice(), number, payload);
    let frame = DelayedChannel::new(number, payload);
    is_frame(rt, written(rt, alloc, frame).as_slice(), number, payload);
}

#[test]
fn frames_of_the_first_and_the_last_channel(rt: HostRuntime) {
    for payload in &PAYLOADS {
        goes_over(&rt, rt.alloc(), 0x4000, *payload);
        goes_over(&rt, rt.alloc(), 0x4fff, *payload);
    }
}

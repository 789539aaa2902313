//! ChannelData messages, Send indications, and packets that are built late.

use crate::fixture::same;
use crate::types::first_id;
use std::alloc::Global;
use std::net::{Ipv4Addr, Ipv6Addr, SocketAddr, SocketAddrV4, SocketAddrV6};
use std::process::Abort;
use turn_stun::message::Message;
use turn_types::TransportType;
use turn_types::attribute::{Data, XorPeerAddress};
use turn_types::channel::ChannelData;
use turn_types::error::ChannelParseError;
use turn_types::message::SEND;
use turn_types::prelude::DelayedTransmitBuild;
use turn_types::transmit::{DelayedChannel, DelayedMessage, TransmitBuild};

/// Five bytes to 127.0.0.1:1, under the first ID.
static TO_LOCALHOST: [u8; 44] = [
    0x00, 0x16, 0x00, 0x18, 0x21, 0x12, 0xa4, 0x42, 0x76, 0xb8, 0xe0, 0xad, 0xa0, 0xf1, 0x3d, 0x90,
    0x40, 0x5d, 0x6a, 0xe5, 0x00, 0x12, 0x00, 0x08, 0x00, 0x01, 0x21, 0x13, 0x5e, 0x12, 0xa4, 0x43,
    0x00, 0x13, 0x00, 0x05, 0x05, 0x05, 0x05, 0x05, 0x05, 0x00, 0x00, 0x00,
];

/// No bytes to [::1]:9000, under the first ID.
static NOTHING_TO_IPV6: [u8; 48] = [
    0x00, 0x16, 0x00, 0x1c, 0x21, 0x12, 0xa4, 0x42, 0x76, 0xb8, 0xe0, 0xad, 0xa0, 0xf1, 0x3d, 0x90,
    0x40, 0x5d, 0x6a, 0xe5, 0x00, 0x12, 0x00, 0x14, 0x00, 0x02, 0x02, 0x3a, 0x21, 0x12, 0xa4, 0x42,
    0x76, 0xb8, 0xe0, 0xad, 0xa0, 0xf1, 0x3d, 0x90, 0x40, 0x5d, 0x6a, 0xe4, 0x00, 0x13, 0x00, 0x00,
];

fn localhost() -> SocketAddr {
    SocketAddr::V4(SocketAddrV4::new(Ipv4Addr::new(127, 0, 0, 1), 1))
}

fn ipv6() -> SocketAddr {
    let ip = Ipv6Addr::new(0, 0, 0, 0, 0, 0, 0, 1);
    SocketAddr::V6(SocketAddrV6::new(ip, 9000, 0, 0))
}

static REFUSED: [(&[u8], ChannelParseError); 7] = [
    (&[0x40, 0x00], ChannelParseError::Short),
    (&[0x00], ChannelParseError::Short),
    (&[0x00, 0x03, 0x00, 0x04], ChannelParseError::NotChannel),
    (&[0x3f, 0xff, 0x00, 0x00], ChannelParseError::NotChannel),
    (&[0x80, 0x00, 0x00, 0x09], ChannelParseError::NotChannel),
    (
        &[0x40, 0x00, 0x00, 0x05, 0x68, 0x65, 0x6c],
        ChannelParseError::Length,
    ),
    (&[0x7f, 0xff, 0xff, 0xff], ChannelParseError::Length),
];

#[test]
fn frames_are_refused(rt: HostRuntime) {
    for (bytes, want) in &REFUSED {
        same(&rt, ChannelData::parse(*bytes).err(), Some(*want));
    }
}

static ACCEPTED: [(&[u8], u16, &[u8]); 4] = [
    (&[0x40, 0x00, 0x00, 0x03, 0x61, 0x62, 0x63], 0x4000, b"abc"),
    (&[0x40, 0x00, 0x00, 0x00, 0xff], 0x4000, b""),
    (
        &[0x7f, 0xff, 0x00, 0x01, 0x61, 0x00, 0x00, 0x00],
        0x7fff,
        b"a",
    ),
    (&[0x50, 0x00, 0x00, 0x00], 0x5000, b""),
];

#[test]
fn frames_are_parsed(rt: HostRuntime) {
    for (bytes, id, want) in &ACCEPTED {
        let frame = ChannelData::parse(*bytes).expect(&rt, "a frame");
        same(&rt, (frame.id(), frame.data()), (*id, *want));
    }
}

/// The number of a channel, its data, and the ChannelData message.
static FRAMES: [(u16, &[u8], &[u8]); 3] = [
    (0x4567, &[5; 5], &[0x45, 0x67, 0, 5, 5, 5, 5, 5, 5, 0, 0, 0]),
    (0x4000, b"abcd", &[0x40, 0, 0, 4, 0x61, 0x62, 0x63, 0x64]),
    (0x4000, b"", &[0x40, 0, 0, 0]),
];

/// A ChannelData message of this channel.
fn frame<'a>(rt: &impl Abort, id: u16, payload: &'a [u8]) -> DelayedChannel<&'a [u8]> {
    assert!(rt; (0x4000..0x8000).contains(&id) && payload.len() < 0x1_0000);
    DelayedChannel::new(id, payload)
}

/// The packet is built as these bytes.
fn is_built(rt: &impl Abort, alloc: Global, packet: impl DelayedTransmitBuild, want: &[u8]) {
    same(rt, (packet.len(), packet.is_empty()), (want.len(), false));
    let built = packet.build(alloc).expect(rt, "memory");
    same(rt, built.as_slice(), want);
}

/// The packet is written as these bytes.
fn is_written(rt: &impl Abort, alloc: Global, packet: impl DelayedTransmitBuild, want: &[u8]) {
    let mut place = vec![in alloc; 0xaa; want.len()].expect(rt, "memory");
    assert!(rt; packet.len() == place.len());
    same(rt, packet.write_into(place.as_mut_slice()), want.len());
    same(rt, place.as_slice(), want);
}

#[test]
fn frames_are_written(rt: HostRuntime) {
    for (id, payload, want) in &FRAMES {
        is_built(&rt, rt.alloc(), frame(&rt, *id, *payload), *want);
        is_written(&rt, rt.alloc(), frame(&rt, *id, *payload), *want);
    }
}

#[test]
fn messages_are_built(rt: HostRuntime) {
    let message = DelayedMessage::for_server(localhost(), [5; 5], first_id());
    is_built(&rt, rt.alloc(), message, &TO_LOCALHOST);
}

#[test]
fn messages_are_written(rt: HostRuntime) {
    let message = DelayedMessage::for_server(ipv6(), b"".as_slice(), first_id());
    is_written(&rt, rt.alloc(), message, &NOTHING_TO_IPV6);
}

// Without data it is all of the message.
#[test]
fn a_head_to_ipv6_has_48_bytes(rt: HostRuntime) {
    let message = DelayedMessage::for_server(ipv6(), b"".as_slice(), first_id());
    let mut place = [0xaa; 48];
    assert!(rt; message.head_len() == place.len());
    message.write_head(&mut place);
    same(&rt, place, NOTHING_TO_IPV6);
    same(&rt, message.padding_len(), 0);
}

#[test]
fn messages_are_read_again(rt: HostRuntime) {
    let parsed = Message::from_bytes(&TO_LOCALHOST).expect(&rt, "a message");
    same(&rt, parsed.has_method(SEND), true);
    let peer = parsed.attribute::<XorPeerAddress>().expect(&rt, "a peer");
    same(&rt, peer.addr(), localhost());
    let data = parsed.attribute::<Data>().expect(&rt, "data");
    same(&rt, data.data(), [5; 5].as_slice());
}

/// The message with the largest payload.
fn largest(rt: &impl Abort, alloc: Global) -> Vec<u8> {
    let payload = vec![in alloc; 5; 65504].expect(rt, "memory");
    assert!(rt; payload.len() <= 65504);
    DelayedMessage::for_server(ipv6(), payload.as_slice(), first_id())
        .build(alloc)
        .expect(rt, "memory")
}

#[test]
fn the_largest_payload_fills_a_message(rt: HostRuntime) {
    let built = largest(&rt, rt.alloc());
    same(&rt, built.len(), 65552);
    same(
        &rt,
        built.get(..4),
        Some([0x00, 0x16, 0xff, 0xfc].as_slice()),
    );
}

#[test]
fn a_built_packet_keeps_its_way(rt: HostRuntime) {
    let packet = TransmitBuild::new(
        frame(&rt, 0x4000, b"abcd"),
        TransportType::Udp,
        localhost(),
        ipv6(),
    );
    let sent = packet.build(rt.alloc()).expect(&rt, "memory");
    let bytes = [0x40, 0, 0, 4, 0x61, 0x62, 0x63, 0x64];
    same(&rt, sent.payload.as_bytes(), bytes.as_slice());
    same(
        &rt,
        (sent.transport, sent.from, sent.to),
        (TransportType::Udp, localhost(), ipv6()),
    );
}

#[test]
fn a_packet_is_written_in_place(rt: HostRuntime) {
    let frame = DelayedChannel::new(0x4000, b"".as_slice());
    let packet = TransmitBuild::new(frame, TransportType::Tcp, localhost(), ipv6());
    let mut place = [0xaa; 4];
    assert!(rt; packet.payload.len() == place.len());
    same(&rt, packet.write_into(&mut place), 4);
    same(&rt, place, [0x40, 0, 0, 0]);
}

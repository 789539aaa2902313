//! Times, transaction IDs and packets.

use crate::fixture::{FIRST_ID, same, same_bytes};
use std::alloc::Global;
use std::net::SocketAddr;
use std::process::Abort;
use std::time::Duration;
use turn_stun::data::Data;
use turn_stun::instant::Instant;
use turn_stun::transaction::TransactionId;
use turn_stun::transport::{Transmit, TransportType};

#[test]
fn times_stop_at_the_greatest(rt: HostRuntime) {
    let greatest = Instant::from_nanos(u64::MAX);
    same(&rt, greatest.as_nanos(), 9_223_372_036_854_775_807);
    same(&rt, greatest.plus(Duration::from_nanos(1)), greatest);
    let later = Instant::ZERO.plus(Duration::from_secs(2));
    same(&rt, later.as_nanos(), 2_000_000_000);
}

#[test]
fn differences_stop_at_zero(rt: HostRuntime) {
    let earlier = Instant::from_nanos(3);
    let later = Instant::from_nanos(5);
    same(&rt, later.since(earlier), Duration::from_nanos(2));
    same(&rt, earlier.since(later), Duration::ZERO);
}

/// An ID and the one after it.
const SUCCESSORS: &[([u8; 12], [u8; 12])] = &[
    (
        FIRST_ID,
        *b"\x76\xb8\xe0\xad\xa0\xf1\x3d\x90\x40\x5d\x6a\xe6",
    ),
    ([0xff; 12], [0; 12]),
    (
        *b"\x00\x00\x00\x00\xff\xff\xff\xff\xff\xff\xff\xff",
        *b"\x00\x00\x00\x01\x00\x00\x00\x00\x00\x00\x00\x00",
    ),
];

#[test]
fn the_successor_carries(rt: HostRuntime) {
    for (bytes, next) in SUCCESSORS {
        let id = TransactionId::from_bytes(*bytes);
        same(&rt, id.to_bytes(), *bytes);
        same(&rt, id.successor().to_bytes(), *next);
    }
}

/// The packet with its bytes in a `Data`.
fn packet(rt: &impl Abort, alloc: Global, from: SocketAddr, to: SocketAddr) -> Transmit<Data> {
    let bytes = b"hello".to_vec(alloc).expect(rt, "memory");
    Transmit::new(bytes, TransportType::Tcp, from, to).reinterpret_data(Data::from)
}

fn address(rt: &impl Abort, text: &str) -> SocketAddr {
    text.parse().expect(rt, "an address")
}

#[test]
fn packets_keep_their_way(rt: HostRuntime) {
    let from = address(&rt, "192.168.0.1:1000");
    let to = address(&rt, "10.0.0.2:2000");
    let packet = packet(&rt, rt.alloc(), from, to);
    same_bytes(&rt, packet.payload.as_bytes(), b"hello");
    let way = (packet.transport, packet.from, packet.to);
    same(&rt, way, (TransportType::Tcp, from, to));
    same(&rt, packet.payload.into_bytes().len(), 5);
}

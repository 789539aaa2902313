//! A failed memory allocation is an answer, and not the end: each call that allocates is made once, and the
//! state after a failure is checked. `rt try --test --fail-alloc N` makes each of them fail.

use crate::fixture::same;
use crate::types::first_id;
use std::alloc::Global;
use std::net::{Ipv4Addr, SocketAddr, SocketAddrV4};
use std::process::Abort;
use turn_stun::attribute::typed::AttributeWrite;
use turn_types::TransportType;
use turn_types::attribute::{Data, Lifetime, XorPeerAddress};
use turn_types::prelude::DelayedTransmitBuild;
use turn_types::transmit::{DelayedChannel, DelayedMessage, TransmitBuild};

fn peer() -> SocketAddr {
    SocketAddr::V4(SocketAddrV4::new(Ipv4Addr::new(127, 0, 0, 1), 1))
}

/// Whether memory allocation for the value succeeded.
fn is_written<A: AttributeWrite>(attribute: &A, out: &mut Vec<u8>) -> bool {
    attribute.write_value(first_id(), out).is_ok()
}

fn writes_three(rt: &impl Abort, out: &mut Vec<u8>) {
    let lifetime = is_written(&Lifetime::new(1800), out);
    let address = is_written(&XorPeerAddress::new(peer()), out);
    let data = is_written(&Data::new(b"hello"), out);
    same(rt, out.starts_with(b"front"), true);
    if lifetime && address && data {
        same(rt, out.len(), 5 + 4 + 8 + 5);
    }
}

#[test]
fn a_value_keeps_what_stands_before_it(rt: HostRuntime) {
    let mut out = Vec::new(rt.alloc());
    if out.extend_from_slice(b"front").is_ok() {
        writes_three(&rt, &mut out);
    }
}

/// If memory allocation succeeds, this many bytes are built.
fn is_built(rt: &impl Abort, alloc: Global, packet: impl DelayedTransmitBuild, len: usize) {
    if let Ok(built) = packet.build(alloc) {
        same(rt, built.len(), len);
    }
}

fn is_sent(rt: &impl Abort, alloc: Global, payload: &[u8; 5]) {
    let frame = DelayedChannel::new(0x4567, payload.as_slice());
    let packet = TransmitBuild::new(frame, TransportType::Udp, peer(), peer());
    if let Ok(sent) = packet.build(alloc) {
        same(rt, sent.payload.as_bytes().len(), 12);
    }
}

/// Each packet is built, or memory allocation for it failed.
fn makes_each(rt: &impl Abort, alloc: Global, payload: &[u8; 5]) {
    let frame = DelayedChannel::new(0x4567, payload.as_slice());
    is_built(rt, alloc, frame, 12);
    let message = DelayedMessage::for_server(peer(), payload.as_slice(), first_id());
    is_built(rt, alloc, message, 44);
    is_sent(rt, alloc, payload);
}

#[test]
fn a_packet_that_is_not_built_can_be_made_again(rt: HostRuntime) {
    let payload = [5; 5];
    makes_each(&rt, rt.alloc(), &payload);
    makes_each(&rt, rt.alloc(), &payload);
    same(&rt, payload, [5; 5]);
}

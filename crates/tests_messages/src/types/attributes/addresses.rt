//! XOR-PEER-ADDRESS and XOR-RELAYED-ADDRESS.

use crate::fixture::same;
use crate::types::attributes::{reads, refuses, writes};
use crate::types::{first_id, second_id};
use std::net::{Ipv4Addr, Ipv6Addr, SocketAddr, SocketAddrV4, SocketAddrV6};
use turn_types::attribute::{XorPeerAddress, XorRelayedAddress};

pub fn ipv4(last: u8, port: u16) -> SocketAddr {
    SocketAddr::V4(SocketAddrV4::new(Ipv4Addr::new(10, 0, 0, last), port))
}

fn ipv6(port: u16, flowinfo: u32, scope_id: u32) -> SocketAddr {
    let ip = Ipv6Addr::new(0, 0, 0, 0, 0, 0, 0, 1);
    SocketAddr::V6(SocketAddrV6::new(ip, port, flowinfo, scope_id))
}

/// 10.0.0.3:9000.
static PEER: [u8; 8] = [0, 1, 0x02, 0x3a, 0x2b, 0x12, 0xa4, 0x41];

/// [::1]:40000 under the second ID.
static RELAYED: [u8; 20] = [
    0, 2, 0xbd, 0x52, 0x21, 0x12, 0xa4, 0x42, 0x53, 0x86, 0xbd, 0x28, 0xbd, 0xd2, 0x19, 0xb8, 0xa0,
    0x8d, 0xed, 0x1b,
];

#[test]
fn peer_addresses(rt: HostRuntime) {
    let peer = XorPeerAddress::new(ipv4(3, 9000));
    same(&rt, peer.addr(), ipv4(3, 9000));
    writes(&rt, rt.alloc(), &peer, 0x0012, &PEER);
    reads(&rt, &PEER, first_id(), peer);
}

#[test]
fn relayed_addresses(rt: HostRuntime) {
    let relayed = XorRelayedAddress::new(ipv6(40000, 0, 0));
    reads(&rt, &RELAYED, second_id(), relayed);
    // Flow information and scope are not sent.
    let scoped = XorRelayedAddress::new(ipv6(40000, 5, 6));
    same(&rt, scoped.addr(), ipv6(40000, 0, 0));
    writes(&rt, rt.alloc(), &scoped, 0x0016, &RELAYED);
}

/// PEER one byte short, RELAYED one byte short, two of an unknown family, and one byte long.
static MALFORMED: [&[u8]; 5] = [
    &[0, 1, 0x02, 0x3a, 0x2b, 0x12, 0xa4],
    &[
        0, 2, 0xbd, 0x52, 0x21, 0x12, 0xa4, 0x42, 0x53, 0x86, 0xbd, 0x28, 0xbd, 0xd2, 0x19, 0xb8,
        0xa0, 0x8d, 0xed,
    ],
    &[0, 3, 0x02, 0x3a, 0x2b, 0x12, 0xa4, 0x41],
    &[0, 2, 0x02, 0x3a, 0x2b, 0x12, 0xa4, 0x41],
    &[0, 1, 0x02, 0x3a, 0x2b, 0x12, 0xa4, 0x41, 0],
];

#[test]
fn malformed_addresses(rt: HostRuntime) {
    refuses::<XorPeerAddress>(&rt, &MALFORMED);
    refuses::<XorRelayedAddress>(&rt, &MALFORMED);
}

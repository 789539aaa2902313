//! LIFETIME, CONNECTION-ID, CHANNEL-NUMBER, and the enumerations.

use crate::fixture::same;
use crate::types::attributes::{reads, refuses, writes};
use crate::types::first_id;
use turn_types::attribute::{
    AdditionalAddressFamily, ChannelNumber, ConnectionId, Lifetime, RequestedAddressFamily,
    RequestedTransport,
};
use turn_types::{AddressFamily, TransportType};

/// Malformed values of LIFETIME: nothing, a byte short, a byte long.
static NO_LIFETIMES: [&[u8]; 3] = [&[], &[0, 7, 8], &[0, 0, 7, 8, 0]];

#[test]
fn lifetimes(rt: HostRuntime) {
    let lifetime = Lifetime::new(1800);
    same(&rt, lifetime.seconds(), 1800);
    reads(&rt, &[0, 0, 7, 8], first_id(), lifetime);
    refuses::<Lifetime>(&rt, &NO_LIFETIMES);
    writes(
        &rt,
        rt.alloc(),
        &Lifetime::new(1000),
        0x000d,
        &[0, 0, 3, 0xe8],
    );
}

/// Malformed values of CONNECTION-ID: nothing, a byte short, a byte long.
static NO_CONNECTION_IDS: [&[u8]; 3] = [&[], &[0, 0, 1], &[0, 0, 0, 0, 1]];

#[test]
fn connection_ids(rt: HostRuntime) {
    let connection = ConnectionId::new(0x1234_5678);
    same(&rt, ConnectionId::new(7).id(), 7);
    refuses::<ConnectionId>(&rt, &NO_CONNECTION_IDS);
    writes(
        &rt,
        rt.alloc(),
        &connection,
        0x002a,
        &[0x12, 0x34, 0x56, 0x78],
    );
    reads(&rt, &[0x12, 0x34, 0x56, 0x78], first_id(), connection);
}

/// Malformed values of CHANNEL-NUMBER: nothing, a byte short, a byte long.
static NO_CHANNEL_NUMBERS: [&[u8]; 3] = [&[], &[0x40, 0x01, 0], &[0x40, 0x01, 0, 0, 0]];

#[test]
fn channel_numbers(rt: HostRuntime) {
    let number = ChannelNumber::new(0x4001);
    same(&rt, number.number(), 0x4001);
    refuses::<ChannelNumber>(&rt, &NO_CHANNEL_NUMBERS);
    writes(&rt, rt.alloc(), &number, 0x000c, &[0x40, 0x01, 0, 0]);
    reads(&rt, &[0x40, 0x01, 0xff, 0xff], first_id(), number);
}

/// Malformed families: a byte short or long, an unknown number, a reserved byte that is not zero, nothing.
static NO_FAMILIES: [&[u8]; 6] = [
    &[2, 0, 0],
    &[2, 0, 0, 0, 0],
    &[0, 0, 0, 0],
    &[3, 0, 0, 0],
    &[2, 0, 0, 1],
    &[],
];

#[test]
fn requested_families(rt: HostRuntime) {
    let ipv6 = RequestedAddressFamily::new(AddressFamily::IPV6);
    same(&rt, ipv6.family(), AddressFamily::IPV6);
    same(&rt, AddressFamily::default(), AddressFamily::IPV4);
    refuses::<RequestedAddressFamily>(&rt, &NO_FAMILIES);
    writes(&rt, rt.alloc(), &ipv6, 0x0017, &[2, 0, 0, 0]);
    reads(&rt, &[2, 0, 0, 0], first_id(), ipv6);
}

#[test]
fn additional_families(rt: HostRuntime) {
    let ipv4 = AdditionalAddressFamily::new(AddressFamily::IPV4);
    reads(&rt, &[1, 0, 0, 0], first_id(), ipv4);
    let ipv6 = AdditionalAddressFamily::new(AddressFamily::IPV6);
    same(&rt, ipv6.family(), AddressFamily::IPV6);
    refuses::<AdditionalAddressFamily>(&rt, &NO_FAMILIES);
    writes(&rt, rt.alloc(), &ipv6, 0x8000, &[2, 0, 0, 0]);
}

/// Malformed transports: a byte short or long, an unknown number, a reserved byte that is not zero.
static NO_TRANSPORTS: [&[u8]; 4] = [
    &[17, 0, 0],
    &[17, 0, 0, 0, 0],
    &[1, 0, 0, 0],
    &[17, 0, 1, 0],
];

#[test]
fn transports(rt: HostRuntime) {
    let udp = RequestedTransport::new(TransportType::Udp);
    let tcp = RequestedTransport::new(TransportType::Tcp);
    same(&rt, tcp.transport(), TransportType::Tcp);
    refuses::<RequestedTransport>(&rt, &NO_TRANSPORTS);
    writes(&rt, rt.alloc(), &udp, 0x0019, &[0x11, 0, 0, 0]);
    writes(&rt, rt.alloc(), &tcp, 0x0019, &[0x06, 0, 0, 0]);
    reads(&rt, &[17, 0, 0, 0], first_id(), udp);
    reads(&rt, &[6, 0, 0, 0], first_id(), tcp);
}

//! A client, its server and their packets.

ghost use Rattle.std.specs.Prelude.{◌≡◌, ◌≤◌, ◌^◌, All, IfOk};
ghost use Rattle.turn_client_calls.specs.Run.{IsCallable};

use crate::fixture::{check, config};
use std::alloc::{AllocError, Global};
use std::net::{IpAddr, Ipv4Addr, SocketAddr};
use std::process::Abort;
use turn_auth::credentials::CredentialsError;
use turn_client_api::{TurnConfig, TurnPollRet, TurnRecvRet};
use turn_client_proto::api::TurnClientApi;
use turn_client_proto::client::TurnClient;
use turn_client_proto::udp::TurnClientUdp;
use turn_client_proto::{Call, Replayed, Reply, replay};
use turn_stun::data::Data;
use turn_stun::instant::Instant;
use turn_stun::transport::{Transmit, TransportType};
use turn_types::AddressFamily;

pub const MS: u64 = 1_000_000;

/// The latest time of a call, in nanoseconds: 2^62.
const LATEST_CALL: u64 = 0x4000_0000_0000_0000;

/// The first ALLOCATE of the seed of zeros, for an IPv4 address (RFC 8656, section 7.1).
pub const FIRST_ALLOCATE: &[u8] = &[
    0x00, 0x03, 0x00, 0x14, 0x21, 0x12, 0xa4, 0x42, 0x76, 0xb8, 0xe0, 0xad, 0xa0, 0xf1, 0x3d, 0x90,
    0x40, 0x5d, 0x6a, 0xe5, 0x00, 0x0d, 0x00, 0x04, 0x00, 0x00, 0x07, 0x08, 0x00, 0x19, 0x00, 0x04,
    0x11, 0x00, 0x00, 0x00, 0x00, 0x1a, 0x00, 0x00,
];

/// The unsigned 400 (Bad Request) response to it.
pub const BAD_REQUEST: &[u8] = &[
    0x01, 0x13, 0x00, 0x14, 0x21, 0x12, 0xa4, 0x42, 0x76, 0xb8, 0xe0, 0xad, 0xa0, 0xf1, 0x3d, 0x90,
    0x40, 0x5d, 0x6a, 0xe5, 0x00, 0x09, 0x00, 0x0f, 0x00, 0x00, 0x04, 0x00, 0x42, 0x61, 0x64, 0x20,
    0x52, 0x65, 0x71, 0x75, 0x65, 0x73, 0x74, 0x00,
];

pub fn local() -> SocketAddr {
    SocketAddr::new(IpAddr::V4(Ipv4Addr::new(192, 168, 0, 1)), 1_000)
}

pub fn server() -> SocketAddr {
    SocketAddr::new(IpAddr::V4(Ipv4Addr::new(10, 0, 0, 2)), 2_000)
}

pub fn at(nanos: u64) -> Instant {
    Instant::from_nanos(nanos)
}

/// The time of a call, which is at most 2^62 ns.
pub fn called_at(nanos: u64) -> Instant
    ensures { result ≤ 2 ^ 62 }
{
    Instant::from_nanos(nanos.min(LATEST_CALL))
}

/// A new client of the seed of zeros, for an IPv4 address.
pub fn client(alloc: Global) -> Result<TurnClientUdp, CredentialsError> {
    let config = config(alloc)?;
    Ok(TurnClientUdp::allocate(alloc, local(), server(), config, [0; 32])?)
}

/// The same as either of the two clients.
pub fn either_client(alloc: Global) -> Result<TurnClient, CredentialsError> {
    Ok(TurnClient::from(client(alloc)?))
}

/// The same for an IPv6 address and an IPv4 address.
pub fn client_for_both(alloc: Global) -> Result<TurnClientUdp, CredentialsError> {
    let mut config = config(alloc)?;
    config.set_address_family(AddressFamily::IPV6);
    config.add_address_family(AddressFamily::IPV4);
    Ok(TurnClientUdp::allocate(alloc, local(), server(), config, [0; 32])?)
}

// Functions take a client as a type parameter, or whether there is one: a proof then opens none of its parts, and ends far
// sooner.

/// Whether a packet has these bytes and goes to the server.
fn sends(packet: &Transmit<Data>, bytes: &[u8]) -> bool {
    let ends = (packet.transport, packet.from, packet.to);
    packet.payload.as_bytes() == bytes && ends == (TransportType::Udp, local(), server())
}

/// Compares a packet with the first request.
pub fn is_first_request(rt: &impl Abort, packet: Option<Transmit<Data>>) {
    match &packet {
        Some(packet) => check(rt, sends(packet, FIRST_ALLOCATE)),
        None => check(rt, false),
    }
}

/// Passes in the error response, which the client must process.
pub fn refuse<C: TurnClientApi>(rt: &impl Abort, client: &mut C, now: Instant)
    requires { now ≤ 2 ^ 62 }
{
    let packet = Transmit::new(BAD_REQUEST, TransportType::Udp, server(), local());
    let answer = client.recv(packet, now);
    check(rt, matches!(answer, Ok(TurnRecvRet::Handled)));
}

/// The client must have ended, with no pending event.
pub fn is_closed<C: TurnClientApi>(
    rt: &impl Abort,
    client: &mut C,
    now: Instant,
) -> Result<(), AllocError>
    requires { now ≤ 2 ^ 62 }
{
    check(rt, client.poll(now)? == TurnPollRet::Closed);
    check(rt, client.poll_event().is_none());
    Ok(())
}

/// The answers of a new client of the seed of zeros to these calls.
pub fn replies_of(
    alloc: Global,
    config: TurnConfig,
    calls: &[Call],
) -> Result<Vec<Reply>, AllocError>
    requires relays { config.allocation_transport ≡ TransportType.Udp }
    requires callable { All (IsCallable TransportType.Udp) calls.now }
{
    let Replayed { replies, client } = replay(
        alloc,
        TransportType::Udp,
        local(),
        server(),
        config,
        [0; 32],
        calls,
    )?;
    drop(client);
    Ok(replies)
}

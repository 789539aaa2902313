//! An agent, its addresses, and bare messages.

ghost use Rattle.std.specs.Prelude.{◌≡◌, []};

use std::alloc::Global;
use std::net::{IpAddr, Ipv4Addr, SocketAddr};
use std::time::Duration;
use turn_agent::agent::StunAgent;
use turn_stun::instant::Instant;
use turn_stun::transaction::TransactionId;
use turn_stun::transport::TransportType;

/// A REFRESH request, a DATA indication and an ALLOCATE success (RFC 8656, section 17).
pub const REQUEST: [u8; 2] = [0x00, 0x04];

pub const INDICATION: [u8; 2] = [0x00, 0x17];

pub const SUCCESS: [u8; 2] = [0x01, 0x03];

pub fn local() -> SocketAddr {
    SocketAddr::new(IpAddr::V4(Ipv4Addr::new(192, 168, 0, 1)), 1_000)
}

pub fn server() -> SocketAddr {
    SocketAddr::new(IpAddr::V4(Ipv4Addr::new(10, 0, 0, 2)), 2_000)
}

pub fn at(nanos: u64) -> Instant {
    Instant::from_nanos(nanos)
}

pub fn id(n: u32) -> TransactionId
    ensures { result ≡ n }
{
    let [a, b, c, d] = n.to_be_bytes();
    TransactionId::from_bytes([0, 0, 0, 0, 0, 0, 0, 0, a, b, c, d])
}

/// A message of this type and ID with no attribute.
pub fn header(kind: [u8; 2], id: TransactionId) -> [u8; 20] {
    let [high, low] = kind;
    let [a, b, c, d, e, f, g, h, i, j, k, l] = id.to_bytes();
    [
        high, low, 0, 0, 0x21, 0x12, 0xa4, 0x42, a, b, c, d, e, f, g, h, i, j, k, l,
    ]
}

/// An agent with these timers, in nanoseconds.
pub fn agent_with(
    alloc: Global,
    transport: TransportType,
    initial: u64,
    max: u64,
    count: u32,
    last: u64,
) -> StunAgent
    ensures { result.transactions ≡ [] }
{
    StunAgent::builder(alloc, transport, local())
        .request_retransmits(
            Duration::from_nanos(initial),
            Duration::from_nanos(max),
            count,
            Duration::from_nanos(last),
        )
        .build()
}

/// An agent over UDP that sends twice, 2 ms apart, and waits 5 ns after that.
pub fn short_agent(alloc: Global) -> StunAgent
    ensures { result.transactions ≡ [] }
{
    agent_with(alloc, TransportType::Udp, 2_000_000, u64::MAX, 2, 5)
}

//! The parties of a run, and the kinds of runs.

use crate::draws::Draws;
use std::net::{IpAddr, Ipv4Addr, Ipv6Addr, SocketAddr};
use turn_stun::transport::TransportType;
use turn_types::AddressFamily;

/// A millisecond, in nanoseconds.
pub const MS: u64 = 1_000_000;

/// A second, in nanoseconds.
pub const SECOND: u64 = 1_000_000_000;

/// The number of peers. The last two are strangers, for which nothing is ever requested.
pub const PEERS: u64 = 8;

/// The number of peers that are no strangers.
pub const FRIENDS: u64 = 6;

/// The port of the first peer; each other peer has the next one.
const FIRST_PORT: u16 = 9_000;

/// The port of the client's first data connection.
const FIRST_END: u16 = 1_001;

/// A kind of run.
#[derive(Clone, Copy)]
pub struct Kind {
    /// The transport between client and server.
    pub transport: TransportType,
    /// The transport between server and peers.
    pub relays: TransportType,
    /// The family that is requested first.
    pub first: AddressFamily,
    /// The other family, if it is requested too.
    pub second: Option<AddressFamily>,
}

/// The names of the kinds.
pub const NAMES: [&str; 9] = [
    "udp 4",
    "udp 6",
    "udp 4,6",
    "tcp udp 4",
    "tcp udp 6",
    "tcp udp 4,6",
    "tcp tcp 4",
    "tcp tcp 6",
    "tcp tcp 4,6",
];

/// All kinds of runs: over UDP, over TCP, and over TCP with data connections (RFC 6062).
pub const KINDS: [Kind; 9] = [
    Kind {
        transport: TransportType::Udp,
        relays: TransportType::Udp,
        first: AddressFamily::IPV4,
        second: None,
    },
    Kind {
        transport: TransportType::Udp,
        relays: TransportType::Udp,
        first: AddressFamily::IPV6,
        second: None,
    },
    Kind {
        transport: TransportType::Udp,
        relays: TransportType::Udp,
        first: AddressFamily::IPV4,
        second: Some(AddressFamily::IPV6),
    },
    Kind {
        transport: TransportType::Tcp,
        relays: TransportType::Udp,
        first: AddressFamily::IPV4,
        second: None,
    },
    Kind {
        transport: TransportType::Tcp,
        relays: TransportType::Udp,
        first: AddressFamily::IPV6,
        second: None,
    },
    Kind {
        transport: TransportType::Tcp,
        relays: TransportType::Udp,
        first: AddressFamily::IPV4,
        second: Some(AddressFamily::IPV6),
    },
    Kind {
        transport: TransportType::Tcp,
        relays: TransportType::Tcp,
        first: AddressFamily::IPV4,
        second: None,
    },
    Kind {
        transport: TransportType::Tcp,
        relays: TransportType::Tcp,
        first: AddressFamily::IPV6,
        second: None,
    },
    Kind {
        transport: TransportType::Tcp,
        relays: TransportType::Tcp,
        first: AddressFamily::IPV4,
        second: Some(AddressFamily::IPV6),
    },
];

/// The client's address.
pub fn local() -> SocketAddr {
    SocketAddr::new(IpAddr::V4(Ipv4Addr::new(192, 168, 0, 1)), 1_000)
}

/// The server's address.
pub fn server() -> SocketAddr {
    SocketAddr::new(IpAddr::V4(Ipv4Addr::new(10, 0, 0, 2)), 2_000)
}

/// An address that is neither the client's nor the server's.
pub fn elsewhere() -> SocketAddr {
    SocketAddr::new(IpAddr::V4(Ipv4Addr::new(10, 0, 0, 66)), 2_000)
}

/// The client's end of the data connection with this number.
pub fn data_end(number: u16) -> SocketAddr {
    let port = FIRST_END.saturating_add(number);
    SocketAddr::new(IpAddr::V4(Ipv4Addr::new(192, 168, 0, 1)), port)
}

/// The address that the server relays from, in this family. One with another `fork` is never granted.
pub fn relayed(family: AddressFamily, fork: u8) -> SocketAddr {
    let ip = match family {
        AddressFamily::IPV4 => IpAddr::V4(Ipv4Addr::new(10, 0, 1, fork)),
        AddressFamily::IPV6 => v6(u16::from(fork).saturating_add(100)),
    };
    SocketAddr::new(ip, 40_000)
}

fn v4(last: u8) -> IpAddr {
    IpAddr::V4(Ipv4Addr::new(10, 0, 0, last))
}

fn v6(last: u16) -> IpAddr {
    IpAddr::V6(Ipv6Addr::new(0, 0, 0, 0, 0, 0, 0, last))
}

/// The peer with this number: 0 and 3 have one IP address.
pub fn peer(number: u64) -> SocketAddr {
    let (ip, port) = match number {
        0 => (v4(3), 0),
        1 => (v4(4), 1),
        2 => (v4(5), 2),
        3 => (v4(3), 3),
        4 => (v6(4), 4),
        5 => (v6(5), 5),
        6 => (v4(99), 6),
        _ => (v6(99), 7),
    };
    SocketAddr::new(ip, FIRST_PORT.saturating_add(port))
}

/// A drawn peer that is no stranger, mostly of a family that is requested.
pub fn drawn_friend(draws: &mut Draws, kind: Kind) -> SocketAddr {
    let number = draws.below(FRIENDS);
    let friend = peer(number);
    if is_requested(kind, friend.ip()) || draws.percent(10) {
        return friend;
    }
    match kind.first {
        AddressFamily::IPV4 => peer(number % 4),
        AddressFamily::IPV6 => peer(number % 2 + 4),
    }
}

/// The number of this peer.
pub fn number_of(peer: SocketAddr) -> u8 {
    let [_, low] = peer.port().saturating_sub(FIRST_PORT).to_be_bytes();
    low % 8
}

/// Whether an address of this IP address's family is requested in runs of this kind.
fn is_requested(kind: Kind, ip: IpAddr) -> bool {
    let family = match ip {
        IpAddr::V4(_) => AddressFamily::IPV4,
        IpAddr::V6(_) => AddressFamily::IPV6,
    };
    kind.first == family || kind.second == Some(family)
}

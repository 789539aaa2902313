//! The part of an address that is sent (RFC 8489, section 14.2).

ghost use Rattle.std.specs.Prelude.{◌≡◌};
ghost use Rattle.std.specs.Net.Socket.{IsSocketAddr, IsSocketAddrV4, IsSocketAddrV6};
ghost use Rattle.turn_stun.specs.XorAddress.{plain, plain_v6};

use std::net::{Ipv4Addr, Ipv6Addr, SocketAddr, SocketAddrV4, SocketAddrV6};

/// The address as its receiver reads it: flow information and scope of an IPv6 address are not sent
/// (RFC 8489, section 14.2).
pub(crate) fn plain(addr: SocketAddr) -> SocketAddr
    ensures plain { result ≡ plain addr }
    ensures in_range { IsSocketAddr result }
{
    match addr {
        SocketAddr::V4(addr) => SocketAddr::V4(same_v4(addr)),
        SocketAddr::V6(addr) => SocketAddr::V6(plain_v6(addr)),
    }
}

/// The same address, since all of an IPv4 address is sent.
fn same_v4(addr: SocketAddrV4) -> SocketAddrV4
    ensures same { result ≡ addr }
    ensures in_range { IsSocketAddrV4 result }
{
    let [a, b, c, d] = addr.ip().octets();
    SocketAddrV4::new(Ipv4Addr::new(a, b, c, d), addr.port())
}

/// The address without flow information and scope.
fn plain_v6(addr: SocketAddrV6) -> SocketAddrV6
    ensures plain { result ≡ plain_v6 addr }
    ensures in_range { IsSocketAddrV6 result }
{
    let [a, b, c, d, e, f, g, h] = addr.ip().segments();
    SocketAddrV6::new(Ipv6Addr::new(a, b, c, d, e, f, g, h), addr.port(), 0, 0)
}

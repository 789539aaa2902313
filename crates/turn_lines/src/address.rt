//! Addresses of the two families.

ghost use Rattle.std.specs.Prelude.{◌≡◌};
ghost use Rattle.turn_lines.specs.Address.{address_of, ip_of, ipv4_of, ipv6_of, with_port};

use crate::field::is_lower_hex;
use crate::number::parse_decimal;
use crate::parts::Parts;
use hex::FromHex;
use std::net::{IpAddr, Ipv4Addr, Ipv6Addr, SocketAddr, SocketAddrV4, SocketAddrV6};

/// `a.b.c.d:port`, or the 32 digits of an IPv6 address as in `[..]:port`.
#[tactic(auto, unfolding(crate::specs::Address::address_of))]
pub fn parse_address(text: &[u8]) -> Option<SocketAddr>
    ensures { result ≡ address_of text.now }
{
    let mut parts = Parts::new(text, b':');
    let ip = parse_ip(parts.next()?)?;
    let port = parse_decimal(parts.next()?, 65_535)? as u16;
    parts.end()?;
    Some(with_port(ip, port))
}

/// `a.b.c.d`, or the 32 digits of an IPv6 address as in `[..]`.
pub fn parse_ip(text: &[u8]) -> Option<IpAddr>
    ensures { result ≡ ip_of text.now }
{
    match text {
        [b'[', digits @ .., b']'] => Some(IpAddr::V6(parse_ipv6(digits)?)),
        _ => Some(IpAddr::V4(parse_ipv4(text)?)),
    }
}

fn with_port(ip: IpAddr, port: u16) -> SocketAddr
    ensures { result ≡ with_port ip port }
{
    match ip {
        IpAddr::V4(ip) => SocketAddr::V4(SocketAddrV4::new(ip, port)),
        IpAddr::V6(ip) => SocketAddr::V6(SocketAddrV6::new(ip, port, 0, 0)),
    }
}

#[tactic(auto, unfolding(crate::specs::Address::ipv4_of))]
fn parse_ipv4(text: &[u8]) -> Option<Ipv4Addr>
    ensures { result ≡ ipv4_of text.now }
{
    let mut parts = Parts::new(text, b'.');
    let a = parse_decimal(parts.next()?, 255)? as u8;
    let b = parse_decimal(parts.next()?, 255)? as u8;
    let c = parse_decimal(parts.next()?, 255)? as u8;
    let d = parse_decimal(parts.next()?, 255)? as u8;
    parts.end()?;
    Some(Ipv4Addr::new(a, b, c, d))
}

fn parse_ipv6(digits: &[u8]) -> Option<Ipv6Addr>
    ensures { result ≡ ipv6_of digits.now }
{
    if !is_lower_hex(digits) {
        return None;
    }
    let octets = <[u8; 16]>::from_hex(digits).ok()?;
    Some(Ipv6Addr::from_octets(octets))
}

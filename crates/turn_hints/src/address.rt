//! The addresses that a server's responses carry: XOR-MAPPED-ADDRESS (RFC 8489, section 14.2) and ALTERNATE-SERVER
//! (section 14.15).

ghost use Rattle.std.specs.Prelude.{◌≡◌, ◌+◌, ◌≤◌, length};
ghost use Rattle.turn_stun.specs.Number.{u16_at};
ghost use Rattle.turn_stun.specs.XorAddress.{xor_addr};
ghost use Rattle.turn_hints.specs.Hints.{plain_addr, plain_ipv6};

use std::marker::Model;
use std::net::{Ipv4Addr, Ipv6Addr, SocketAddr, SocketAddrV4, SocketAddrV6};
use turn_stun::attribute::AttributeType;
use turn_stun::attribute::typed::AttributeFromRaw;
use turn_stun::attribute::xor_address::XorSocketAddr;
use turn_stun::transaction::TransactionId;

/// The families (RFC 8489, section 14.1).
const IPV4: u8 = 1;

const IPV6: u8 = 2;

/// The address of the client as the server sees it: the server-reflexive address of a NAT (RFC 8489, section 14.2).
/// Contracts see it as the address.
#[derive(Clone, Copy, Debug, PartialEq, Eq)]
pub struct XorMappedAddress {
    addr: XorSocketAddr,
}

impl Model for XorMappedAddress {
    ghost use Rattle.std.specs.declared.net.socket_addr.SocketAddr.{SocketAddr};

    ghost Value = { SocketAddr };

    ghost view = { λ xor. xor.addr };

    ghost inverse = { λ addr. record { addr = addr } };
}

impl XorMappedAddress {
    /// The type of the attribute.
    pub const TYPE: AttributeType = AttributeType { value: 0x0020 };

    /// The address.
    pub fn addr(&self) -> SocketAddr
        ensures { result ≡ self.now }
    {
        self.addr.addr()
    }
}

impl<'a> AttributeFromRaw<'a> for XorMappedAddress {
    ghost kind = { 0x0020 };

    ghost decodes = { λ value id found. found ≡ xor_addr value id };

    fn attribute_type() -> AttributeType
        ensures { result.value ≡ 0x0020 }
    {
        XorMappedAddress::TYPE
    }

    fn from_value(value: &'a [u8], id: TransactionId) -> Option<XorMappedAddress>
        ensures { result ≡ xor_addr value.now id }
    {
        let addr = XorSocketAddr::decode(value, id)?;
        Some(XorMappedAddress { addr })
    }
}

/// Another server that the client is to try (RFC 8489, section 14.15). Contracts see it as its address.
#[derive(Clone, Copy, Debug, PartialEq, Eq)]
pub struct AlternateServer {
    addr: SocketAddr,
}

impl Model for AlternateServer {
    ghost use Rattle.std.specs.declared.net.socket_addr.SocketAddr.{SocketAddr};

    ghost Value = { SocketAddr };

    ghost view = { λ server. server.addr };

    ghost inverse = { λ addr. record { addr = addr } };
}

impl AlternateServer {
    /// The type of the attribute.
    pub const TYPE: AttributeType = AttributeType { value: 0x8023 };

    /// The address.
    pub fn addr(&self) -> SocketAddr
        ensures { result ≡ self.now }
    {
        self.addr
    }
}

impl<'a> AttributeFromRaw<'a> for AlternateServer {
    ghost kind = { 0x8023 };

    ghost decodes = { λ value id found. found ≡ plain_addr value };

    fn attribute_type() -> AttributeType
        ensures { result.value ≡ 0x8023 }
    {
        AlternateServer::TYPE
    }

    fn from_value(value: &'a [u8], _id: TransactionId) -> Option<AlternateServer>
        ensures { result ≡ plain_addr value.now }
    {
        let addr = plain_addr(value)?;
        Some(AlternateServer { addr })
    }
}

/// The address that a value encodes as MAPPED-ADDRESS does, or `None` if the value is malformed: its length is not that of
/// its family, or the family is neither 1 nor 2 (RFC 8489, section 14.1).
fn plain_addr(value: &[u8]) -> Option<SocketAddr>
    ensures { result ≡ plain_addr value.now }
{
    if value.len() == 8 && value[1] == IPV4 {
        let ip = Ipv4Addr::new(value[4], value[5], value[6], value[7]);
        return Some(SocketAddr::V4(SocketAddrV4::new(ip, u16_at(value, 2))));
    }
    if value.len() == 20 && value[1] == IPV6 {
        return Some(SocketAddr::V6(ipv6_of(value)));
    }
    None
}

/// The IPv6 address in a value of twenty bytes.
fn ipv6_of(value: &[u8]) -> SocketAddrV6
    requires { length value.now ≡ 20 }
    ensures { result ≡ plain_ipv6 value.now }
{
    let ip = Ipv6Addr::new(
        u16_at(value, 4),
        u16_at(value, 6),
        u16_at(value, 8),
        u16_at(value, 10),
        u16_at(value, 12),
        u16_at(value, 14),
        u16_at(value, 16),
        u16_at(value, 18),
    );
    SocketAddrV6::new(ip, u16_at(value, 2), 0, 0)
}

/// The two bytes from this place on, as a number.
fn u16_at(value: &[u8], at: usize) -> u16
    requires { at + 2 ≤ length value.now }
    ensures { result ≡ u16_at value.now at }
{
    u16::from_be_bytes([value[at], value[at + 1]])
}

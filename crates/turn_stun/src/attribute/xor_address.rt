//! Addresses that are XORed, so that no device on the path rewrites them (RFC 8489, section 14.2).

ghost use Rattle.std.specs.Prelude.{◌≡◌, ℕ, ◌^◌, ◌<◌, ◌∷◌, ◌++◌, length, drop, Some, IfSome, OnOk, OnErr};
ghost use Rattle.std.specs.Net.Addr.{IsIpv6Addr, ipv4_octets};
ghost use Rattle.std.specs.Net.Socket.{v4_ip, v4_port, v6_ip, v6_port};
ghost use Rattle.turn_stun.specs.XorAddress.{xor_addr, xor_ipv4, xor_ipv6, xor_value, xor_value_len, xored_port, ipv4_value, ipv6_value, plain};

use crate::message::parse::u16_at;
use crate::transaction::TransactionId;
use std::alloc::AllocError;
use std::marker::Model;
use std::net::{Ipv4Addr, Ipv6Addr, SocketAddr, SocketAddrV4, SocketAddrV6};

/// The families (RFC 8489, section 14.1).
const IPV4: u8 = 1;

const IPV6: u8 = 2;

/// A transport address as XOR-MAPPED-ADDRESS and TURN's address attributes encode it. Contracts see it as
/// the address.
#[derive(Clone, Copy, Debug, PartialEq, Eq)]
pub struct XorSocketAddr {
    addr: SocketAddr,
}

impl Model for XorSocketAddr {
    ghost use Rattle.std.specs.declared.net.socket_addr.SocketAddr.{SocketAddr};

    ghost Value = { SocketAddr };

    ghost view = { λ xor. xor.addr };

    ghost inverse = { λ addr. record { addr = addr } };
}

impl XorSocketAddr {
    /// The attribute's value for this address.
    pub fn new(addr: SocketAddr) -> XorSocketAddr
        ensures { result ≡ addr }
    {
        XorSocketAddr { addr }
    }

    /// The address.
    pub fn addr(&self) -> SocketAddr
        ensures { result ≡ self.now }
    {
        self.addr
    }

    /// The address that a value encodes under a transaction ID, or `None` if the value is malformed: its
    /// length is not that of its family, or the family is neither 1 nor 2. Flow information and scope of
    /// an IPv6 address are 0, since they are not sent.
    pub fn decode(value: &[u8], id: TransactionId) -> Option<XorSocketAddr>
        ensures addr { result ≡ xor_addr value.now id }
        // It is written again unchanged, except the unread byte.
        ensures again { IfSome result (λ addr. xor_value addr id ≡ 0 ∷ drop 1 value.now) }
    {
        if value.len() == 8 && value[1] == IPV4 {
            return Some(XorSocketAddr::new(SocketAddr::V4(ipv4_of(value))));
        }
        if value.len() == 20 && value[1] == IPV6 {
            return Some(XorSocketAddr::new(SocketAddr::V6(ipv6_of(value, id))));
        }
        None
    }

    /// How many bytes the value has: 8 for IPv4 and 20 for IPv6.
    pub fn value_len(&self) -> usize
        ensures len { result ≡ xor_value_len self.now }
        ensures every { (id : ℕ) → length (xor_value self.now id) ≡ result }
    {
        match self.addr {
            SocketAddr::V4(_) => 8,
            SocketAddr::V6(_) => 20,
        }
    }

    /// Writes the value into a slice of its length, `value_len`.
    pub fn encode(&self, id: TransactionId, place: &mut [u8])
        requires { length place.old ≡ xor_value_len self.now }
        ensures value { place.new ≡ xor_value self.now id }
        // It is read again unchanged, except flow information and scope.
        ensures again { xor_addr place.new id ≡ Some (plain self.now) }
    {
        match self.addr {
            SocketAddr::V4(addr) => place.copy_from_slice(&ipv4_value(addr)),
            SocketAddr::V6(addr) => place.copy_from_slice(&ipv6_value(addr, id)),
        }
    }

    /// Appends the value. On an error `out` is as before.
    pub fn append(&self, id: TransactionId, out: &mut Vec<u8>) -> Result<(), AllocError>
        ensures ok { OnOk result (out.new.items ≡ out.old.items ++ xor_value self.now id) }
        ensures err { OnErr result (out.new.items ≡ out.old.items) }
    {
        match self.addr {
            SocketAddr::V4(addr) => out.extend_from_slice(&ipv4_value(addr)),
            SocketAddr::V6(addr) => out.extend_from_slice(&ipv6_value(addr, id)),
        }
    }
}

/// A port as it is sent, or the original of one that was sent.
fn xored_port(port: u16) -> u16
    ensures { result ≡ xored_port port }
{
    port ^ 0x2112
}

/// The IPv4 address in a value of eight bytes.
fn ipv4_of(value: &[u8]) -> SocketAddrV4
    requires { length value.now ≡ 8 }
    ensures { result ≡ xor_ipv4 value.now }
{
    let port = xored_port(u16_at(value, 2));
    let ip = Ipv4Addr::new(
        value[4] ^ 0x21,
        value[5] ^ 0x12,
        value[6] ^ 0xa4,
        value[7] ^ 0x42,
    );
    SocketAddrV4::new(ip, port)
}

/// The IPv6 address in a value of twenty bytes.
fn ipv6_of(value: &[u8], id: TransactionId) -> SocketAddrV6
    requires { length value.now ≡ 20 }
    ensures { result ≡ xor_ipv6 value.now id }
{
    let port = xored_port(u16_at(value, 2));
    let [a, b, c, d, e, f] = id.segments();
    let ip = Ipv6Addr::new(
        u16_at(value, 4) ^ 0x2112,
        u16_at(value, 6) ^ 0xa442,
        u16_at(value, 8) ^ a,
        u16_at(value, 10) ^ b,
        u16_at(value, 12) ^ c,
        u16_at(value, 14) ^ d,
        u16_at(value, 16) ^ e,
        u16_at(value, 18) ^ f,
    );
    SocketAddrV6::new(ip, port, 0, 0)
}

fn ipv4_value(addr: SocketAddrV4) -> [u8; 8]
    ensures value { result ≡ ipv4_value addr }
    ensures octets { length (ipv4_octets (v4_ip addr)) ≡ 4 }
    ensures port { v4_port addr < 2 ^ 16 }
{
    let [p, q] = xored_port(addr.port()).to_be_bytes();
    let [a, b, c, d] = addr.ip().octets();
    [0, IPV4, p, q, a ^ 0x21, b ^ 0x12, c ^ 0xa4, d ^ 0x42]
}

fn ipv6_value(addr: SocketAddrV6, id: TransactionId) -> [u8; 20]
    ensures value { result ≡ ipv6_value addr id }
    ensures segments { IsIpv6Addr (v6_ip addr) }
    ensures port { v6_port addr < 2 ^ 16 }
    ensures id { id < 2 ^ 96 }
{
    let [p, q] = xored_port(addr.port()).to_be_bytes();
    let [a, b, c, d, e, f, g, h] = addr.ip().segments();
    let [i, j, k, l, m, n] = id.segments();
    let [a0, a1] = (a ^ 0x2112).to_be_bytes();
    let [b0, b1] = (b ^ 0xa442).to_be_bytes();
    let [c0, c1] = (c ^ i).to_be_bytes();
    let [d0, d1] = (d ^ j).to_be_bytes();
    let [e0, e1] = (e ^ k).to_be_bytes();
    let [f0, f1] = (f ^ l).to_be_bytes();
    let [g0, g1] = (g ^ m).to_be_bytes();
    let [h0, h1] = (h ^ n).to_be_bytes();
    [
        0, IPV6, p, q, a0, a1, b0, b1, c0, c1, d0, d1, e0, e1, f0, f1, g0, g1, h0, h1,
    ]
}

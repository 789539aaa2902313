//! Addresses and transports as numbers.

ghost use Rattle.std.specs.Prelude.{◌≡◌, Some};
ghost use Rattle.std.specs.Net.Addr.{IsIpv6Addr, ipv6_octets};
ghost use Rattle.turn_c_calls.specs.Address.{c_address, address_of_ip, ip_at, no_address, socket_at, transport_code, c_transport};

use crate::code::{IPV4, IPV6, NO_FAMILY, TCP, UDP};
use std::net::{IpAddr, Ipv4Addr, Ipv6Addr, SocketAddr, SocketAddrV4, SocketAddrV6};
use turn_stun::transport::TransportType;

/// An IP address with a port, or none.
#[derive(Clone, Copy, Debug, PartialEq, Eq)]
#[repr(C)]
pub struct Address {
    /// The IP address, its first byte first. IPv4 has the first four, and the others are 0.
    pub ip: [u8; 16],
    /// The flow information of an IPv6 address.
    pub flow: u32,
    /// The scope of an IPv6 address.
    pub scope: u32,
    /// The port.
    pub port: u16,
    /// 4 or 6, or 0 for no address.
    pub family: u8,
    /// 0.
    pub reserved: u8,
}

impl Address {
    ghost use Rattle.std.specs.Prelude.{◌≡◌, Some};
    ghost use Rattle.turn_c_calls.specs.Address.{c_address, address_of_ip, socket_at};

    /// Becomes this address. It is written in place, so that no copy of it is made.
    // In the caller an address is read from where its parts were just written, and not as a whole.
    #[inline(always)]
    pub fn set(&mut self, addr: &SocketAddr)
        ensures value { self.new ≡ c_address addr.now }
        // It is read again as it was.
        ensures again { socket_at self.new ≡ Some addr.now }
    {
        match addr {
            SocketAddr::V4(addr) => *self = address_of_v4(*addr),
            SocketAddr::V6(addr) => *self = address_of_v6(*addr),
        }
    }

    /// Becomes this IP address, with the port 0.
    pub fn set_ip(&mut self, ip: IpAddr)
        ensures { self.new ≡ address_of_ip ip }
    {
        self.set(&SocketAddr::new(ip, 0));
    }
}

/// No address.
pub fn no_address() -> Address
    ensures { result ≡ no_address }
{
    Address {
        ip: [0; 16],
        flow: 0,
        scope: 0,
        port: 0,
        family: NO_FAMILY,
        reserved: 0,
    }
}

fn address_of_v4(addr: SocketAddrV4) -> Address
    ensures value { result ≡ c_address (SocketAddr.V4 addr) }
    ensures again { socket_at result ≡ Some (SocketAddr.V4 addr) }
{
    let [a, b, c, d] = addr.ip().octets();
    Address {
        ip: [a, b, c, d, 0, 0, 0, 0, 0, 0, 0, 0, 0, 0, 0, 0],
        flow: 0,
        scope: 0,
        port: addr.port(),
        family: IPV4,
        reserved: 0,
    }
}

fn address_of_v6(addr: SocketAddrV6) -> Address
    ensures value { result ≡ c_address (SocketAddr.V6 addr) }
    ensures again { socket_at result ≡ Some (SocketAddr.V6 addr) }
{
    Address {
        ip: octets_of(*addr.ip()),
        flow: addr.flowinfo(),
        scope: addr.scope_id(),
        port: addr.port(),
        family: IPV6,
        reserved: 0,
    }
}

/// The bytes of an IPv6 address.
fn octets_of(ip: Ipv6Addr) -> [u8; 16]
    ensures octets { result ≡ ipv6_octets ip }
    ensures segments { IsIpv6Addr ip }
{
    let _segments = ip.segments();
    ip.octets()
}

/// The address of these numbers, or none if its family is neither 4 nor 6, or its reserved byte is not 0.
// In a caller that knows the family, one of the two is left.
#[inline(always)]
pub fn socket_at(address: &Address) -> Option<SocketAddr>
    ensures { result ≡ socket_at address.now }
{
    if address.reserved != 0 {
        return None;
    }
    let ip = &address.ip;
    match address.family {
        IPV4 => {
            let ip = Ipv4Addr::new(ip[0], ip[1], ip[2], ip[3]);
            Some(SocketAddr::V4(SocketAddrV4::new(ip, address.port)))
        }
        IPV6 => {
            let ip = Ipv6Addr::from_octets(*ip);
            let addr = SocketAddrV6::new(ip, address.port, address.flow, address.scope);
            Some(SocketAddr::V6(addr))
        }
        _ => None,
    }
}

/// The IP address of these numbers, whatever the port.
pub fn ip_at(address: &Address) -> Option<IpAddr>
    ensures { result ≡ ip_at address.now }
{
    Some(socket_at(address)?.ip())
}

/// The number of a transport.
pub fn transport_code(transport: TransportType) -> u32
    ensures value { result ≡ transport_code transport }
    ensures again { c_transport result ≡ Some transport }
{
    match transport {
        TransportType::Udp => UDP,
        TransportType::Tcp => TCP,
    }
}

/// The transport of this number, or none if it is neither 0 nor 1.
pub fn c_transport(code: u32) -> Option<TransportType>
    ensures { result ≡ c_transport code }
{
    match code {
        UDP => Some(TransportType::Udp),
        TCP => Some(TransportType::Tcp),
        _ => None,
    }
}

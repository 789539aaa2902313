//! Whether addresses are the same.

ghost use Rattle.std.specs.Prelude.{◌≡◌};
ghost use Rattle.turn_agent.specs.Agent.{same_address};
ghost use Rattle.turn_client_api.specs.Grants.{same_ip};

use std::net::{IpAddr, SocketAddr};

// A look-up compares the addresses of many grants with one whose family its caller mostly knows. So IPv4 addresses are compared
// here, inlined, and only the others by a call.

/// Whether these are the same IP address.
#[inline(always)]
pub(crate) fn is_same_ip(a: &IpAddr, b: &IpAddr) -> bool
    ensures { result ≡ same_ip a.now b.now }
{
    match (a, b) {
        (IpAddr::V4(a), IpAddr::V4(b)) => a == b,
        _ => a == b,
    }
}

/// Whether these are the same IP address and port, and over IPv6 the same flow information and scope.
#[inline(always)]
pub(crate) fn is_same_address(a: &SocketAddr, b: &SocketAddr) -> bool
    ensures { result ≡ same_address a.now b.now }
{
    match (a, b) {
        (SocketAddr::V4(a), SocketAddr::V4(b)) => a.ip() == b.ip() && a.port() == b.port(),
        _ => a == b,
    }
}

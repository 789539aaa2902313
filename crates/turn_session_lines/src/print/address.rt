//! Families, addresses and bytes, as `turn_lines` prints them.

ghost use Rattle.std.specs.Prelude.{◌≡◌, IfOk, string_bytes};
ghost use Rattle.turn_lines.specs.Text.{address_text, bytes_text, family_text, ip_text};

use std::alloc::{AllocError, Global};
use std::net::{IpAddr, SocketAddr};
use turn_types::AddressFamily;

/// `4` or `6`.
pub fn family_text(family: AddressFamily) -> &'static str
    ensures { result.now ≡ family_text family }
{
    match family {
        AddressFamily::IPV4 => "4",
        AddressFamily::IPV6 => "6",
    }
}

/// `a.b.c.d:port`, or `[32 digits]:port`.
pub fn address_text(alloc: Global, addr: SocketAddr) -> Result<String, AllocError>
    ensures { IfOk result (λ text. string_bytes text ≡ address_text addr) }
{
    match addr {
        SocketAddr::V4(addr) => addr.to_string(alloc),
        SocketAddr::V6(addr) => {
            let digits = hex::encode(alloc, addr.ip().octets().as_slice())?;
            let port = addr.port();
            format!(in alloc; "[{digits}]:{port}")
        }
    }
}

/// `a.b.c.d`, or `[32 digits]`.
pub fn ip_text(alloc: Global, ip: IpAddr) -> Result<String, AllocError>
    ensures { IfOk result (λ text. string_bytes text ≡ ip_text ip) }
{
    match ip {
        IpAddr::V4(ip) => ip.to_string(alloc),
        IpAddr::V6(ip) => {
            let digits = hex::encode(alloc, ip.octets().as_slice())?;
            format!(in alloc; "[{digits}]")
        }
    }
}

/// Lower-case hexadecimal, or `-` for no bytes.
pub fn bytes_text(alloc: Global, bytes: &[u8]) -> Result<String, AllocError>
    ensures { IfOk result (λ text. string_bytes text ≡ bytes_text bytes.now) }
{
    if bytes.is_empty() {
        return String::from_str(alloc, "-");
    }
    hex::encode(alloc, bytes)
}

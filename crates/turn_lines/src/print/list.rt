//! Lists of addresses as text.

ghost use Rattle.std.specs.Prelude.{◌≡◌, [], ◌∷◌, IfOk, string_bytes};
ghost use Rattle.turn_lines.specs.Text.{fields_text, ip_text, list_fields, relayed_fields};

use crate::print::field::{address_text, ip_text, transport_text};
use std::alloc::{AllocError, Global};
use std::net::{IpAddr, SocketAddr};
use turn_types::TransportType;

/// The number of relayed addresses, and each with its transport.
pub fn relayed_text(
    alloc: Global,
    relayed: &[(TransportType, SocketAddr)],
) -> Result<String, AllocError>
    ensures { IfOk result (λ text. string_bytes text ≡ fields_text (list_fields relayed_fields relayed.now)) }
{
    let count = relayed.len();
    let mut text = format!(in alloc; "list {count}")?;
    for address in relayed {
        let transport = transport_text(address.0);
        let address = address_text(alloc, address.1)?;
        let fields = format!(in alloc; " {transport} {address}")?;
        text.push_str(fields.as_str())?;
    }
    Ok(text)
}

/// The number of IP addresses, and each of them.
pub fn ips_text(alloc: Global, ips: &[IpAddr]) -> Result<String, AllocError>
    ensures { IfOk result (λ text. string_bytes text ≡ fields_text (list_fields (λ ip. ip_text ip ∷ []) ips.now)) }
{
    let count = ips.len();
    let mut text = format!(in alloc; "list {count}")?;
    for ip in ips {
        text.push(' ')?;
        text.push_str(ip_text(alloc, *ip)?.as_str())?;
    }
    Ok(text)
}

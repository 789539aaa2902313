//! Events as text.

ghost use Rattle.std.specs.Prelude.{◌≡◌, [], ◌∷◌, IfOk, string_bytes};
ghost use Rattle.turn_lines.specs.Text.{address_text, event_fields, fields_text, ip_text, transport_text};

use crate::print::field::{address_text, family_text, ip_text, transport_text};
use std::alloc::{AllocError, Global};
use std::net::{IpAddr, SocketAddr};
use turn_client_api::TurnEvent;
use turn_types::TransportType;

/// The event, and its address.
pub fn event_text(alloc: Global, event: &TurnEvent) -> Result<String, AllocError>
    ensures { IfOk result (λ text. string_bytes text ≡ fields_text (event_fields event.now)) }
{
    match event {
        TurnEvent::AllocationCreated(transport, relayed) => {
            address_event(alloc, "allocated", *transport, *relayed)
        }
        TurnEvent::AllocationCreateFailed(family) => {
            let family = family_text(*family);
            format!(in alloc; "allocate-failed {family}")
        }
        TurnEvent::PermissionCreated(transport, peer) => {
            ip_event(alloc, "permitted", *transport, *peer)
        }
        TurnEvent::PermissionCreateFailed(transport, peer) => {
            ip_event(alloc, "permit-failed", *transport, *peer)
        }
        TurnEvent::ChannelCreated(transport, peer) => {
            address_event(alloc, "bound", *transport, *peer)
        }
        TurnEvent::ChannelCreateFailed(transport, peer) => {
            address_event(alloc, "bind-failed", *transport, *peer)
        }
        TurnEvent::TcpConnected(peer) => {
            let peer = address_text(alloc, *peer)?;
            format!(in alloc; "connected {peer}")
        }
        TurnEvent::TcpConnectFailed(peer) => {
            let peer = address_text(alloc, *peer)?;
            format!(in alloc; "connect-failed {peer}")
        }
    }
}

fn address_event(
    alloc: Global,
    word: &str,
    transport: TransportType,
    addr: SocketAddr,
) -> Result<String, AllocError>
    ensures { IfOk result (λ text. string_bytes text ≡ fields_text (word.now ∷ transport_text transport ∷ address_text addr ∷ [])) }
{
    let transport = transport_text(transport);
    let addr = address_text(alloc, addr)?;
    format!(in alloc; "{word} {transport} {addr}")
}

fn ip_event(
    alloc: Global,
    word: &str,
    transport: TransportType,
    ip: IpAddr,
) -> Result<String, AllocError>
    ensures { IfOk result (λ text. string_bytes text ≡ fields_text (word.now ∷ transport_text transport ∷ ip_text ip ∷ [])) }
{
    let transport = transport_text(transport);
    let ip = ip_text(alloc, ip)?;
    format!(in alloc; "{word} {transport} {ip}")
}

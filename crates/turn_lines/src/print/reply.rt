//! The answer of a call as text.

ghost use Rattle.std.specs.Prelude.{◌≡◌, IfOk, string_bytes};
ghost use Rattle.turn_client_calls.specs.declared.reply.PeerData.{PeerData};
ghost use Rattle.turn_lines.specs.Text.{data_fields, fields_text, icmp_fields, packet_fields, refusal_fields};
ghost use Rattle.turn_lines.specs.Text.{reply_fields, yes_or_no};

use crate::print::event::event_text;
use crate::print::field::{address_text, bytes_text, transport_text};
use crate::print::list::{ips_text, relayed_text};
use crate::print::poll::poll_text;
use std::alloc::{AllocError, Global};
use std::net::SocketAddr;
use turn_client_calls::{PeerData, Refusal, Reply};
use turn_stun::data::Data;
use turn_stun::transport::{Transmit, TransportType};

/// The answer of a call.
pub fn reply_text(alloc: Global, reply: &Reply) -> Result<String, AllocError>
    ensures { IfOk result (λ text. string_bytes text ≡ fields_text (reply_fields reply.now)) }
{
    match reply {
        Reply::Poll(polled) => poll_text(alloc, polled),
        Reply::Transmit(None) | Reply::Event(None) | Reply::NoData => {
            String::from_str(alloc, "none")
        }
        Reply::Transmit(Some(packet)) | Reply::SendTo(Ok(packet)) => packet_text(alloc, packet),
        Reply::Event(Some(event)) => event_text(alloc, event),
        Reply::Handled => String::from_str(alloc, "handled"),
        Reply::Ignored => String::from_str(alloc, "ignored"),
        Reply::PeerData(sent) => data_text(alloc, sent),
        Reply::PeerIcmp {
            transport,
            peer,
            icmp_type,
            icmp_code,
            icmp_data,
        } => icmp_text(alloc, *transport, *peer, *icmp_type, *icmp_code, *icmp_data),
        Reply::SendTo(Err(error)) => refusal_text(alloc, Refusal::from(*error)),
        Reply::CreatePermission(Err(error)) => refusal_text(alloc, Refusal::from(*error)),
        Reply::BindChannel(Err(error)) => refusal_text(alloc, Refusal::from(*error)),
        Reply::TcpConnect(Err(error)) => refusal_text(alloc, Refusal::from(*error)),
        Reply::AllocatedTcpSocket(Err(error)) => refusal_text(alloc, Refusal::from(*error)),
        Reply::Delete(Err(error)) => refusal_text(alloc, Refusal::from(*error)),
        Reply::SetPermissionKept(Err(error)) => refusal_text(alloc, Refusal::from(*error)),
        Reply::SetChannelKept(Err(error)) => refusal_text(alloc, Refusal::from(*error)),
        Reply::CreatePermission(Ok(()))
        | Reply::BindChannel(Ok(()))
        | Reply::TcpConnect(Ok(()))
        | Reply::AllocatedTcpSocket(Ok(()))
        | Reply::Delete(Ok(()))
        | Reply::SetPermissionKept(Ok(()))
        | Reply::SetChannelKept(Ok(()))
        | Reply::Done => String::from_str(alloc, "ok"),
        Reply::RelayedAddresses(relayed) => relayed_text(alloc, relayed.as_slice()),
        Reply::Permissions(ips) => ips_text(alloc, ips.as_slice()),
        Reply::HavePermission(found) => String::from_str(alloc, yes_or_no(*found)),
    }
}

fn packet_text(alloc: Global, packet: &Transmit<Data>) -> Result<String, AllocError>
    ensures { IfOk result (λ text. string_bytes text ≡ fields_text (packet_fields packet.now)) }
{
    let transport = transport_text(packet.transport);
    let from = address_text(alloc, packet.from)?;
    let to = address_text(alloc, packet.to)?;
    let payload = bytes_text(alloc, packet.payload.as_bytes())?;
    format!(in alloc; "send {transport} {from} {to} {payload}")
}

fn data_text(alloc: Global, sent: &PeerData) -> Result<String, AllocError>
    ensures { IfOk result (λ text. string_bytes text ≡ fields_text (data_fields sent.now)) }
{
    let transport = transport_text(sent.transport);
    let peer = address_text(alloc, sent.peer)?;
    let data = bytes_text(alloc, sent.data.as_bytes())?;
    format!(in alloc; "data {transport} {peer} {data}")
}

fn icmp_text(
    alloc: Global,
    transport: TransportType,
    peer: SocketAddr,
    icmp_type: u8,
    icmp_code: u8,
    icmp_data: u32,
) -> Result<String, AllocError>
    ensures { IfOk result (λ text. string_bytes text ≡ fields_text (icmp_fields transport peer icmp_type icmp_code icmp_data)) }
{
    let transport = transport_text(transport);
    let peer = address_text(alloc, peer)?;
    format!(in alloc; "icmp {transport} {peer} {icmp_type} {icmp_code} {icmp_data}")
}

fn refusal_text(alloc: Global, refusal: Refusal) -> Result<String, AllocError>
    ensures { IfOk result (λ text. string_bytes text ≡ fields_text (refusal_fields refusal)) }
{
    match refusal {
        Refusal::AlreadyExists => String::from_str(alloc, "refused already-exists"),
        Refusal::NoAllocation => String::from_str(alloc, "refused no-allocation"),
        Refusal::NoPermission => String::from_str(alloc, "refused no-permission"),
        Refusal::NoSocket => String::from_str(alloc, "refused no-socket"),
        Refusal::Expired(until) => {
            let nanos = until.as_nanos();
            format!(in alloc; "refused expired {nanos}")
        }
        Refusal::NotGranted => String::from_str(alloc, "refused not-granted"),
        Refusal::OutOfMemory => String::from_str(alloc, "refused no-memory"),
    }
}

fn yes_or_no(found: bool) -> &'static str
    ensures { result.now ≡ yes_or_no found }
{
    if found { "yes" } else { "no" }
}

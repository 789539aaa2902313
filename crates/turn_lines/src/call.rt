//! A line of a trace that is a call.

ghost use Rattle.std.specs.Prelude.{◌≡◌, Some, None, MatchOption};
ghost use Rattle.turn_client_api.specs.declared.call.Call.{Call};
ghost use Rattle.turn_lines.specs.Call.{call_of, call_with, has_short_payload, instant_of, name_of};
ghost use Rattle.turn_lines.specs.Call.{have_of, is_short, kept_call, permissions_call, without_arguments};
ghost use Rattle.turn_lines.specs.Call.{kept_of};
ghost use Rattle.turn_lines.specs.Fault.{Reads};
ghost use Rattle.turn_lines.specs.Field.{Gives};
ghost use Rattle.turn_lines.specs.Parts.{next};

use crate::call::arguments::{
    Grantee, take_data_ends, take_one_address, take_packet, take_sending,
    take_transport_and_address, take_transport_and_grantee, take_transport_and_ip, take_tuple,
    take_two_addresses,
};
use crate::call::name::{CallName, parse_name};
use crate::fault::{BadKind, ReadError};
use crate::field::FieldError;
use crate::number::parse_decimal;
use crate::parts::Parts;
use std::alloc::Global;
use turn_client_calls::Call;
use turn_stun::instant::Instant;
use turn_types::TransportType;

mod arguments;
mod name;

/// The largest time of a trace, in nanoseconds: 2^62.
const GREATEST_MOMENT: u64 = 0x4000_0000_0000_0000;

/// The maximum length of the data of a `send` if the allocation is over UDP, in bytes: what fits into one
/// packet to the server.
const MAX_PAYLOAD: usize = 65_504;

/// The call of a line: its time, its name and its arguments. The client's allocation is over `relays`.
///
/// # Errors
///
/// The first of these: `Time` if the first field is not a time, `Call` if the second is not the name of a
/// call, `Argument` if the other fields are not the arguments of that call, `Payload` if it is a `send` of
/// too many bytes for an allocation over UDP. `OutOfMemory` if memory allocation for the bytes of a `recv`
/// or `send` failed.
#[tactic(auto, unfolding(crate::specs::Call::call_of))]
pub fn parse_call(
    alloc: Global,
    relays: TransportType,
    line: &[u8],
) -> Result<Call, ReadError<BadKind>>
    ensures { Reads (λ call. call) result (call_of relays line.now) }
{
    let mut fields = Parts::new(line, b' ');
    let now = take_instant(&mut fields).ok_or(ReadError::Bad(BadKind::Time))?;
    let name = take_name(&mut fields).ok_or(ReadError::Bad(BadKind::Call))?;
    match take_arguments(alloc, name, now, &mut fields) {
        Ok(call) => {
            if has_short_payload(relays, &call) {
                Ok(call)
            } else {
                Err(ReadError::Bad(BadKind::Payload))
            }
        }
        Err(FieldError::Malformed) => Err(ReadError::Bad(BadKind::Argument)),
        Err(FieldError::OutOfMemory) => Err(ReadError::OutOfMemory),
    }
}

fn take_instant(fields: &mut Parts<'_>) -> Option<Instant>
    ensures { MatchOption result (next instant_of fields.old ≡ None) (λ now. next instant_of fields.old ≡ Some (now, fields.new)) }
{
    let nanos = parse_decimal(fields.next()?, GREATEST_MOMENT)?;
    Some(Instant::from_nanos(nanos))
}

fn take_name(fields: &mut Parts<'_>) -> Option<CallName>
    ensures { MatchOption result (next name_of fields.old ≡ None) (λ name. next name_of fields.old ≡ Some (name, fields.new)) }
{
    parse_name(fields.next()?)
}

/// Whether the call is not a `send` of too many bytes for an allocation over this transport.
fn has_short_payload(relays: TransportType, call: &Call) -> bool
    ensures { result ≡ has_short_payload relays call.now }
{
    match call {
        Call::SendTo { data, .. } => is_short(relays, data.as_bytes()),
        _ => true,
    }
}

/// Whether an allocation over this transport takes these bytes in one packet.
fn is_short(relays: TransportType, payload: &[u8]) -> bool
    ensures { result ≡ is_short relays payload.now }
{
    match relays {
        TransportType::Udp => payload.len() <= MAX_PAYLOAD,
        TransportType::Tcp => true,
    }
}

/// Parses the other fields of a call.
fn take_arguments(
    alloc: Global,
    name: CallName,
    now: Instant,
    fields: &mut Parts<'_>,
) -> Result<Call, FieldError>
    ensures { Gives (λ call. call) result (call_with now name fields.old) }
{
    match name {
        CallName::Poll => alone(fields, Call::Poll { now }),
        CallName::Transmit => alone(fields, Call::PollTransmit { now }),
        CallName::Event => alone(fields, Call::PollEvent),
        CallName::Recv => take_recv(alloc, now, fields),
        CallName::PollRecv => alone(fields, Call::PollRecv { now }),
        CallName::Send => take_send(alloc, now, fields),
        CallName::Permit => take_permit(now, fields),
        CallName::Bind => take_bind(now, fields),
        CallName::Connect => take_connect(now, fields),
        CallName::Socket => take_socket(now, fields),
        CallName::Delete => alone(fields, Call::Delete { now }),
        CallName::Closed => take_closed(now, fields),
        CallName::Error => alone(fields, Call::ProtocolError),
        CallName::Relayed => alone(fields, Call::RelayedAddresses),
        CallName::Permissions => take_permissions(fields),
        CallName::Have => take_have(fields),
        CallName::Release => take_kept(false, fields),
        CallName::Keep => take_kept(true, fields),
    }
}

/// A call that has no arguments.
fn alone(fields: &Parts<'_>, call: Call) -> Result<Call, FieldError>
    ensures { Gives (λ call. call) result (without_arguments call fields.now) }
{
    fields.end().ok_or(FieldError::Malformed)?;
    Ok(call)
}

fn take_recv(alloc: Global, now: Instant, fields: &mut Parts<'_>) -> Result<Call, FieldError>
    ensures { Gives (λ call. call) result (call_with now CallName.Recv fields.old) }
{
    let transmit = take_packet(alloc, fields)?;
    Ok(Call::Recv { transmit, now })
}

fn take_send(alloc: Global, now: Instant, fields: &mut Parts<'_>) -> Result<Call, FieldError>
    ensures { Gives (λ call. call) result (call_with now CallName.Send fields.old) }
{
    let (transport, to, data) = take_sending(alloc, fields)?;
    Ok(Call::SendTo {
        transport,
        to,
        data,
        now,
    })
}

fn take_permit(now: Instant, fields: &mut Parts<'_>) -> Result<Call, FieldError>
    ensures { Gives (λ call. call) result (call_with now CallName.Permit fields.old) }
{
    let (transport, peer_addr) = take_transport_and_ip(fields).ok_or(FieldError::Malformed)?;
    Ok(Call::CreatePermission {
        transport,
        peer_addr,
        now,
    })
}

fn take_bind(now: Instant, fields: &mut Parts<'_>) -> Result<Call, FieldError>
    ensures { Gives (λ call. call) result (call_with now CallName.Bind fields.old) }
{
    let (transport, peer_addr) = take_transport_and_address(fields).ok_or(FieldError::Malformed)?;
    Ok(Call::BindChannel {
        transport,
        peer_addr,
        now,
    })
}

fn take_connect(now: Instant, fields: &mut Parts<'_>) -> Result<Call, FieldError>
    ensures { Gives (λ call. call) result (call_with now CallName.Connect fields.old) }
{
    let peer_addr = take_one_address(fields).ok_or(FieldError::Malformed)?;
    Ok(Call::TcpConnect { peer_addr, now })
}

fn take_socket(now: Instant, fields: &mut Parts<'_>) -> Result<Call, FieldError>
    ensures { Gives (λ call. call) result (call_with now CallName.Socket fields.old) }
{
    let (id, five_tuple) = take_tuple(fields).ok_or(FieldError::Malformed)?;
    let (peer_addr, local_addr) = take_data_ends(fields).ok_or(FieldError::Malformed)?;
    Ok(Call::AllocatedTcpSocket {
        id,
        five_tuple,
        peer_addr,
        local_addr,
        now,
    })
}

fn take_closed(now: Instant, fields: &mut Parts<'_>) -> Result<Call, FieldError>
    ensures { Gives (λ call. call) result (call_with now CallName.Closed fields.old) }
{
    let (local_addr, remote_addr) = take_two_addresses(fields).ok_or(FieldError::Malformed)?;
    Ok(Call::TcpClosed {
        local_addr,
        remote_addr,
        now,
    })
}

fn take_permissions(fields: &mut Parts<'_>) -> Result<Call, FieldError>
    ensures { Gives (λ call. call) result (permissions_call fields.old) }
{
    let (transport, relayed) = take_transport_and_address(fields).ok_or(FieldError::Malformed)?;
    Ok(Call::Permissions { transport, relayed })
}

fn take_have(fields: &mut Parts<'_>) -> Result<Call, FieldError>
    ensures { Gives (λ call. call) result (have_of fields.old) }
{
    let (transport, to) = take_transport_and_ip(fields).ok_or(FieldError::Malformed)?;
    Ok(Call::HavePermission { transport, to })
}

/// A permission or a channel, and whether it is kept from now on.
fn take_kept(is_kept: bool, fields: &mut Parts<'_>) -> Result<Call, FieldError>
    ensures { Gives (λ call. call) result (kept_of is_kept fields.old) }
{
    let (transport, grantee) = take_transport_and_grantee(fields).ok_or(FieldError::Malformed)?;
    Ok(kept_call(is_kept, transport, grantee))
}

/// The call that says whether this grant is kept.
fn kept_call(is_kept: bool, transport: TransportType, grantee: Grantee) -> Call
    ensures { result ≡ kept_call is_kept transport grantee }
{
    match grantee {
        Grantee::Ip(peer_addr) => Call::SetPermissionKept {
            transport,
            peer_addr,
            is_kept,
        },
        Grantee::Peer(peer_addr) => Call::SetChannelKept {
            transport,
            peer_addr,
            is_kept,
        },
    }
}

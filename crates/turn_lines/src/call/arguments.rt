//! The fields after the name of a call.

ghost use Rattle.std.specs.Prelude.{◌≡◌, Some, None, MatchOption};
ghost use Rattle.turn_lines.specs.Arguments.{address_if_any, data_ends_of, grantee_of, one_address_of, packet_of, sending_of};
ghost use Rattle.turn_lines.specs.Arguments.{transport_and_address_of, transport_and_grantee_of, transport_and_ip_of, tuple_of, two_addresses_of};
ghost use Rattle.turn_lines.specs.Arguments.{way_of};
ghost use Rattle.turn_lines.specs.Field.{Gives};

use crate::address::{parse_address, parse_ip};
use crate::field::{FieldError, parse_bytes, parse_transport};
use crate::number::parse_decimal;
use crate::parts::Parts;
use std::alloc::Global;
use std::net::{IpAddr, SocketAddr};
use turn_client_api::Socket5Tuple;
use turn_stun::data::Data;
use turn_stun::transport::{Transmit, TransportType};

/// Whose grant a line names.
#[derive(Clone, Copy, Debug, PartialEq, Eq)]
pub enum Grantee {
    /// All ports of this IP address: the grant is a permission (RFC 8656, section 9).
    Ip(IpAddr),
    /// This address and port: the grant is a channel (RFC 8656, section 12).
    Peer(SocketAddr),
}

/// A packet: its transport, source, destination and bytes.
#[tactic(auto, unfolding(crate::specs::Arguments::packet_of))]
pub fn take_packet(alloc: Global, fields: &mut Parts<'_>) -> Result<Transmit<Data>, FieldError>
    ensures { Gives (λ packet. packet) result (packet_of fields.old) }
{
    let (transport, from, to) = take_way(fields).ok_or(FieldError::Malformed)?;
    let payload = parse_bytes(alloc, fields.next().ok_or(FieldError::Malformed)?)?;
    fields.end().ok_or(FieldError::Malformed)?;
    Ok(Transmit::new(Data::from(payload), transport, from, to))
}

/// Data for a peer: the transport between server and peer, the peer, and the bytes.
#[tactic(auto, unfolding(crate::specs::Arguments::sending_of))]
pub fn take_sending(
    alloc: Global,
    fields: &mut Parts<'_>,
) -> Result<(TransportType, SocketAddr, Data), FieldError>
    ensures { Gives (λ sending. sending) result (sending_of fields.old) }
{
    let transport_text = fields.next().ok_or(FieldError::Malformed)?;
    let transport = parse_transport(transport_text).ok_or(FieldError::Malformed)?;
    let address_text = fields.next().ok_or(FieldError::Malformed)?;
    let to = parse_address(address_text).ok_or(FieldError::Malformed)?;
    let payload = parse_bytes(alloc, fields.next().ok_or(FieldError::Malformed)?)?;
    fields.end().ok_or(FieldError::Malformed)?;
    Ok((transport, to, Data::from(payload)))
}

/// A transport and an IP address, and nothing else.
#[tactic(auto, unfolding(crate::specs::Arguments::transport_and_ip_of))]
pub fn take_transport_and_ip(fields: &mut Parts<'_>) -> Option<(TransportType, IpAddr)>
    ensures { result ≡ transport_and_ip_of fields.old }
{
    let transport = parse_transport(fields.next()?)?;
    let ip = parse_ip(fields.next()?)?;
    fields.end()?;
    Some((transport, ip))
}

/// A transport and an address, and nothing else.
#[tactic(auto, unfolding(crate::specs::Arguments::transport_and_address_of))]
pub fn take_transport_and_address(fields: &mut Parts<'_>) -> Option<(TransportType, SocketAddr)>
    ensures { result ≡ transport_and_address_of fields.old }
{
    let transport = parse_transport(fields.next()?)?;
    let address = parse_address(fields.next()?)?;
    fields.end()?;
    Some((transport, address))
}

/// A transport, and an address with or without a port, and nothing else.
#[tactic(auto, unfolding(crate::specs::Arguments::transport_and_grantee_of))]
pub fn take_transport_and_grantee(fields: &mut Parts<'_>) -> Option<(TransportType, Grantee)>
    ensures { result ≡ transport_and_grantee_of fields.old }
{
    let transport = parse_transport(fields.next()?)?;
    let grantee = parse_grantee(fields.next()?)?;
    fields.end()?;
    Some((transport, grantee))
}

/// With a port a peer, without one an IP address.
fn parse_grantee(text: &[u8]) -> Option<Grantee>
    ensures { result ≡ grantee_of text.now }
{
    match parse_address(text) {
        Some(peer) => Some(Grantee::Peer(peer)),
        None => Some(Grantee::Ip(parse_ip(text)?)),
    }
}

/// An address, and nothing else.
#[tactic(auto, unfolding(crate::specs::Arguments::one_address_of))]
pub fn take_one_address(fields: &mut Parts<'_>) -> Option<SocketAddr>
    ensures { result ≡ one_address_of fields.old }
{
    let address = parse_address(fields.next()?)?;
    fields.end()?;
    Some(address)
}

/// Two addresses, and nothing else.
#[tactic(auto, unfolding(crate::specs::Arguments::two_addresses_of))]
pub fn take_two_addresses(fields: &mut Parts<'_>) -> Option<(SocketAddr, SocketAddr)>
    ensures { result ≡ two_addresses_of fields.old }
{
    let local = parse_address(fields.next()?)?;
    let remote = parse_address(fields.next()?)?;
    fields.end()?;
    Some((local, remote))
}

/// The server's number of a connection (CONNECTION-ID), and the control connection.
#[tactic(auto, unfolding(crate::specs::Arguments::tuple_of))]
pub fn take_tuple(fields: &mut Parts<'_>) -> Option<(u32, Socket5Tuple)>
    ensures { MatchOption result (tuple_of fields.old ≡ None) (λ tuple. tuple_of fields.old ≡ Some (tuple, fields.new)) }
{
    let id = parse_decimal(fields.next()?, 0xffff_ffff)? as u32;
    let (transport, from, to) = take_way(fields)?;
    let five_tuple = Socket5Tuple {
        transport,
        from,
        to,
    };
    Some((id, five_tuple))
}

/// The peer of a data connection and its local end, or `-` for none, and nothing else.
#[tactic(auto, unfolding(crate::specs::Arguments::data_ends_of))]
pub fn take_data_ends(fields: &mut Parts<'_>) -> Option<(SocketAddr, Option<SocketAddr>)>
    ensures { result ≡ data_ends_of fields.old }
{
    let peer = parse_address(fields.next()?)?;
    let local = parse_address_if_any(fields.next()?)?;
    fields.end()?;
    Some((peer, local))
}

/// An address, or `-` for none.
fn parse_address_if_any(text: &[u8]) -> Option<Option<SocketAddr>>
    ensures { result ≡ address_if_any text.now }
{
    if text == b"-".as_slice() {
        return Some(None);
    }
    Some(Some(parse_address(text)?))
}

/// The transport, source and destination of a packet.
#[tactic(auto, unfolding(crate::specs::Arguments::way_of))]
fn take_way(fields: &mut Parts<'_>) -> Option<(TransportType, SocketAddr, SocketAddr)>
    ensures { MatchOption result (way_of fields.old ≡ None) (λ way. way_of fields.old ≡ Some (way, fields.new)) }
{
    let transport = parse_transport(fields.next()?)?;
    let from = parse_address(fields.next()?)?;
    let to = parse_address(fields.next()?)?;
    Some((transport, from, to))
}

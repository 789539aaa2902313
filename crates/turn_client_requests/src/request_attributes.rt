//! The attributes of each request.

ghost use Rattle.std.specs.Prelude.{◌≡◌, ◌≤◌, ◌+◌, length, true, OnOk};
ghost use Rattle.turn_stun.specs.Message.{attributes_of};
ghost use Rattle.turn_auth.specs.Signature.{AddsAll, additions_len, is_unsigned};
ghost use Rattle.turn_client_api.specs.Requests.{family_attributes, method_for, without_port};
ghost use Rattle.turn_client_requests.specs.RequestAttributes.{AddsAsked, IsAskedLen};

use crate::write::len_of;
use std::alloc::AllocError;
use std::net::{IpAddr, SocketAddr, SocketAddrV4, SocketAddrV6};
use turn_auth::write::add;
use turn_client_api::Purpose;
use turn_stun::message::method::Method;
use turn_stun::message::write::MessageWriteVec;
use turn_stun::transport::TransportType;
use turn_types::AddressFamily;
use turn_types::attribute::{
    AdditionalAddressFamily, ChannelNumber, ConnectionId, Lifetime, RequestedAddressFamily,
    RequestedTransport, XorPeerAddress,
};
use turn_types::message::{
    ALLOCATE, CHANNEL_BIND, CONNECT, CONNECTION_BIND, CREATE_PERMISSION, REFRESH,
};

/// The requested lifetime of an allocation, in seconds (our choice: RFC 8656, section 7.2, lets a server
/// grant up to an hour, and ten minutes are its default).
pub(crate) const LIFETIME_SECONDS: u32 = 1_800;

/// The method of a request for this purpose.
pub(crate) fn method_for(purpose: &Purpose) -> Method
    ensures { result.value ≡ method_for purpose.now }
{
    match purpose {
        Purpose::ForAllocation => ALLOCATE,
        Purpose::ForRefresh(_, _) => REFRESH,
        Purpose::ForPermission(_) => CREATE_PERMISSION,
        Purpose::ForChannel(_, _) => CHANNEL_BIND,
        Purpose::ForConnect(_) => CONNECT,
        Purpose::ForBind(_, _, _) => CONNECTION_BIND,
    }
}

/// Adds to a header the attributes of a request for this purpose.
pub(crate) fn add_asked(
    message: &mut MessageWriteVec,
    transport: TransportType,
    families: &[AddressFamily],
    purpose: &Purpose,
) -> Result<(), AllocError>
    requires { length message.old ≤ 20 }
    ensures all { OnOk result (AddsAsked transport families.now purpose.now message.old message.new) }
    ensures unsigned { OnOk result (is_unsigned (attributes_of message.old) ≡ true → is_unsigned (attributes_of message.new) ≡ true) }
    ensures short { OnOk result (length message.new ≤ 200) }
{
    match *purpose {
        Purpose::ForAllocation => {
            add(message, &RequestedTransport::new(transport))?;
            add(message, &Lifetime::new(LIFETIME_SECONDS))?;
            add_families(message, families)
        }
        Purpose::ForRefresh(_, lifetime) => add(message, &Lifetime::new(lifetime)),
        Purpose::ForPermission(ip) => add(message, &XorPeerAddress::new(without_port(ip))),
        Purpose::ForChannel(number, peer) => {
            add(message, &ChannelNumber::new(number))?;
            add(message, &XorPeerAddress::new(peer))
        }
        Purpose::ForConnect(peer) => add(message, &XorPeerAddress::new(peer)),
        Purpose::ForBind(_, _, connection_id) => add(message, &ConnectionId::new(connection_id)),
    }
}

/// How many bytes `add_asked` adds for these.
pub(crate) fn asked_len(
    transport: TransportType,
    families: &[AddressFamily],
    purpose: &Purpose,
) -> usize
    ensures exact { IsAskedLen transport families.now purpose.now result }
    ensures short { result ≤ 100 }
{
    match *purpose {
        Purpose::ForAllocation => {
            len_of(&RequestedTransport::new(transport))
                + len_of(&Lifetime::new(LIFETIME_SECONDS))
                + families_len(families)
        }
        Purpose::ForRefresh(_, lifetime) => len_of(&Lifetime::new(lifetime)),
        Purpose::ForPermission(ip) => len_of(&XorPeerAddress::new(without_port(ip))),
        Purpose::ForChannel(number, peer) => {
            len_of(&ChannelNumber::new(number)) + len_of(&XorPeerAddress::new(peer))
        }
        Purpose::ForConnect(peer) => len_of(&XorPeerAddress::new(peer)),
        Purpose::ForBind(_, _, connection_id) => len_of(&ConnectionId::new(connection_id)),
    }
}

/// How many bytes `add_families` adds for these.
pub(crate) fn families_len(families: &[AddressFamily]) -> usize
    ensures exact { additions_len (family_attributes families.now) ≡ result }
    ensures short { result ≤ 8 }
{
    match families {
        [AddressFamily::IPV6] => len_of(&RequestedAddressFamily::new(AddressFamily::IPV6)),
        [_, _, ..] => len_of(&AdditionalAddressFamily::new(AddressFamily::IPV6)),
        _ => 0,
    }
}

/// Adds the requested address families: an IPv6 one in addition to the IPv4 one, an IPv6 one alone, or
/// nothing, which means IPv4 (RFC 8656, section 7.1).
pub(crate) fn add_families(
    message: &mut MessageWriteVec,
    families: &[AddressFamily],
) -> Result<(), AllocError>
    requires { length message.old ≤ 100 }
    ensures all { OnOk result (AddsAll message.old message.new (family_attributes families.now)) }
    ensures short { OnOk result (length message.new ≤ length message.old + 8) }
{
    match families {
        [AddressFamily::IPV6] => add(message, &RequestedAddressFamily::new(AddressFamily::IPV6)),
        [_, _, ..] => add(message, &AdditionalAddressFamily::new(AddressFamily::IPV6)),
        _ => Ok(()),
    }
}

/// The IP address with the port 0, as in a CREATE_PERMISSION (RFC 8656, section 10.1).
fn without_port(ip: IpAddr) -> SocketAddr
    ensures { result ≡ without_port ip }
{
    match ip {
        IpAddr::V4(ip) => SocketAddr::V4(SocketAddrV4::new(ip, 0)),
        IpAddr::V6(ip) => SocketAddr::V6(SocketAddrV6::new(ip, 0, 0, 0)),
    }
}

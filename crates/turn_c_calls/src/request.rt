//! A request of a C program, and which call of a client it is.

ghost use Rattle.std.specs.Prelude.{◌≡◌, ◌^◌, ◌≤◌, IfSome};
ghost use Rattle.std.specs.Option.{option_map};
ghost use Rattle.turn_c_calls.specs.Judge.{IsPossible};
ghost use Rattle.turn_c_calls.specs.Operation.{Plain};
ghost use Rattle.turn_c_calls.specs.Request.{is_kept_of, kind_in, kind_of, local_at, operation_with, peer_ip_of, peer_of, relayed_of, time_of, c_tuple};

use crate::address::{Address, c_transport, ip_at, socket_at};
use crate::code::{
    ALLOCATED_TCP_SOCKET, BIND_CHANNEL, CREATE_PERMISSION, DELETE, HAVE_PERMISSION, NO_FAMILY,
    PERMISSIONS, POLL, POLL_EVENT, POLL_RECV, POLL_TRANSMIT, PROTOCOL_ERROR, READ, RECV,
    RELAYED_ADDRESSES, SEND_TO, SET_CHANNEL_KEPT, SET_PERMISSION_KEPT, TCP_CLOSED, TCP_CONNECT,
};
use std::net::{IpAddr, SocketAddr};
use turn_client_api::{Call, Socket5Tuple};
use turn_stun::instant::Instant;
use turn_stun::transport::TransportType;

/// The latest time, in nanoseconds: 2^62.
const MAX_TIME: u64 = 0x4000_0000_0000_0000;

/// A call of a client as a C program makes it. [`code`](crate::code) says which fields each kind uses; the others are not
/// read.
#[derive(Clone, Copy, Debug, PartialEq, Eq)]
#[repr(C)]
pub struct Request {
    /// The time of the call, in nanoseconds.
    pub time: u64,
    /// The kind of the request.
    pub kind: u32,
    /// The number of an offer, an index, or whether something is kept.
    pub id: u32,
    /// A transport.
    pub transport: u32,
    /// 0.
    pub reserved: u32,
    /// A source, the local address of a connection, or a relayed address.
    pub from: Address,
    /// A destination, or the server's address of a connection.
    pub to: Address,
    /// A peer.
    pub peer: Address,
    /// The local address of a data connection that was opened.
    pub local: Address,
}

/// The kind of a request.
#[derive(Clone, Copy, Debug, PartialEq, Eq)]
pub enum Kind {
    /// `delete`.
    Delete,
    /// `create_permission`.
    CreatePermission,
    /// `bind_channel`.
    BindChannel,
    /// `tcp_connect`.
    TcpConnect,
    /// `allocated_tcp_socket`.
    AllocatedTcpSocket,
    /// `tcp_closed`.
    TcpClosed,
    /// `send_to`.
    SendTo,
    /// `recv`.
    Recv,
    /// `poll_recv`.
    PollRecv,
    /// `poll`.
    Poll,
    /// `poll_transmit`.
    PollTransmit,
    /// `poll_event`.
    PollEvent,
    /// `protocol_error`.
    ProtocolError,
    /// `relayed_addresses`.
    RelayedAddresses,
    /// `permissions`.
    Permissions,
    /// `have_permission`.
    HavePermission,
    /// No call: the next bytes.
    Read,
    /// `set_permission_kept`.
    SetPermissionKept,
    /// `set_channel_kept`.
    SetChannelKept,
}

/// The time, or none if it is over 2^62 nanoseconds.
pub fn time_of(nanos: u64) -> Option<Instant>
    ensures value { result ≡ time_of nanos }
    ensures low { IfSome result (λ now. now ≤ 2 ^ 62) }
{
    if nanos <= MAX_TIME {
        Some(Instant::from_nanos(nanos))
    } else {
        None
    }
}

/// The kind of a request, or none if there is no such kind, or if its reserved place is not 0.
pub fn kind_in(request: &Request) -> Option<Kind>
    ensures { result ≡ kind_in request.now }
{
    if request.reserved != 0 {
        return None;
    }
    kind_of(request.kind)
}

/// The kind of this number, or none if it names no call.
#[inline(always)]
pub fn kind_of(code: u32) -> Option<Kind>
    ensures { result ≡ kind_of code }
{
    match code {
        DELETE => Some(Kind::Delete),
        CREATE_PERMISSION => Some(Kind::CreatePermission),
        BIND_CHANNEL => Some(Kind::BindChannel),
        TCP_CONNECT => Some(Kind::TcpConnect),
        ALLOCATED_TCP_SOCKET => Some(Kind::AllocatedTcpSocket),
        TCP_CLOSED => Some(Kind::TcpClosed),
        SEND_TO => Some(Kind::SendTo),
        RECV => Some(Kind::Recv),
        POLL_RECV => Some(Kind::PollRecv),
        POLL => Some(Kind::Poll),
        POLL_TRANSMIT => Some(Kind::PollTransmit),
        POLL_EVENT => Some(Kind::PollEvent),
        PROTOCOL_ERROR => Some(Kind::ProtocolError),
        RELAYED_ADDRESSES => Some(Kind::RelayedAddresses),
        PERMISSIONS => Some(Kind::Permissions),
        HAVE_PERMISSION => Some(Kind::HavePermission),
        READ => Some(Kind::Read),
        SET_PERMISSION_KEPT => Some(Kind::SetPermissionKept),
        SET_CHANNEL_KEPT => Some(Kind::SetChannelKept),
        _ => None,
    }
}

/// A peer and the transport to it, or none if either is invalid.
// Its callers go on apart for each family.
#[inline(always)]
pub fn peer_of(request: &Request) -> Option<(TransportType, SocketAddr)>
    ensures { result ≡ peer_of request.now }
{
    Some((c_transport(request.transport)?, socket_at(&request.peer)?))
}

/// The IP address of a peer and the transport to it, or none if either is invalid.
pub fn peer_ip_of(request: &Request) -> Option<(TransportType, IpAddr)>
    ensures { result ≡ peer_ip_of request.now }
{
    Some((c_transport(request.transport)?, ip_at(&request.peer)?))
}

/// A relayed address and what it is relayed over, or none if either is invalid.
pub fn relayed_of(request: &Request) -> Option<(TransportType, SocketAddr)>
    ensures { result ≡ relayed_of request.now }
{
    Some((c_transport(request.transport)?, socket_at(&request.from)?))
}

/// The transport, the source and the destination, or none if one of them is invalid.
// Its two addresses are compared where they are read.
#[inline(always)]
pub fn c_tuple(request: &Request) -> Option<Socket5Tuple>
    ensures { result ≡ c_tuple request.now }
{
    Some(Socket5Tuple {
        transport: c_transport(request.transport)?,
        from: socket_at(&request.from)?,
        to: socket_at(&request.to)?,
    })
}

/// The `create_permission` that a request is, or none if it lacks a transport or an address.
pub fn create_permission(now: Instant, request: &Request) -> Option<Call>
    requires low { now ≤ 2 ^ 62 }
    ensures value { option_map Plain result ≡ operation_with now request.now Kind.CreatePermission }
    ensures possible { IfSome result (IsPossible) }
{
    let (transport, peer_addr) = peer_ip_of(request)?;
    Some(Call::CreatePermission {
        transport,
        peer_addr,
        now,
    })
}

/// The `bind_channel` that a request is, or none if it lacks a transport or an address.
pub fn bind_channel(now: Instant, request: &Request) -> Option<Call>
    requires low { now ≤ 2 ^ 62 }
    ensures value { option_map Plain result ≡ operation_with now request.now Kind.BindChannel }
    ensures possible { IfSome result (IsPossible) }
{
    let (transport, peer_addr) = peer_of(request)?;
    Some(Call::BindChannel {
        transport,
        peer_addr,
        now,
    })
}

/// The `tcp_connect` that a request is, or none if it lacks an address.
pub fn tcp_connect(now: Instant, request: &Request) -> Option<Call>
    requires low { now ≤ 2 ^ 62 }
    ensures value { option_map Plain result ≡ operation_with now request.now Kind.TcpConnect }
    ensures possible { IfSome result (IsPossible) }
{
    let peer_addr = socket_at(&request.peer)?;
    Some(Call::TcpConnect { peer_addr, now })
}

/// The `allocated_tcp_socket` that a request is, or none if it lacks a transport or an address.
pub fn allocated_tcp_socket(now: Instant, request: &Request) -> Option<Call>
    requires low { now ≤ 2 ^ 62 }
    ensures value { option_map Plain result ≡ operation_with now request.now Kind.AllocatedTcpSocket }
    ensures possible { IfSome result (IsPossible) }
{
    let five_tuple = c_tuple(request)?;
    let peer_addr = socket_at(&request.peer)?;
    let local_addr = local_at(&request.local)?;
    Some(Call::AllocatedTcpSocket {
        id: request.id,
        five_tuple,
        peer_addr,
        local_addr,
        now,
    })
}

/// The local address of a data connection, or `Some(None)` if it could not be opened. None if it is invalid.
fn local_at(address: &Address) -> Option<Option<SocketAddr>>
    ensures { result ≡ local_at address.now }
{
    if address.family == NO_FAMILY && address.reserved == 0 {
        return Some(None);
    }
    Some(Some(socket_at(address)?))
}

/// The `tcp_closed` that a request is, or none if it lacks an address.
pub fn tcp_closed(now: Instant, request: &Request) -> Option<Call>
    requires low { now ≤ 2 ^ 62 }
    ensures value { option_map Plain result ≡ operation_with now request.now Kind.TcpClosed }
    ensures possible { IfSome result (IsPossible) }
{
    let local_addr = socket_at(&request.from)?;
    let remote_addr = socket_at(&request.to)?;
    Some(Call::TcpClosed {
        local_addr,
        remote_addr,
        now,
    })
}

/// Whether something is kept: 1 or 0.
fn is_kept_of(id: u32) -> Option<bool>
    ensures { result ≡ is_kept_of id }
{
    match id {
        0 => Some(false),
        1 => Some(true),
        _ => None,
    }
}

/// The `set_permission_kept` that a request is, or none if it lacks a transport or an address, or says neither 0 nor 1.
pub fn set_permission_kept(now: Instant, request: &Request) -> Option<Call>
    ensures value { option_map Plain result ≡ operation_with now request.now Kind.SetPermissionKept }
    ensures possible { IfSome result (IsPossible) }
{
    let (transport, peer_addr) = peer_ip_of(request)?;
    let is_kept = is_kept_of(request.id)?;
    Some(Call::SetPermissionKept {
        transport,
        peer_addr,
        is_kept,
    })
}

/// The `set_channel_kept` that a request is, or none if it lacks a transport or an address, or says neither 0 nor 1.
pub fn set_channel_kept(now: Instant, request: &Request) -> Option<Call>
    ensures value { option_map Plain result ≡ operation_with now request.now Kind.SetChannelKept }
    ensures possible { IfSome result (IsPossible) }
{
    let (transport, peer_addr) = peer_of(request)?;
    let is_kept = is_kept_of(request.id)?;
    Some(Call::SetChannelKept {
        transport,
        peer_addr,
        is_kept,
    })
}

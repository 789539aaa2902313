//! A request: what it says, whether that is possible, and how it is answered.

ghost use Rattle.std.specs.Prelude.{◌≡◌, ◌≤◌, ◌^◌, ℕ, List, Some, nat_lt, length, IfErr, IfSome, OnOk};
ghost use Rattle.turn_c_calls.specs.Arms.{BareEnds, BareLacks, Ends, EndsLook, EndsPlain, Lacks, LacksLook, LacksPlain};
ghost use Rattle.turn_c_calls.specs.Arms.{RequestEnds, RequestLacks, SendEnds, SendLacks, have_permission_answer, permissions_answer};
ghost use Rattle.turn_c_calls.specs.Judge.{IsPossible, if_fits, judged_as};
ghost use Rattle.turn_c_calls.specs.Look.{LacksSight, Looks, looked};
ghost use Rattle.turn_c_calls.specs.Operation.{PollRecv, PollTransmit};
ghost use Rattle.turn_c_calls.specs.declared.request.Kind.TheVariants as Kind;
ghost use Rattle.turn_c_calls.specs.Request.{Bare, Written, flow_of, kind_of, peer_ip_of, peer_of, relayed_of};

use crate::answer::Answer;
use crate::fault::Fault;
use crate::make;
use crate::request::{
    Kind, Request, allocated_tcp_socket, bind_channel, c_tuple, create_permission, kind_in,
    peer_ip_of, peer_of, relayed_of, set_channel_kept, set_permission_kept, tcp_closed,
    tcp_connect, time_of,
};
use crate::unread::Unread;
use std::alloc::Global;
use std::net::SocketAddr;
use turn_client_api::{Call, TurnClientApi};
use turn_stun::instant::Instant;
use turn_stun::transport::TransportType;

/// The most bytes of a `send_to` if the allocation is over UDP.
const MAX_PAYLOAD: usize = 65_504;

/// The most bytes that a packet adds to the data that it carries to a peer.
const MAX_FRAME: usize = 64;

/// Answers a request that writes bytes to the buffer, for a client whose allocation is over `relays`. It is compiled where it
/// is called, for the kind that is known there.
///
/// # Errors
///
/// The first of these: `Time`, `Call`, `Payload`, `Unread` if bytes are left and it may return more, `Buffer`. Nothing has
/// changed then. `OutOfMemory` if a memory allocation of the call fails: the client is as the call leaves it then, and
/// nothing else has changed.
#[inline(always)]
pub fn handle<C: TurnClientApi>(
    client: &mut C,
    relays: TransportType,
    kind: Kind,
    request: &Request,
    bytes: &[u8],
    unread: &mut Unread,
    buffer: &mut [u8],
    answer: &mut Answer,
) -> Result<(), Fault>
    requires relays { (C.state client.old).config.allocation_transport ≡ relays }
    requires kind { kind_of request.now.kind ≡ Some kind }
    requires flow { flow_of kind ≡ Written }
    ensures ok { OnOk result (RequestEnds request.now bytes.now (C.state client.old) (C.state client.new)
        unread.old unread.new buffer.old buffer.new answer.old answer.new) }
    ensures err { IfErr result (λ fault. RequestLacks request.now fault bytes.now (C.state client.old) (C.state client.new)
        unread.old unread.new buffer.old buffer.new answer.old answer.new) }
{
    let now = time_of(request.time).ok_or(Fault::Time)?;
    if request.reserved != 0 {
        return Err(Fault::Call);
    }
    match kind {
        Kind::SendTo => send_to(client, relays, now, request, bytes, buffer, answer)?,
        Kind::PollRecv => poll_recv(client, now, unread, buffer, answer)?,
        Kind::PollTransmit => poll_transmit(client, now, unread, buffer, answer)?,
        Kind::Read => make::read(unread, buffer, answer),
        _ => unreachable!(),
    }
    Ok(())
}

/// As [`handle`], of a request that has to do with no bytes.
#[inline(always)]
pub fn handle_bare<C: TurnClientApi>(
    client: &mut C,
    kind: Kind,
    request: &Request,
    answer: &mut Answer,
) -> Result<(), Fault>
    requires kind { kind_of request.now.kind ≡ Some kind }
    requires flow { flow_of kind ≡ Bare }
    ensures ok { OnOk result (BareEnds request.now (C.state client.old) (C.state client.new) answer.old answer.new) }
    ensures err { IfErr result (λ fault. BareLacks request.now fault (C.state client.old) (C.state client.new) answer.old answer.new) }
{
    let now = time_of(request.time).ok_or(Fault::Time)?;
    if request.reserved != 0 {
        return Err(Fault::Call);
    }
    match kind {
        Kind::Delete => make::delete(client, now, answer)?,
        Kind::CreatePermission => plain(client, create_permission(now, request), answer)?,
        Kind::BindChannel => {
            // Asked first, so that no call, which is large, is made of what is invalid.
            if peer_of(request).is_none() {
                return Err(Fault::Call);
            }
            plain(client, bind_channel(now, request), answer)?
        }
        Kind::TcpConnect => plain(client, tcp_connect(now, request), answer)?,
        Kind::AllocatedTcpSocket => plain(client, allocated_tcp_socket(now, request), answer)?,
        Kind::TcpClosed => plain(client, tcp_closed(now, request), answer)?,
        Kind::Poll => make::poll(client, now, answer)?,
        Kind::PollEvent => make::poll_event(client, answer),
        Kind::ProtocolError => plain(client, Some(Call::ProtocolError), answer)?,
        Kind::RelayedAddresses => make::relayed_addresses(client, request.id, answer),
        Kind::Permissions => permissions(client, request, answer)?,
        Kind::HavePermission => have_permission(client, request, answer)?,
        Kind::SetPermissionKept => plain(client, set_permission_kept(now, request), answer)?,
        Kind::SetChannelKept => plain(client, set_channel_kept(now, request), answer)?,
        _ => unreachable!(),
    }
    Ok(())
}

/// Makes a call whose reply has neither bytes nor a list, if there is one.
fn plain<C: TurnClientApi>(
    client: &mut C,
    call: Option<Call>,
    answer: &mut Answer,
) -> Result<(), Fault>
    requires { IfSome call IsPossible }
    ensures ok { OnOk result (EndsPlain call (C.state client.old) (C.state client.new) answer.old answer.new) }
    ensures err { IfErr result (λ fault. LacksPlain call fault (C.state client.old) (C.state client.new) answer.old answer.new) }
{
    match call {
        None => Err(Fault::Call),
        Some(call) => {
            make::plain(client, &call, answer)?;
            Ok(())
        }
    }
}

/// Sends data to a peer.
#[inline(always)]
fn send_to<C: TurnClientApi>(
    client: &mut C,
    relays: TransportType,
    now: Instant,
    request: &Request,
    bytes: &[u8],
    buffer: &mut [u8],
    answer: &mut Answer,
) -> Result<(), Fault>
    requires time { now ≤ 2 ^ 62 }
    requires relays { (C.state client.old).config.allocation_transport ≡ relays }
    ensures ok { OnOk result (SendEnds now request.now bytes.now (C.state client.old) (C.state client.new)
        buffer.old buffer.new answer.old answer.new) }
    ensures err { IfErr result (λ fault. SendLacks now request.now fault bytes.now (C.state client.old) (C.state client.new)
        buffer.old buffer.new answer.old answer.new) }
{
    // Each family has a copy of its own, since an address that may be of either is moved in parts at each step.
    match peer_of(request) {
        None => Err(Fault::Call),
        Some((transport, SocketAddr::V4(to))) => {
            send_to_peer(
                client, relays, now, request, transport, to, bytes, buffer, answer,
            )
        }
        Some((transport, SocketAddr::V6(to))) => {
            send_to_peer(
                client, relays, now, request, transport, to, bytes, buffer, answer,
            )
        }
    }
}

/// As [`send_to`], to the peer that was read, whose address is of a family.
#[inline(always)]
fn send_to_peer<C: TurnClientApi, A: Into<SocketAddr>>(
    client: &mut C,
    relays: TransportType,
    now: Instant,
    request: &Request,
    transport: TransportType,
    to: A,
    bytes: &[u8],
    buffer: &mut [u8],
    answer: &mut Answer,
) -> Result<(), Fault>
    requires time { now ≤ 2 ^ 62 }
    requires peer { (peer : SocketAddr) → A.Into.converts to peer → peer_of request.now ≡ Some (transport, peer) }
    requires relays { (C.state client.old).config.allocation_transport ≡ relays }
    ensures ok { OnOk result (SendEnds now request.now bytes.now (C.state client.old) (C.state client.new)
        buffer.old buffer.new answer.old answer.new) }
    ensures err { IfErr result (λ fault. SendLacks now request.now fault bytes.now (C.state client.old) (C.state client.new)
        buffer.old buffer.new answer.old answer.new) }
{
    let to = to.into();
    if relays == TransportType::Udp && bytes.len() > MAX_PAYLOAD {
        return Err(Fault::Payload);
    }
    if buffer.len() < bytes.len() + MAX_FRAME {
        return Err(Fault::Buffer);
    }
    make::send_to(client, transport, to, bytes, now, buffer, answer);
    Ok(())
}

/// As [`handle`], of a packet that was received.
pub fn recv<C: TurnClientApi>(
    alloc: Global,
    client: &mut C,
    request: &Request,
    bytes: &[u8],
    unread: &mut Unread,
    buffer: &mut [u8],
    answer: &mut Answer,
) -> Result<(), Fault>
    requires { kind_of request.now.kind ≡ Some Kind.Recv }
    ensures ok { OnOk result (RequestEnds request.now bytes.now (C.state client.old) (C.state client.new)
        unread.old unread.new buffer.old buffer.new answer.old answer.new) }
    ensures err { IfErr result (λ fault. RequestLacks request.now fault bytes.now (C.state client.old) (C.state client.new)
        unread.old unread.new buffer.old buffer.new answer.old answer.new) }
{
    let now = time_of(request.time).ok_or(Fault::Time)?;
    if request.reserved != 0 {
        return Err(Fault::Call);
    }
    let Some(tuple) = c_tuple(request) else {
        return Err(Fault::Call);
    };
    if unread.is_left() {
        return Err(Fault::Unread);
    }
    make::recv(alloc, client, tuple, bytes, now, unread, buffer, answer)?;
    Ok(())
}

#[inline(always)]
fn poll_recv<C: TurnClientApi>(
    client: &mut C,
    now: Instant,
    unread: &mut Unread,
    buffer: &mut [u8],
    answer: &mut Answer,
) -> Result<(), Fault>
    requires { now ≤ 2 ^ 62 }
    ensures ok { OnOk result ((bytes : List ℕ) → Ends (if_fits (C.state client.old).config.allocation_transport
        (nat_lt 0 (length unread.old)) (length bytes) (length buffer.old) (PollRecv now)) bytes
        (C.state client.old) (C.state client.new) unread.old unread.new buffer.old buffer.new answer.old answer.new) }
    ensures err { IfErr result (λ fault. (bytes : List ℕ) → Lacks (if_fits (C.state client.old).config.allocation_transport
        (nat_lt 0 (length unread.old)) (length bytes) (length buffer.old) (PollRecv now)) fault bytes
        (C.state client.old) (C.state client.new) unread.old unread.new buffer.old buffer.new answer.old answer.new) }
{
    if unread.is_left() {
        return Err(Fault::Unread);
    }
    make::poll_recv(client, now, unread, buffer, answer)?;
    Ok(())
}

#[inline(always)]
fn poll_transmit<C: TurnClientApi>(
    client: &mut C,
    now: Instant,
    unread: &mut Unread,
    buffer: &mut [u8],
    answer: &mut Answer,
) -> Result<(), Fault>
    requires { now ≤ 2 ^ 62 }
    ensures ok { OnOk result ((bytes : List ℕ) → Ends (if_fits (C.state client.old).config.allocation_transport
        (nat_lt 0 (length unread.old)) (length bytes) (length buffer.old) (PollTransmit now)) bytes
        (C.state client.old) (C.state client.new) unread.old unread.new buffer.old buffer.new answer.old answer.new) }
    ensures err { IfErr result (λ fault. (bytes : List ℕ) → Lacks (if_fits (C.state client.old).config.allocation_transport
        (nat_lt 0 (length unread.old)) (length bytes) (length buffer.old) (PollTransmit now)) fault bytes
        (C.state client.old) (C.state client.new) unread.old unread.new buffer.old buffer.new answer.old answer.new) }
{
    if unread.is_left() {
        return Err(Fault::Unread);
    }
    make::poll_transmit(client, now, unread, buffer, answer)?;
    Ok(())
}

fn permissions<C: TurnClientApi>(
    client: &C,
    request: &Request,
    answer: &mut Answer,
) -> Result<(), Fault>
    ensures ok { OnOk result (EndsLook (relayed_of request.now) (permissions_answer request.now.id (C.state client.now)) answer.old answer.new) }
    ensures err { IfErr result (λ fault. LacksLook (relayed_of request.now) fault answer.old answer.new) }
{
    let Some((transport, relayed)) = relayed_of(request) else {
        return Err(Fault::Call);
    };
    make::permissions(client, transport, relayed, request.id, answer);
    Ok(())
}

fn have_permission<C: TurnClientApi>(
    client: &C,
    request: &Request,
    answer: &mut Answer,
) -> Result<(), Fault>
    ensures ok { OnOk result (EndsLook (peer_ip_of request.now) (have_permission_answer (C.state client.now)) answer.old answer.new) }
    ensures err { IfErr result (λ fault. LacksLook (peer_ip_of request.now) fault answer.old answer.new) }
{
    let Some((transport, to)) = peer_ip_of(request) else {
        return Err(Fault::Call);
    };
    make::have_permission(client, transport, to, answer);
    Ok(())
}

/// Answers a request that only looks at the client.
///
/// # Errors
///
/// `Time`, or `Call` if it is no such request. The answer has not changed then.
pub fn look<C: TurnClientApi>(
    client: &C,
    request: &Request,
    answer: &mut Answer,
) -> Result<(), Fault>
    ensures ok { OnOk result (Looks (looked request.now (C.state client.now)) answer.old answer.new) }
    ensures err { IfErr result (λ fault. LacksSight (looked request.now (C.state client.now)) fault answer.old answer.new) }
{
    let _now = time_of(request.time).ok_or(Fault::Time)?;
    let kind = kind_in(request).ok_or(Fault::Call)?;
    match kind {
        Kind::RelayedAddresses => make::relayed_addresses(client, request.id, answer),
        Kind::Permissions => permissions(client, request, answer)?,
        Kind::HavePermission => have_permission(client, request, answer)?,
        _ => return Err(Fault::Call),
    }
    Ok(())
}

//! The calls that take no data, and return neither bytes nor a list.

ghost use Rattle.std.specs.Prelude.{◌≡◌, IfOk, OnErr};
ghost use Rattle.turn_client_calls.specs.Plain.{IsPlainCall};
ghost use Rattle.turn_client_calls.specs.Run.{IsCallable, step};
ghost use Rattle.turn_client_calls.specs.Wanted.{EndsForMemory};

use crate::asks::{
    allocated_tcp_socket, bind_channel, create_permission, delete, tcp_closed, tcp_connect,
};
use crate::{Call, Reply};
use std::alloc::AllocError;
use std::net::{IpAddr, SocketAddr};
use turn_client_api::TurnClientApi;
use turn_stun::transport::TransportType;

/// Makes this call, which takes no data and returns neither bytes nor a list, on the client and returns its reply.
///
/// # Errors
///
/// If memory allocation for the call fails, which needs it: the client is then as the call leaves it.
pub fn plain_reply_to<C: TurnClientApi>(client: &mut C, call: &Call) -> Result<Reply, AllocError>
    requires callable { IsCallable (C.state client.old).config.allocation_transport call.now }
    requires plain { IsPlainCall call.now }
    ensures ok { IfOk result (λ reply. (reply, C.state client.new) ≡ step (C.state client.old) call.now) }
    ensures no_memory { OnErr result (EndsForMemory call.now (C.state client.old) (C.state client.new)) }
{
    match call {
        Call::Delete { now } => delete(client, *now),
        Call::CreatePermission {
            transport,
            peer_addr,
            now,
        } => create_permission(client, *transport, *peer_addr, *now),
        Call::BindChannel {
            transport,
            peer_addr,
            now,
        } => bind_channel(client, *transport, *peer_addr, *now),
        Call::TcpConnect { peer_addr, now } => tcp_connect(client, *peer_addr, *now),
        Call::AllocatedTcpSocket {
            id,
            five_tuple,
            peer_addr,
            local_addr,
            now,
        } => allocated_tcp_socket(client, *id, *five_tuple, *peer_addr, *local_addr, *now),
        Call::TcpClosed {
            local_addr,
            remote_addr,
            now,
        } => Ok(tcp_closed(client, *local_addr, *remote_addr, *now)),
        Call::ProtocolError => protocol_error(client),
        Call::SetPermissionKept {
            transport,
            peer_addr,
            is_kept,
        } => Ok(set_permission_kept(client, *transport, *peer_addr, *is_kept)),
        Call::SetChannelKept {
            transport,
            peer_addr,
            is_kept,
        } => Ok(set_channel_kept(client, *transport, *peer_addr, *is_kept)),
        _ => unreachable!(),
    }
}

/// Reports that the control connection failed.
fn protocol_error<C: TurnClientApi>(client: &mut C) -> Result<Reply, AllocError>
    ensures ok { IfOk result (λ reply. (reply, C.state client.new) ≡ step (C.state client.old) Call.ProtocolError) }
    ensures no_memory { OnErr result (EndsForMemory Call.ProtocolError (C.state client.old) (C.state client.new)) }
{
    client.protocol_error()?;
    Ok(Reply::Done)
}

/// Says whether the permission for this IP address is kept.
fn set_permission_kept<C: TurnClientApi>(
    client: &mut C,
    transport: TransportType,
    peer_addr: IpAddr,
    is_kept: bool,
) -> Reply
    ensures { (result, C.state client.new) ≡ step (C.state client.old) (Call.SetPermissionKept transport peer_addr is_kept) }
{
    Reply::SetPermissionKept(client.set_permission_kept(transport, peer_addr, is_kept))
}

/// Says whether the channel to this peer is kept.
fn set_channel_kept<C: TurnClientApi>(
    client: &mut C,
    transport: TransportType,
    peer_addr: SocketAddr,
    is_kept: bool,
) -> Reply
    ensures { (result, C.state client.new) ≡ step (C.state client.old) (Call.SetChannelKept transport peer_addr is_kept) }
{
    Reply::SetChannelKept(client.set_channel_kept(transport, peer_addr, is_kept))
}

//! The replies of the calls that request something of the server, or report on a data connection.
//!
//! If memory allocation for a request fails, the call returns an error and the client is unchanged.

ghost use Rattle.std.specs.Prelude.{◌≡◌, ◌≤◌, ◌^◌, IfOk, OnErr};
ghost use Rattle.turn_client_calls.specs.Wanted.{EndsForMemory};
ghost use Rattle.turn_client_calls.specs.Run.{step};

use crate::{Call, Reply};
use std::alloc::AllocError;
use std::net::{IpAddr, SocketAddr};
use turn_client_api::{
    BindChannelError, CreatePermissionError, DeleteError, Socket5Tuple, TcpAllocateError,
    TcpConnectError, TurnClientApi,
};
use turn_stun::instant::Instant;
use turn_stun::transport::TransportType;

/// Deletes all allocations.
pub(crate) fn delete<C: TurnClientApi>(client: &mut C, now: Instant) -> Result<Reply, AllocError>
    requires { now ≤ 2 ^ 62 }
    ensures ok { IfOk result (λ reply. (reply, C.state client.new) ≡ step (C.state client.old) (Call.Delete now)) }
    ensures no_memory { OnErr result (EndsForMemory (Call.Delete now) (C.state client.old) (C.state client.new)) }
{
    match client.delete(now) {
        Err(DeleteError::OutOfMemory) => Err(AllocError),
        answer => Ok(Reply::Delete(answer)),
    }
}

/// Requests a permission.
pub(crate) fn create_permission<C: TurnClientApi>(
    client: &mut C,
    transport: TransportType,
    peer_addr: IpAddr,
    now: Instant,
) -> Result<Reply, AllocError>
    requires { now ≤ 2 ^ 62 }
    ensures ok { IfOk result (λ reply. (reply, C.state client.new) ≡ step (C.state client.old) (Call.CreatePermission transport peer_addr now)) }
    ensures no_memory { OnErr result (EndsForMemory (Call.CreatePermission transport peer_addr now) (C.state client.old) (C.state client.new)) }
{
    match client.create_permission(transport, peer_addr, now) {
        Err(CreatePermissionError::OutOfMemory) => Err(AllocError),
        answer => Ok(Reply::CreatePermission(answer)),
    }
}

/// Requests a channel.
pub(crate) fn bind_channel<C: TurnClientApi>(
    client: &mut C,
    transport: TransportType,
    peer_addr: SocketAddr,
    now: Instant,
) -> Result<Reply, AllocError>
    requires { now ≤ 2 ^ 62 }
    ensures ok { IfOk result (λ reply. (reply, C.state client.new) ≡ step (C.state client.old) (Call.BindChannel transport peer_addr now)) }
    ensures no_memory { OnErr result (EndsForMemory (Call.BindChannel transport peer_addr now) (C.state client.old) (C.state client.new)) }
{
    match client.bind_channel(transport, peer_addr, now) {
        Err(BindChannelError::OutOfMemory) => Err(AllocError),
        answer => Ok(Reply::BindChannel(answer)),
    }
}

/// Requests a data connection.
pub(crate) fn tcp_connect<C: TurnClientApi>(
    client: &mut C,
    peer_addr: SocketAddr,
    now: Instant,
) -> Result<Reply, AllocError>
    requires { now ≤ 2 ^ 62 }
    ensures ok { IfOk result (λ reply. (reply, C.state client.new) ≡ step (C.state client.old) (Call.TcpConnect peer_addr now)) }
    ensures no_memory { OnErr result (EndsForMemory (Call.TcpConnect peer_addr now) (C.state client.old) (C.state client.new)) }
{
    match client.tcp_connect(peer_addr, now) {
        Err(TcpConnectError::OutOfMemory) => Err(AllocError),
        answer => Ok(Reply::TcpConnect(answer)),
    }
}

/// Reports that the caller opened an offered data connection, or could not open it.
pub(crate) fn allocated_tcp_socket<C: TurnClientApi>(
    client: &mut C,
    id: u32,
    tuple: Socket5Tuple,
    peer: SocketAddr,
    local: Option<SocketAddr>,
    now: Instant,
) -> Result<Reply, AllocError>
    requires { now ≤ 2 ^ 62 }
    ensures ok { IfOk result (λ reply. (reply, C.state client.new) ≡ step (C.state client.old) (Call.AllocatedTcpSocket id tuple peer local now)) }
    ensures no_memory { OnErr result (EndsForMemory (Call.AllocatedTcpSocket id tuple peer local now) (C.state client.old) (C.state client.new)) }
{
    match client.allocated_tcp_socket(id, tuple, peer, local, now) {
        Err(TcpAllocateError::OutOfMemory) => Err(AllocError),
        answer => Ok(Reply::AllocatedTcpSocket(answer)),
    }
}

/// Reports that a data connection was closed.
pub(crate) fn tcp_closed<C: TurnClientApi>(
    client: &mut C,
    local_addr: SocketAddr,
    remote_addr: SocketAddr,
    now: Instant,
) -> Reply
    requires { now ≤ 2 ^ 62 }
    ensures { (result, C.state client.new) ≡ step (C.state client.old) (Call.TcpClosed local_addr remote_addr now) }
{
    client.tcp_closed(local_addr, remote_addr, now);
    Reply::Done
}

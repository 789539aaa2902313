//! Requests of the client for a key.

ghost use Rattle.std.specs.Prelude.{◌≡◌, ◌≤◌, ◌^◌};
ghost use Rattle.turn_session_client.specs.Making.{Makes, channel_answer, channel_made, connection_made, made, permission_made};

use std::net::{IpAddr, SocketAddr};
use turn_client_api::{BindChannelError, CreatePermissionError, TcpConnectError, TurnClientApi};
use turn_session_book::answers::CallError;
use turn_session_book::keys::Key;
use turn_stun::instant::Instant;
use turn_types::TransportType;

/// What the client says to a request.
#[derive(Clone, Copy, Debug, PartialEq, Eq)]
pub enum Made {
    /// It is on its way: an event of the client will tell what became of it.
    Queued,
    /// The client makes no such request.
    Refused(CallError),
    /// A memory allocation failed, and the client is unchanged.
    NoMemory,
}

/// Requests this key of the client, which relays over this transport.
pub(crate) fn make<C: TurnClientApi>(
    client: &mut C,
    relays: TransportType,
    key: Key,
    now: Instant,
) -> Made
    requires now_in_range { now ≤ 2 ^ 62 }
    ensures { Makes result (C.state client.old) (C.state client.new) (made key relays now (C.state client.old)) }
{
    match key {
        Key::Permission(ip) => make_permission(client, relays, ip, now),
        Key::Channel(peer) => make_channel(client, relays, peer, now),
        Key::Connect(peer) => make_connection(client, peer, now),
    }
}

/// A permission that the client has requested already, with a channel or for another caller, has its outcome by that request.
fn make_permission<C: TurnClientApi>(
    client: &mut C,
    relays: TransportType,
    ip: IpAddr,
    now: Instant,
) -> Made
    requires now_in_range { now ≤ 2 ^ 62 }
    ensures { Makes result (C.state client.old) (C.state client.new) (permission_made relays ip now (C.state client.old)) }
{
    match client.create_permission(relays, ip, now) {
        Ok(()) => Made::Queued,
        Err(CreatePermissionError::AlreadyExists) => Made::Queued,
        Err(CreatePermissionError::NoAllocation) => Made::Refused(CallError::NoAllocation),
        Err(CreatePermissionError::OutOfMemory) => Made::NoMemory,
    }
}

/// A channel that neither is granted nor was requested by this session has no number that is left.
fn make_channel<C: TurnClientApi>(
    client: &mut C,
    relays: TransportType,
    peer: SocketAddr,
    now: Instant,
) -> Made
    requires now_in_range { now ≤ 2 ^ 62 }
    ensures { Makes result (C.state client.old) (C.state client.new) (channel_made relays peer now (C.state client.old)) }
{
    match client.bind_channel(relays, peer, now) {
        Ok(()) => Made::Queued,
        Err(error) => channel_refusal(error),
    }
}

/// Why the client does not bind a channel.
fn channel_refusal(error: BindChannelError) -> Made
    ensures { result ≡ channel_answer (Err error) }
{
    match error {
        BindChannelError::AlreadyExists => Made::Refused(CallError::AlreadyExists),
        BindChannelError::ExpiredChannelExists(until) => {
            Made::Refused(CallError::Reserved(until))
        }
        BindChannelError::NoAllocation => Made::Refused(CallError::NoAllocation),
        BindChannelError::OutOfMemory => Made::NoMemory,
    }
}

/// A data connection (RFC 6062, section 4.3).
fn make_connection<C: TurnClientApi>(client: &mut C, peer: SocketAddr, now: Instant) -> Made
    requires now_in_range { now ≤ 2 ^ 62 }
    ensures { Makes result (C.state client.old) (C.state client.new) (connection_made peer now (C.state client.old)) }
{
    match client.tcp_connect(peer, now) {
        Ok(()) => Made::Queued,
        Err(TcpConnectError::AlreadyExists) => Made::Refused(CallError::AlreadyExists),
        Err(TcpConnectError::NoAllocation) => Made::Refused(CallError::NoAllocation),
        Err(TcpConnectError::NoPermission) => Made::Refused(CallError::NoPermission),
        Err(TcpConnectError::OutOfMemory) => Made::NoMemory,
    }
}

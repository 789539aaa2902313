//! The samples, in the order of the page.

ghost use Rattle.std.specs.Prelude.{◌≤◌, ◌^◌};

use crate::program::Program;
use std::alloc::{AllocError, Global};
use std::net::{IpAddr, SocketAddr};
use turn_auth::credentials::{CredentialsError, TurnCredentials};
use turn_client_api::{
    BindChannelError, CreatePermissionError, DeleteError, SendError, TurnClientApi, TurnConfig,
    TurnEvent,
};
use turn_client_proto::tcp::TurnClientTcp;
use turn_client_proto::udp::TurnClientUdp;
use turn_driver::{Rest, Task, drive_client};
use turn_stun::data::Data;
use turn_stun::instant::Instant;
use turn_stun::transport::{Transmit, TransportType};

/// A client over UDP, which requests an IPv4 address that relays UDP.
pub fn begin(
    alloc: Global,
    local: SocketAddr,
    server: SocketAddr,
    seed: [u8; 32],
) -> Result<TurnClientUdp, CredentialsError> {
    let credentials = TurnCredentials::new(alloc, b"user", b"pass")?;
    let config = TurnConfig::new(alloc, credentials);
    Ok(TurnClientUdp::allocate(alloc, local, server, config, seed)?)
}

/// One iteration of the loop. The result says when the next one is due.
pub fn iterate<C: TurnClientApi>(
    program: &mut Program,
    client: &mut C,
    received: Option<Transmit<Vec<u8>>>,
    now: Instant,
) -> Result<Rest, AllocError>
    requires now_in_range { now ≤ 2 ^ 62 }
{
    let mut tasks = Vec::new(program.alloc);
    let rest = drive_client(client, received, now, 64, &mut tasks);
    let is_idle = tasks.is_empty();
    for task in tasks {
        carry_out(program, client, &task, now)?;
    }
    match rest? {
        // A task may have called the client, which has more to do then.
        Rest::Until(_) if !is_idle => Ok(Rest::Now),
        rest => Ok(rest),
    }
}

/// Carries out one task of the client.
fn carry_out<C: TurnClientApi>(
    program: &mut Program,
    client: &mut C,
    task: &Task,
    now: Instant,
) -> Result<(), AllocError>
    requires now_in_range { now ≤ 2 ^ 62 }
{
    match task {
        Task::Send(packet) => program.send(packet),
        Task::Payload(given) => program.deliver(given.peer, given.data())?,
        Task::Event(event) => program.note(*event),
        Task::Open {
            id,
            socket,
            peer_addr,
        } => {
            let local = program.connect(socket.to);
            let answer = client.allocated_tcp_socket(*id, *socket, *peer_addr, local, now);
            if let (Some(local), Err(_)) = (local, answer) {
                program.close(local);
            }
        }
        Task::Close { local_addr, .. } => program.close(*local_addr),
        Task::Icmp { .. } | Task::Other(_) => {}
    }
    Ok(())
}

/// Requests a channel to the peer as soon as there is an allocation.
pub fn reach<C: TurnClientApi>(
    client: &mut C,
    peer: SocketAddr,
    event: TurnEvent,
    now: Instant,
) -> Result<(), BindChannelError>
    requires now_in_range { now ≤ 2 ^ 62 }
{
    match event {
        TurnEvent::AllocationCreated(transport, _relayed) => {
            client.bind_channel(transport, peer, now)
        }
        _ => Ok(()),
    }
}

/// The packet that carries a greeting to the peer.
pub fn greet<C: TurnClientApi>(
    alloc: Global,
    client: &mut C,
    peer: SocketAddr,
    now: Instant,
) -> Result<Option<Transmit<Data>>, SendError>
    requires now_in_range { now ≤ 2 ^ 62 }
{
    match client.send_to(TransportType::Udp, peer, *b"hello", now)? {
        Some(packet) => Ok(Some(packet.build(alloc)?)),
        None => Ok(None),
    }
}

/// A client over TCP, whose allocation connects to peers over TCP.
pub fn begin_connecting(
    alloc: Global,
    local: SocketAddr,
    server: SocketAddr,
    seed: [u8; 32],
) -> Result<TurnClientTcp, CredentialsError> {
    let credentials = TurnCredentials::new(alloc, b"user", b"pass")?;
    let mut config = TurnConfig::new(alloc, credentials);
    config.set_allocation_transport(TransportType::Tcp);
    Ok(TurnClientTcp::allocate(alloc, local, server, config, seed)?)
}

/// Deletes the allocation. The loop goes on until the client has ended.
pub fn leave<C: TurnClientApi>(client: &mut C, now: Instant) -> Result<(), DeleteError>
    requires now_in_range { now ≤ 2 ^ 62 }
{
    client.delete(now)
}

/// Whether the permission is active or pending now. `false` says to try again when there is memory.
pub fn permit<C: TurnClientApi>(
    client: &mut C,
    transport: TransportType,
    peer: IpAddr,
    now: Instant,
) -> Result<bool, CreatePermissionError>
    requires now_in_range { now ≤ 2 ^ 62 }
{
    match client.create_permission(transport, peer, now) {
        Ok(()) | Err(CreatePermissionError::AlreadyExists) => Ok(true),
        Err(CreatePermissionError::OutOfMemory) => Ok(false),
        Err(refusal) => Err(refusal),
    }
}

/// When the first of these clients is due, or `None` if all have ended.
pub fn first_due(rests: &[Rest], now: Instant) -> Option<Instant> {
    let mut first: Option<Instant> = None;
    for rest in rests {
        let due = match *rest {
            Rest::Until(time) => time,
            Rest::Now => now,
            Rest::Ended => continue,
        };
        first = match first {
            Some(time) if time < due => Some(time),
            _ => Some(due),
        };
    }
    first
}

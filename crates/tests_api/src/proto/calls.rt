//! The calls of each client through the trait.

use crate::fixture::check;
use crate::proto::fixture::{
    BAD_REQUEST, at, called_at, client, either_client, is_closed, is_first_request, local, refuse,
    server,
};
use std::net::SocketAddr;
use std::process::Abort;
use std::test::Fail;
use turn_auth::credentials::CredentialsError;
use turn_client_api::{TurnEvent, TurnPollRet, TurnRecvRet};
use turn_client_proto::prelude::TurnClientApi;
use turn_stun::transport::{Transmit, TransportType};
use turn_types::AddressFamily;

fn sends_its_request<C: TurnClientApi>(rt: &impl Abort, client: &mut C) -> Result<(), Fail> {
    check(rt, client.transport() == TransportType::Udp);
    check(
        rt,
        client.local_addr() == local() && client.remote_addr() == server(),
    );
    is_first_request(rt, client.poll_transmit(called_at(0))?);
    Ok(())
}

/// Whether the error response was returned with its transport and addresses.
fn is_handed_back(
    answer: &TurnRecvRet<&[u8]>,
    transport: TransportType,
    from: SocketAddr,
    to: SocketAddr,
) -> bool {
    match answer {
        TurnRecvRet::Ignored(back) => {
            back.payload == BAD_REQUEST
                && (back.transport, back.from, back.to) == (transport, from, to)
        }
        _ => false,
    }
}

/// Passes the error response in with this transport and these addresses, which are wrong.
fn is_ignored<C: TurnClientApi>(
    rt: &impl Abort,
    client: &mut C,
    transport: TransportType,
    from: SocketAddr,
    to: SocketAddr,
) -> Result<(), Fail> {
    let packet = Transmit::new(BAD_REQUEST, transport, from, to);
    let answer = client.recv(packet, called_at(1))?;
    check(rt, is_handed_back(&answer, transport, from, to));
    Ok(())
}

fn ends_when_refused<C: TurnClientApi>(rt: &impl Abort, client: &mut C) -> Result<(), Fail> {
    refuse(rt, client, called_at(1));
    check(
        rt,
        client.poll(called_at(1))? == TurnPollRet::WaitUntil(at(1)),
    );
    let event = TurnEvent::AllocationCreateFailed(AddressFamily::IPV4);
    check(rt, client.poll_event() == Some(event));
    client.protocol_error()?;
    check(rt, client.poll_event().is_none());
    is_closed(rt, client, called_at(1))?;
    Ok(())
}

/// Passes the error response in with four wrong transports or addresses.
fn are_ignored<C: TurnClientApi>(rt: &impl Abort, client: &mut C) -> Result<(), Fail> {
    let other_port = SocketAddr::new(server().ip(), 2_001);
    is_ignored(rt, client, TransportType::Tcp, server(), local())?;
    is_ignored(rt, client, TransportType::Udp, other_port, local())?;
    is_ignored(rt, client, TransportType::Udp, local(), local())?;
    is_ignored(rt, client, TransportType::Udp, server(), server())
}

/// Sends the first request, and passes its error response in with wrong transports and addresses, and then the
/// right ones.
fn is_refused<C: TurnClientApi>(
    rt: &impl Abort,
    client: Result<C, CredentialsError>,
) -> Result<(), Fail> {
    let mut client = client?;
    sends_its_request(rt, &mut client)?;
    are_ignored(rt, &mut client)?;
    ends_when_refused(rt, &mut client)
}

#[test]
fn each_client_keeps_to_its_server(rt: HostRuntime) -> Result<(), Fail> {
    is_refused(&rt, client(rt.alloc()))?;
    is_refused(&rt, either_client(rt.alloc()))
}

#[test]
fn a_client_over_udp_has_nothing_to_lend(rt: HostRuntime) -> Result<(), Fail> {
    let mut client = client(rt.alloc())?;
    let read = client.poll_recv_with(called_at(0), |_, _, payload| payload.len());
    // a scope at whose end a client is dropped can take minutes to prove
    drop(client);
    check(&rt, read?.is_none());
    Ok(())
}

//! What a caller learns of a client's requests, and a client that is given up while some of them wait in the queue.

use crate::caller::Caller;
use crate::fixture::{Place, at, check, client_over_udp, either_over_tcp};
use crate::messages::{GENEROUS, OTHER};
use crate::slow_link::{are_permitted, are_requested};
use std::alloc::{AllocError, Global};
use std::process::Abort;
use std::test::Fail;
use turn_auth::credentials::CredentialsError;
use turn_client_api::{Purpose, RequestView, TurnClientApi, TurnPollRet};
use turn_stun::data::Data;
use turn_stun::message::Message;
use turn_stun::transaction::TransactionId;
use turn_stun::transport::{Transmit, TransportType};

/// The number of the first channel that a client binds (RFC 8656, section 12).
const FIRST_CHANNEL: u16 = 0x4000;

/// A REFRESH begins with this type (RFC 8656, section 17).
const REFRESH_TYPE: [u8; 2] = [0x00, 0x04];

/// A LIFETIME of 0 (RFC 8656, section 18.2), the first attribute of one that deletes.
const NO_LIFETIME: [u8; 8] = [0x00, 0x0d, 0x00, 0x04, 0x00, 0x00, 0x00, 0x00];

/// The ID of the message in a packet, if it is one.
fn id_of(packet: &Transmit<Data>) -> Option<TransactionId> {
    match Message::from_bytes(packet.payload.as_bytes()) {
        Ok(message) => Some(message.transaction_id()),
        Err(_) => None,
    }
}

/// Whether a packet is a REFRESH with lifetime 0.
fn deletes(packet: &Option<Transmit<Data>>) -> bool {
    let Some(packet) = packet else {
        return false;
    };
    let bytes = packet.payload.as_bytes();
    bytes.starts_with(&REFRESH_TYPE) && bytes.get(20..28) == Some(NO_LIFETIME.as_slice())
}

/// Asserts that the first request of three leaves, and that the client knows what it is for.
fn first_is_known<C: TurnClientApi>(rt: &impl Abort, client: &mut C) -> Result<(), AllocError> {
    check(rt, client.queued_requests() == 3, 1);
    let packet = client.poll_transmit(at(2_000))?;
    check(rt, client.queued_requests() == 2, 2);
    let id = packet.as_ref().and_then(id_of);
    let view = id.map(|id| client.request_of(id));
    let peer = Place(100, 9_000).ip();
    let wanted = RequestView {
        first: Some(Purpose::ForPermission(peer)),
        second: None,
        resends: Some(0),
    };
    check(rt, view == Some(wanted), 3);
    Ok(())
}

/// Asserts that the client knows a request for a channel and for the permission of its peer by both.
fn both_are_known<C: TurnClientApi>(rt: &impl Abort, client: &mut C) -> Result<(), AllocError> {
    let answer = client.bind_channel(TransportType::Udp, OTHER.address(), at(3_000));
    let packet = client.poll_transmit(at(3_000))?;
    let id = packet.as_ref().and_then(id_of);
    let view = id.map(|id| client.request_of(id));
    let wanted = RequestView {
        first: Some(Purpose::ForChannel(FIRST_CHANNEL, OTHER.address())),
        second: Some(Purpose::ForPermission(OTHER.ip())),
        resends: Some(0),
    };
    check(rt, answer.is_ok() && view == Some(wanted), 11);
    Ok(())
}

/// Asserts that within the pause, and with two requests queued, the client deletes its allocation at once, and that
/// nothing is left of it.
fn is_given_up<C: TurnClientApi>(rt: &impl Abort, client: &mut C) -> Result<(), AllocError> {
    let packet = client.abandon(at(2_001))?;
    check(rt, deletes(&packet), 4);
    check(rt, client.queued_requests() == 0, 5);
    check(rt, client.relayed_addresses().next().is_none(), 6);
    check(rt, client.poll_transmit(at(3_000))?.is_none(), 7);
    check(rt, client.poll(at(3_000))? == TurnPollRet::Closed, 8);
    check(rt, client.abandon(at(3_000))?.is_none(), 9);
    Ok(())
}

/// Asserts both of a client with an allocation and three requests that wait.
fn deletes_at_once<C: TurnClientApi>(
    rt: &impl Abort,
    alloc: Global,
    client: Result<C, CredentialsError>,
) -> Result<(), Fail> {
    let mut client = client?;
    let mut caller = Caller::new(alloc);
    caller.wait(&mut client, GENEROUS, 2_000)?;
    check(rt, are_requested(&mut client, 3, 2_000), 0);
    first_is_known(rt, &mut client)?;
    is_given_up(rt, &mut client)?;
    check(rt, !are_permitted(&client, 3), 10);
    Ok(())
}

#[test]
fn a_client_that_is_given_up_deletes_its_allocation_at_once(rt: HostRuntime) -> Result<(), Fail> {
    deletes_at_once(&rt, rt.alloc(), client_over_udp(rt.alloc()))?;
    deletes_at_once(&rt, rt.alloc(), either_over_tcp(rt.alloc()))
}

/// Asserts what a client with an allocation knows of a request that has two purposes.
fn knows_both<C: TurnClientApi>(
    rt: &impl Abort,
    alloc: Global,
    client: Result<C, CredentialsError>,
) -> Result<(), Fail> {
    let mut client = client?;
    let mut caller = Caller::new(alloc);
    caller.wait(&mut client, GENEROUS, 3_000)?;
    both_are_known(rt, &mut client)?;
    Ok(())
}

#[test]
fn a_request_with_two_purposes_is_known_by_both(rt: HostRuntime) -> Result<(), Fail> {
    knows_both(&rt, rt.alloc(), client_over_udp(rt.alloc()))
}

#[test]
fn a_client_without_an_allocation_is_given_up_in_silence(rt: HostRuntime) -> Result<(), Fail> {
    let mut client = client_over_udp(rt.alloc())?;
    let first = client.poll_transmit(at(0));
    let none = client.abandon(at(1));
    let next = client.poll_transmit(at(1_000));
    let end = client.poll(at(1_000));
    // a scope at whose end a client is dropped can take minutes to prove
    drop(client);
    check(
        &rt,
        first?.is_some() && none?.is_none() && next?.is_none(),
        0,
    );
    check(&rt, end? == TurnPollRet::Closed, 1);
    Ok(())
}

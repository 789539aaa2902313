//! Memory allocation that fails at each place: the answer, and the state after it.
//!
//! Each test accepts the failure as an answer. `rt try --test --fail-alloc N` makes the Nth allocation fail.

use crate::fixture::{check, config};
use crate::proto::fixture::{
    BAD_REQUEST, MS, at, called_at, client, client_for_both, is_closed, is_first_request, local,
    replies_of, server,
};
use std::process::Abort;
use std::test::Fail;
use turn_auth::credentials::CredentialsError;
use turn_client_api::{TurnEvent, TurnPollRet, TurnRecvRet};
use turn_client_proto::api::TurnClientApi;
use turn_client_proto::{Call, Reply};
use turn_stun::transport::{Transmit, TransportType};
use turn_types::AddressFamily;

fn sends_or_ends<C: TurnClientApi>(
    rt: &impl Abort,
    client: Result<C, CredentialsError>,
) -> Result<(), Fail> {
    let Ok(mut client) = client else {
        return Ok(());
    };
    match client.poll_transmit(called_at(0)) {
        Ok(packet) => is_first_request(rt, packet),
        Err(_) => {
            is_closed(rt, &mut client, called_at(0))?;
            check(rt, client.poll_transmit(called_at(0))?.is_none());
        }
    }
    Ok(())
}

#[test]
fn a_refused_first_request_ends_the_client(rt: HostRuntime) -> Result<(), Fail> {
    sends_or_ends(&rt, client(rt.alloc()))
}

fn sends_again_or_ends<C: TurnClientApi>(rt: &impl Abort, client: &mut C) -> Result<(), Fail> {
    let due = called_at(500 * MS);
    match client.poll_transmit(due) {
        Ok(packet) => {
            check(
                rt,
                client.poll(due)? == TurnPollRet::WaitUntil(at(1_500 * MS)),
            );
            is_first_request(rt, packet);
        }
        Err(_) => {
            is_closed(rt, client, due)?;
            is_first_request(rt, client.poll_transmit(due)?);
        }
    }
    Ok(())
}

/// Sends the first request, and retransmits it when that is due.
fn sends_twice<C: TurnClientApi>(
    rt: &impl Abort,
    client: Result<C, CredentialsError>,
) -> Result<(), Fail> {
    let Ok(mut client) = client else {
        return Ok(());
    };
    match client.poll_transmit(called_at(0)) {
        Ok(_) => sends_again_or_ends(rt, &mut client),
        Err(_) => Ok(()),
    }
}

#[test]
fn a_refused_resend_ends_the_client_and_is_still_due(rt: HostRuntime) -> Result<(), Fail> {
    sends_twice(&rt, client(rt.alloc()))
}

fn reports_a_failure<C: TurnClientApi>(rt: &impl Abort, client: &mut C, family: AddressFamily) {
    let event = TurnEvent::AllocationCreateFailed(family);
    check(rt, client.poll_event() == Some(event));
}

/// Ends a client, by an error response or by the caller. Returns whether memory allocation succeeded.
fn is_ended<C: TurnClientApi>(rt: &impl Abort, client: &mut C, refused: bool) -> bool {
    if !refused {
        return client.protocol_error().is_ok();
    }
    let packet = Transmit::new(BAD_REQUEST, TransportType::Udp, server(), local());
    match client.recv(packet, called_at(0)) {
        Ok(answer) => {
            check(rt, matches!(answer, TurnRecvRet::Handled));
            true
        }
        Err(_) => false,
    }
}

/// The allocations of both families fail, after the client sent its request.
fn ends<C: TurnClientApi>(rt: &impl Abort, client: &mut C, refused: bool) {
    if is_ended(rt, client, refused) {
        reports_a_failure(rt, client, AddressFamily::IPV6);
        reports_a_failure(rt, client, AddressFamily::IPV4);
    }
    check(rt, client.poll_event().is_none());
    check(
        rt,
        matches!(client.poll(called_at(0)), Ok(TurnPollRet::Closed)),
    );
}

fn sends_and_ends<C: TurnClientApi>(
    rt: &impl Abort,
    client: Result<C, CredentialsError>,
    refused: bool,
) {
    if let Ok(mut client) = client {
        if client.poll_transmit(called_at(0)).is_ok() {
            ends(rt, &mut client, refused);
        }
    }
}

#[test]
fn an_end_reports_each_failure_or_finds_no_memory(rt: HostRuntime) {
    sends_and_ends(&rt, client_for_both(rt.alloc()), false);
    sends_and_ends(&rt, client_for_both(rt.alloc()), true);
}

/// Whether these are to call again at once, a packet, and no event.
fn are_first(replies: &[Reply]) -> bool {
    match replies {
        [
            Reply::Poll(polled),
            Reply::Transmit(Some(_)),
            Reply::Event(None),
        ] => { *polled == TurnPollRet::WaitUntil(at(0)) }
        _ => false,
    }
}

#[test]
fn a_refused_run_gives_no_answers(rt: HostRuntime) {
    let Ok(config) = config(rt.alloc()) else {
        return;
    };
    let calls = [
        Call::Poll { now: called_at(0) },
        Call::PollTransmit { now: called_at(0) },
        Call::PollEvent,
    ];
    if let Ok(replies) = replies_of(rt.alloc(), config, &calls) {
        check(&rt, are_first(replies.as_slice()));
    }
}

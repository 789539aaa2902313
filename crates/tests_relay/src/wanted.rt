//! What a session is asked for, and what becomes of it.

use crate::fixture::{at, check};
use std::alloc::{AllocError, Global};
use std::net::{IpAddr, Ipv4Addr, SocketAddr};
use std::test::Fail;
use turn_relay_tries::wanted::{Unsure, Wanted, WantedKey};
use turn_session_book::held::HeldGrant;
use turn_session_book::keys::Key;

/// The address of a peer, 192.0.2.x.
fn peer(last: u8) -> IpAddr {
    IpAddr::V4(Ipv4Addr::new(192, 0, 2, last))
}

/// A permission for it.
fn permission(last: u8) -> Key {
    Key::Permission(peer(last))
}

/// A channel to it.
fn channel(last: u8) -> Key {
    Key::Channel(SocketAddr::new(peer(last), 9_000))
}

/// What is wanted after a session with two permissions, of which one was let go, and a channel.
fn after_a_session(alloc: Global) -> Result<Wanted, AllocError> {
    let mut wanted = Wanted::new(alloc);
    wanted.begin();
    wanted.want_all(&[
        grant(permission(1), true),
        grant(permission(2), false),
        grant(channel(1), true),
    ])?;
    Ok(wanted)
}

/// The ticket of the caller, if it has one.
fn ticket_in(row: Option<WantedKey>) -> Option<u32> {
    match row {
        Some(row) => row.ticket,
        None => None,
    }
}

/// The key, if there is one.
fn key_in(row: Option<WantedKey>) -> Option<Key> {
    match row {
        Some(row) => Some(row.key),
        None => None,
    }
}

/// A grant that is kept or not.
fn grant(key: Key, is_kept: bool) -> HeldGrant {
    HeldGrant { key, is_kept }
}

#[test]
fn channels_are_requested_first(rt: HostRuntime) -> Result<(), Fail> {
    let mut wanted = after_a_session(rt.alloc())?;
    wanted.begin();
    check(&rt, wanted.next_key() == Some(channel(1)), 0);
    wanted.asked(channel(1));
    check(&rt, wanted.next_key().is_none(), 1);
    let _row = wanted.settled(channel(1));
    check(&rt, wanted.next_key() == Some(permission(1)), 2);
    wanted.asked(permission(1));
    check(&rt, wanted.next_key().is_none(), 3);
    check(&rt, !wanted.is_restored(), 4);
    let _row = wanted.settled(permission(1));
    check(&rt, wanted.is_restored(), 5);
    check(&rt, !wanted.is_wanted(permission(2)), 6);
    Ok(())
}

#[test]
fn each_session_is_asked_anew(rt: HostRuntime) -> Result<(), Fail> {
    let mut wanted = after_a_session(rt.alloc())?;
    wanted.begin();
    wanted.asked(channel(1));
    wanted.begin();
    check(&rt, wanted.next_key() == Some(channel(1)), 0);
    Ok(())
}

#[test]
fn a_request_has_one_ticket(rt: HostRuntime) -> Result<(), Fail> {
    let mut wanted = after_a_session(rt.alloc())?;
    check(&rt, wanted.request(permission(3))? == 1, 0);
    check(&rt, wanted.request(permission(1))? == 2, 1);
    check(&rt, wanted.request(permission(3))? == 1, 2);
    let row = wanted.settled(permission(1));
    check(&rt, ticket_in(row) == Some(2), 3);
    check(&rt, wanted.settled(permission(1)).is_none(), 4);
    check(&rt, wanted.request(permission(1))? == 3, 5);
    Ok(())
}

#[test]
fn a_request_of_the_caller_does_not_hold_the_relay_down(rt: HostRuntime) -> Result<(), Fail> {
    let mut wanted = Wanted::new(rt.alloc());
    let _ticket = wanted.request(permission(1))?;
    wanted.begin();
    check(&rt, wanted.is_restored(), 0);
    check(&rt, wanted.next_key() == Some(permission(1)), 1);
    Ok(())
}

#[test]
fn an_answer_in_doubt_counts_in_its_session(rt: HostRuntime) -> Result<(), Fail> {
    let mut wanted = after_a_session(rt.alloc())?;
    wanted.begin();
    wanted.asked(channel(1));
    wanted.unsure(channel(1), Unsure::TimedOut(None), at(10_000));
    check(&rt, wanted.next_key() == Some(permission(1)), 0);
    check(&rt, wanted.due() == Some(at(10_000)), 1);
    check(&rt, wanted.counts(at(9_999)).is_none(), 2);
    let row = wanted.counts(at(10_000));
    check(&rt, key_in(row) == Some(channel(1)), 3);
    wanted.begin();
    check(&rt, wanted.counts(at(10_000)).is_none(), 4);
    check(&rt, wanted.due().is_none(), 5);
    check(&rt, wanted.next_key() == Some(channel(1)), 6);
    Ok(())
}

//! Peers that are idle are released, and kept again.

use crate::fixture::{at, check, ip, peer, permission};
use std::alloc::AllocError;
use std::net::SocketAddr;
use std::process::Abort;
use std::test::Fail;
use turn_session_book::held::HeldGrant;
use turn_session_book::keys::Key;
use turn_session_idle::peers::{IdlePeers, IdleStep};
use turn_stun::instant::Instant;

/// A peer is idle after this time, in nanoseconds: 4 s. It is looked for idle peers each second.
const IDLE: u64 = 4_000_000_000;

/// A grant that the caller keeps.
fn kept(key: Key) -> HeldGrant {
    HeldGrant { key, is_kept: true }
}

/// A grant that is released.
fn released(key: Key) -> HeldGrant {
    HeldGrant {
        key,
        is_kept: false,
    }
}

/// Asserts that this is to be done at this time, in milliseconds.
fn is_step(
    rt: &impl Abort,
    peers: &mut IdlePeers,
    granted: &[HeldGrant],
    now: u32,
    step: IdleStep,
) -> Result<(), AllocError> {
    let found = peers.poll(granted, at(now))?;
    check(rt, found == step, now);
    Ok(())
}

/// Asserts that nothing is to be done at this time, in milliseconds, and that the next look is at the other.
fn waits(
    rt: &impl Abort,
    peers: &mut IdlePeers,
    granted: &[HeldGrant],
    now: u32,
    look: u32,
) -> Result<(), AllocError> {
    is_step(rt, peers, granted, now, IdleStep::WaitUntil(at(look)))
}

/// Looks at a grant that is first seen at 0 s, until its peer is idle.
fn until_idle(rt: &impl Abort, peers: &mut IdlePeers, key: Key) -> Result<(), AllocError> {
    let granted = [kept(key)];
    waits(rt, peers, &granted, 0, 1_000)?;
    waits(rt, peers, &granted, 1_000, 2_000)?;
    waits(rt, peers, &granted, 2_000, 3_000)?;
    waits(rt, peers, &granted, 3_000, 4_000)?;
    is_step(rt, peers, &granted, 4_000, IdleStep::Release(key))?;
    waits(rt, peers, &[released(key)], 4_000, 5_000)
}

#[test]
fn an_idle_peer_is_released_and_kept_again(rt: HostRuntime) -> Result<(), Fail> {
    let mut peers = IdlePeers::new(rt.alloc(), Some(IDLE), Instant::ZERO);
    let key = permission(3);
    until_idle(&rt, &mut peers, key)?;
    waits(&rt, &mut peers, &[released(key)], 9_000, 10_000)?;
    peers.used(Key::Channel(peer(3)), at(9_500));
    is_step(
        &rt,
        &mut peers,
        &[released(key)],
        9_500,
        IdleStep::Keep(key),
    )?;
    waits(&rt, &mut peers, &[kept(key)], 9_500, 10_000)?;
    waits(&rt, &mut peers, &[kept(key)], 13_400, 14_400)?;
    is_step(
        &rt,
        &mut peers,
        &[kept(key)],
        14_400,
        IdleStep::Release(key),
    )?;
    Ok(())
}

#[test]
fn a_port_is_idle_by_itself(rt: HostRuntime) -> Result<(), Fail> {
    let mut peers = IdlePeers::new(rt.alloc(), Some(IDLE), Instant::ZERO);
    let channel = Key::Channel(peer(3));
    let granted = [kept(channel), kept(permission(3)), kept(permission(4))];
    waits(&rt, &mut peers, &granted, 0, 1_000)?;
    peers.used(Key::Channel(SocketAddr::new(ip(3), 9_001)), at(3_500));
    is_step(&rt, &mut peers, &granted, 4_000, IdleStep::Release(channel))?;
    let left = [released(channel), kept(permission(3)), kept(permission(4))];
    is_step(
        &rt,
        &mut peers,
        &left,
        4_000,
        IdleStep::Release(permission(4)),
    )?;
    let left = [
        released(channel),
        kept(permission(3)),
        released(permission(4)),
    ];
    waits(&rt, &mut peers, &left, 4_000, 5_000)?;
    Ok(())
}

#[test]
fn what_the_caller_released_stays_so(rt: HostRuntime) -> Result<(), Fail> {
    let mut peers = IdlePeers::new(rt.alloc(), Some(IDLE), Instant::ZERO);
    let key = permission(3);
    until_idle(&rt, &mut peers, key)?;
    peers.decided(key);
    peers.used(key, at(4_500));
    waits(&rt, &mut peers, &[released(key)], 4_500, 5_000)?;
    waits(&rt, &mut peers, &[released(key)], 5_000, 6_000)?;
    peers.used(key, at(5_500));
    waits(&rt, &mut peers, &[released(key)], 60_000, 61_000)?;
    Ok(())
}

#[test]
fn no_peer_is_idle_where_it_is_off(rt: HostRuntime) -> Result<(), Fail> {
    let mut peers = IdlePeers::new(rt.alloc(), None, Instant::ZERO);
    let granted = [kept(permission(3))];
    is_step(&rt, &mut peers, &granted, 0, IdleStep::Off)?;
    is_step(&rt, &mut peers, &granted, 4_000_000, IdleStep::Off)?;
    Ok(())
}

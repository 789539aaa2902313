//! Worked rows of the table alone.

ghost use Rattle.std.specs.Prelude.{◌≡◌, ℕ, [], true};
ghost use Rattle.std.specs.List.{list_all};
ghost use Rattle.turn_client_api.specs.declared.grant.Grant.TheVariants.{Channel};
ghost use Rattle.turn_client_api.specs.declared.grant.Progress.TheVariants.{Pending, Reserved};
ghost use Rattle.turn_client_grants.specs.Table.{are_new, is_numbered};

use crate::fixture::same;
use std::alloc::{AllocError, Global};
use std::net::{IpAddr, Ipv4Addr, Ipv6Addr, SocketAddr};
use std::process::Abort;
use std::test::Fail;
use std::time::Duration;
use turn_client_api::{DataConnection, Grant, Lease, Progress, Purpose, Relay};
use turn_client_grants::{GrantLedger, Purposes, connection_count};
use turn_stun::instant::Instant;
use turn_stun::transaction::TransactionId;
use turn_stun::transport::TransportType;
use turn_types::AddressFamily;

fn peer() -> SocketAddr {
    SocketAddr::new(IpAddr::V4(Ipv4Addr::new(192, 0, 2, 7)), 4_000)
}

fn peer_ipv6() -> SocketAddr {
    SocketAddr::new(
        IpAddr::V6(Ipv6Addr::new(0x2001, 0xdb8, 0, 0, 0, 0, 0, 7)),
        4_000,
    )
}

fn seconds(count: u64) -> Instant {
    Instant::from_nanos(count.saturating_mul(1_000_000_000))
}

/// An allocation with a first lifetime of 1800 s.
fn relay(expiry: u64) -> Relay {
    Relay {
        relayed: peer(),
        first_lifetime: 1_800_000_000_000,
        expiry: seconds(expiry),
        is_expired: false,
    }
}

fn pending_channel() -> Grant
    ensures { (to : SocketAddr) × (result ≡ Channel 0x4000 to (Pending true)) }
{
    Grant::Channel(0x4000, peer(), Progress::Pending(true))
}

fn reserved_channel() -> Grant
    ensures { (to : SocketAddr) × (end : ℕ) × (result ≡ Channel 0x4001 to (Reserved end)) }
{
    Grant::Channel(0x4001, peer_ipv6(), Progress::Reserved(seconds(900)))
}

/// A data connection that is to be bound by 40 s.
fn waiting() -> DataConnection {
    DataConnection {
        local: peer(),
        peer: peer(),
        deadline: Some(seconds(40)),
    }
}

/// The REFRESH that requests 1800 s.
fn refresh() -> Purpose {
    Purpose::ForRefresh(AddressFamily::IPV4, 1_800)
}

/// A ledger with these grants, for which a request with these purposes was made.
fn holding(alloc: Global, grants: &[Grant], purposes: &Purposes) -> Result<GrantLedger, AllocError>
    requires numbered { list_all is_numbered grants.now ≡ true }
    requires new { are_new [] grants.now ≡ true }
{
    let mut ledger = GrantLedger::new(TransportType::Udp, alloc);
    ledger.reserve(grants.len(), 2, 0, connection_count(grants))?;
    ledger.ask(TransactionId::from_bytes([7; 12]), grants, purposes);
    Ok(ledger)
}

/// The least number that is free beside these grants.
fn number_left(alloc: Global, grants: &[Grant]) -> Result<Option<u16>, AllocError>
    requires numbered { list_all is_numbered grants.now ≡ true }
    requires new { are_new [] grants.now ≡ true }
{
    let ledger = holding(alloc, grants, &Purposes::none())?;
    Ok(ledger.table().free_number())
}

/// Channels of both families share their numbers (RFC 8656, section 12): the free number is the
/// least one.
fn numbers_left(rt: &impl Abort, alloc: Global) -> Result<(), AllocError> {
    same(rt, number_left(alloc, &[])?, Some(0x4000));
    let pending = [pending_channel()];
    same(rt, number_left(alloc, &pending)?, Some(0x4001));
    let reserved = [reserved_channel()];
    same(rt, number_left(alloc, &reserved)?, Some(0x4000));
    let both = [pending_channel(), reserved_channel()];
    same(rt, number_left(alloc, &both)?, Some(0x4002));
    Ok(())
}

/// Until when the peer is reserved for a channel of these two.
fn reserved_until(
    alloc: Global,
    peer: SocketAddr,
    now: Instant,
) -> Result<Option<Instant>, AllocError> {
    let grants = [pending_channel(), reserved_channel()];
    let ledger = holding(alloc, &grants, &Purposes::none())?;
    Ok(ledger.table().reserved_until(peer, now))
}

/// A reserved channel keeps its peer until the end of its reservation, inclusive.
fn times_reserved(rt: &impl Abort, alloc: Global) -> Result<(), AllocError> {
    same(rt, reserved_until(alloc, peer(), seconds(0))?, None);
    let last = reserved_until(alloc, peer_ipv6(), seconds(900))?;
    same(rt, last, Some(seconds(900)));
    let past = reserved_until(alloc, peer_ipv6(), seconds(901))?;
    same(rt, past, None);
    Ok(())
}

/// Active until this time, and kept.
fn active_until(expiry: Instant) -> Progress {
    Progress::Active(Lease {
        expiry,
        is_kept: true,
    })
}

/// The purpose of the first refresh of an allocation, a permission and a channel, which all expire
/// at 300 s.
fn first_refresh(
    alloc: Global,
    asked: &Purposes,
    now: Instant,
) -> Result<Option<Purpose>, AllocError> {
    let end = seconds(300);
    let grants = [
        Grant::Permission(peer().ip(), active_until(end)),
        Grant::Channel(0x4000, peer(), active_until(end)),
        Grant::Allocation(relay(300)),
    ];
    let ledger = holding(alloc, &grants, asked)?;
    Ok(ledger.table().first_refresh(now, Duration::from_secs(60)))
}

/// An allocation is refreshed 60 s before its expiry, and before the grants in it (our choice).
fn refreshes(rt: &impl Abort, alloc: Global) -> Result<(), AllocError> {
    let none = Purposes::none();
    let early = first_refresh(alloc, &none, seconds(239))?;
    same(rt, early, None);
    let due = first_refresh(alloc, &none, seconds(240))?;
    same(rt, due, Some(refresh()));
    let next = first_refresh(alloc, &Purposes::one(refresh()), seconds(240))?;
    same(rt, next, Some(Purpose::ForChannel(0x4000, peer())));
    Ok(())
}

/// When an allocation that expires at 1800 s or a permission that expires at 300 s is due.
fn soonest(alloc: Global, now: u64, pause: u64) -> Result<Instant, AllocError> {
    let permission = Grant::Permission(peer().ip(), active_until(seconds(300)));
    let grants = [Grant::Allocation(relay(1_800)), permission];
    let ledger = holding(alloc, &grants, &Purposes::none())?;
    let far = seconds(9_999);
    let ahead = Duration::from_secs(60);
    Ok(
        ledger
            .table()
            .soonest(far, seconds(now), seconds(pause), ahead),
    )
}

/// An expiry within the pause comes before the refresh, which has to wait for the pause.
fn wakeups(rt: &impl Abort, alloc: Global) -> Result<(), AllocError> {
    same(rt, soonest(alloc, 200, 0)?, seconds(240));
    same(rt, soonest(alloc, 299, 301)?, seconds(300));
    Ok(())
}

/// How many of an allocation and a connection in it that waits to be bound are left at this time.
fn left_at(alloc: Global, now: u64) -> Result<usize, AllocError> {
    let grants = [
        Grant::Allocation(relay(1_800)),
        Grant::Connection(waiting()),
    ];
    let mut ledger = holding(alloc, &grants, &Purposes::none())?;
    ledger.expire_grants(false, None, seconds(now));
    Ok(ledger.table().count())
}

/// A connection that waits to be bound is late at its deadline (RFC 6062, section 4.3).
fn deadlines(rt: &impl Abort, alloc: Global) -> Result<(), AllocError> {
    same(rt, left_at(alloc, 39)?, 2);
    same(rt, left_at(alloc, 40)?, 1);
    Ok(())
}

/// Whether an allocation of this first lifetime, in seconds, that was deleted at 100 s is left at this time, while the REFRESH
/// has no response.
fn is_awaited(
    alloc: Global,
    timed_from_send: bool,
    first_lifetime: u64,
    now: u64,
) -> Result<bool, AllocError> {
    let deleted = Relay {
        relayed: peer(),
        first_lifetime: first_lifetime.saturating_mul(1_000_000_000),
        expiry: seconds(100),
        is_expired: true,
    };
    let grants = [Grant::Allocation(deleted)];
    let mut ledger = holding(alloc, &grants, &Purposes::one(refresh()))?;
    ledger.expire_grants(timed_from_send, None, seconds(now));
    Ok(ledger.table().count() == 1)
}

/// A REFRESH that no caller takes does not time out, if requests are timed from when they are sent: the allocation goes once the
/// server has surely ended it.
fn final_expiries(rt: &impl Abort, alloc: Global) -> Result<(), AllocError> {
    same(rt, is_awaited(alloc, true, 1_800, 1_899)?, true);
    same(rt, is_awaited(alloc, true, 1_800, 1_900)?, false);
    same(rt, is_awaited(alloc, false, 1_800, 1_900)?, true);
    same(rt, is_awaited(alloc, true, 60, 699)?, true);
    same(rt, is_awaited(alloc, true, 60, 700)?, false);
    Ok(())
}

#[test]
fn worked_rows(rt: HostRuntime) -> Result<(), Fail> {
    numbers_left(&rt, rt.alloc())?;
    times_reserved(&rt, rt.alloc())?;
    refreshes(&rt, rt.alloc())?;
    wakeups(&rt, rt.alloc())?;
    deadlines(&rt, rt.alloc())?;
    final_expiries(&rt, rt.alloc())?;
    Ok(())
}

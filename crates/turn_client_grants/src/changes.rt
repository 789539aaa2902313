//! How lists of grants change.

ghost use Rattle.std.specs.Prelude.{◌≡◌, ◌≤◌, ◌<◌, ◌+◌, ◌++◌, ◌∷◌, [], true, drop, filter, length, map, not, take, vec_capacity, vec_len};
ghost use Rattle.std.specs.List.{list_any};
ghost use Rattle.std.specs.Prelude.{ℕ};
ghost use Rattle.std.specs.declared.net.ip_addr.IpAddr.{IpAddr};
ghost use Rattle.std.specs.declared.net.socket_addr.SocketAddr.{SocketAddr};
ghost use Rattle.turn_client_api.specs.Calls.{marked};
ghost use Rattle.turn_client_api.specs.declared.grant.Grant.TheVariants.{Permission, Channel};
ghost use Rattle.turn_client_api.specs.Connections.{deadline_set};
ghost use Rattle.turn_client_api.specs.Effect.{lasting, new_allocation};
ghost use Rattle.turn_client_api.specs.Grants.{changed_allocation, is_of_family};
ghost use Rattle.turn_client_grants.specs.Found.{LeavesOthers};
ghost use Rattle.turn_client_grants.specs.Keys.{is_found_by};
ghost use Rattle.turn_client_grants.specs.Lists.{AreLeft};
ghost use Rattle.turn_client_grants.specs.Table.{changed};
ghost use Rattle.turn_client_grants.specs.GrantFilter.{holds};

use crate::grant_filter::GrantFilter;
use crate::key::Key;
use crate::kind::is_of_family;
use crate::time::{NANOS_PER_SECOND, later};
use std::net::SocketAddr;
use turn_client_api::{DataConnection, Grant, Lease, Progress, Relay};
use turn_stun::instant::Instant;
use turn_types::AddressFamily;

/// A change of grants that keep their places.
#[derive(Clone, Copy, Debug, PartialEq, Eq)]
pub enum Change {
    /// The allocation of this family is marked as expired: it is used no more for sending.
    Expire(AddressFamily),
    /// All allocations are marked as expired, and expire at this time.
    EndAll(Instant),
    /// The allocation of this family expires at this time.
    Prolong(AddressFamily, Instant),
    /// The active ones of these grants expire at this time.
    Renew(GrantFilter, Instant),
    /// The pending and active ones of these grants are kept from now on, or not.
    Keep(GrantFilter, bool),
    /// The data connection from this local address is to be bound by this time, or is bound.
    Deadline(SocketAddr, Option<Instant>),
}

impl Change {
    /// The grant after the change.
    #[tactic(auto, unfolding(crate::specs::Table::changed))]
    pub(crate) fn applied(&self, grant: &Grant) -> Grant
        ensures { result ≡ changed self.now grant.now }
    {
        match self {
            Change::Expire(family) => expired(*family, grant),
            Change::EndAll(now) => ended(*now, grant),
            Change::Prolong(family, expiry) => prolonged(*family, *expiry, grant),
            Change::Renew(which, expiry) => {
                if which.holds(grant) {
                    return renewed(*expiry, grant);
                }
                *grant
            }
            Change::Keep(which, is_kept) => {
                if which.holds(grant) {
                    return marked(*is_kept, grant);
                }
                *grant
            }
            Change::Deadline(local, deadline) => with_deadline(*local, *deadline, grant),
        }
    }
}

/// The grant, if the allocation of this family is marked as expired.
fn expired(family: AddressFamily, grant: &Grant) -> Grant
    ensures { result ≡ changed_allocation (λ a. is_of_family family a.relayed) (λ a. record a { is_expired = true }) grant.now }
{
    match grant {
        Grant::Allocation(relay) => Grant::Allocation(Relay {
            is_expired: relay.is_expired || is_of_family(family, relay.relayed),
            ..*relay
        }),
        _ => *grant,
    }
}

/// The grant, if all allocations are marked as expired, and expire now.
fn ended(now: Instant, grant: &Grant) -> Grant
    ensures { result ≡ changed_allocation (λ a. true) (λ a. record a { expiry = now; is_expired = true }) grant.now }
{
    match grant {
        Grant::Allocation(relay) => Grant::Allocation(Relay {
            expiry: now,
            is_expired: true,
            ..*relay
        }),
        _ => *grant,
    }
}

/// The grant, if the allocation of this family expires at this time.
fn prolonged(family: AddressFamily, expiry: Instant, grant: &Grant) -> Grant
    ensures { result ≡ changed_allocation (λ a. is_of_family family a.relayed) (λ a. record a { expiry = expiry }) grant.now }
{
    let Grant::Allocation(relay) = grant else {
        return *grant;
    };
    if is_of_family(family, relay.relayed) {
        return Grant::Allocation(Relay { expiry, ..*relay });
    }
    *grant
}

/// The grant, which expires at this time if it is active.
fn renewed(expiry: Instant, grant: &Grant) -> Grant
    ensures { result ≡ lasting expiry grant.now }
{
    match grant {
        Grant::Permission(ip, Progress::Active(lease)) => Grant::Permission(
            *ip,
            Progress::Active(Lease { expiry, ..*lease }),
        ),
        Grant::Channel(number, peer, Progress::Active(lease)) => {
            Grant::Channel(*number, *peer, Progress::Active(Lease { expiry, ..*lease }))
        }
        _ => *grant,
    }
}

/// The progress of what is kept from now on, or not.
fn with_mark(is_kept: bool, progress: Progress) -> Progress
    ensures permission { (ip : IpAddr) → Permission ip result ≡ marked is_kept (Permission ip progress) }
    ensures channel { (number : ℕ) (peer : SocketAddr) → Channel number peer result ≡ marked is_kept (Channel number peer progress) }
{
    match progress {
        Progress::Pending(_) => Progress::Pending(is_kept),
        Progress::Active(lease) => Progress::Active(Lease { is_kept, ..lease }),
        Progress::Reserved(until) => Progress::Reserved(until),
    }
}

/// The grant, which is kept from now on, or not, if it is pending or active.
fn marked(is_kept: bool, grant: &Grant) -> Grant
    ensures { result ≡ marked is_kept grant.now }
{
    match grant {
        Grant::Permission(ip, progress) => Grant::Permission(*ip, with_mark(is_kept, *progress)),
        Grant::Channel(number, peer, progress) => {
            Grant::Channel(*number, *peer, with_mark(is_kept, *progress))
        }
        _ => *grant,
    }
}

/// The grant, if the data connection from this local address has this deadline.
fn with_deadline(local: SocketAddr, deadline: Option<Instant>, grant: &Grant) -> Grant
    ensures { result ≡ deadline_set local deadline grant.now }
{
    let Grant::Connection(connection) = grant else {
        return *grant;
    };
    if connection.local == local {
        return Grant::Connection(DataConnection {
            deadline,
            ..*connection
        });
    }
    *grant
}

/// Applies the change to all grants, which keep their places.
pub(crate) fn apply(grants: &mut Vec<Grant>, change: &Change)
    ensures items { grants.new.items ≡ map (changed change.now) grants.old.items }
    ensures capacity { vec_capacity grants.new ≡ vec_capacity grants.old }
    ensures len { vec_len grants.new ≡ vec_len grants.old }
{
    let all = grants.as_mut_slice();
    for grant in all.iter_mut() {
        *grant = change.applied(grant);
    }
}

/// Applies the change to the grant that the key finds: it leaves all others. All keep their places.
pub(crate) fn apply_to(grants: &mut Vec<Grant>, key: &Key, change: &Change)
    requires { LeavesOthers key.now change.now }
    ensures items { grants.new.items ≡ map (changed change.now) grants.old.items }
    ensures capacity { vec_capacity grants.new ≡ vec_capacity grants.old }
    ensures len { vec_len grants.new ≡ vec_len grants.old }
{
    let all = grants.as_mut_slice();
    for grant in all.iter_mut() {
        if key.finds(grant) {
            *grant = change.applied(grant);
        }
    }
}

/// Adds a grant after all others. There must be room for it.
pub(crate) fn add(grants: &mut Vec<Grant>, grant: &Grant)
    requires { vec_len grants.old < vec_capacity grants.old }
    ensures items { grants.new.items ≡ grants.old.items ++ grant.now ∷ [] }
    ensures capacity { vec_capacity grants.old ≤ vec_capacity grants.new }
    ensures len { vec_len grants.new ≡ vec_len grants.old + 1 }
{
    let _ = grants.extend_from_slice(&[*grant]);
}

/// Adds grants after all others. There must be room for them.
pub(crate) fn add_all(grants: &mut Vec<Grant>, more: &[Grant])
    requires { vec_len grants.old + length more.now ≤ vec_capacity grants.old }
    ensures items { grants.new.items ≡ grants.old.items ++ more.now }
    ensures capacity { vec_capacity grants.old ≤ vec_capacity grants.new }
    ensures len { vec_len grants.new ≡ vec_len grants.old + length more.now }
{
    let _ = grants.extend_from_slice(more);
}

/// The allocation with this relayed address, which the server granted for so many seconds.
fn new_allocation(relayed: SocketAddr, lifetime: u32, now: Instant) -> Grant
    ensures { result ≡ new_allocation lifetime now relayed }
{
    Grant::Allocation(Relay {
        relayed,
        first_lifetime: u64::from(lifetime) * NANOS_PER_SECOND,
        expiry: later(now, u64::from(lifetime)),
        is_expired: false,
    })
}

/// Adds the allocations with these relayed addresses after all other grants. There must be room for
/// them.
pub(crate) fn add_allocations(
    grants: &mut Vec<Grant>,
    addresses: &[SocketAddr],
    lifetime: u32,
    now: Instant,
)
    requires { vec_len grants.old + length addresses.now ≤ vec_capacity grants.old }
    ensures items { grants.new.items ≡ grants.old.items ++ map (new_allocation lifetime now) addresses.now }
    ensures capacity { vec_capacity grants.old ≤ vec_capacity grants.new }
    ensures len { vec_len grants.new ≡ vec_len grants.old + length addresses.now }
{
    for address in addresses {
        add(grants, &new_allocation(*address, lifetime, now));
    }
}

/// Whether one of these grants is there.
pub(crate) fn has_any(grants: &[Grant], which: &GrantFilter) -> bool
    ensures { result ≡ list_any (holds which.now) grants.now }
{
    grants.iter().any(|grant| which.holds(grant))
}

/// Whether none of these grants is there.
pub(crate) fn are_absent(grants: &[Grant], which: &GrantFilter) -> bool
    ensures { result ≡ not (list_any (holds which.now) grants.now) }
{
    !has_any(grants, which)
}

/// How many grants stand before the first of these.
pub(crate) fn count_before(grants: &[Grant], which: &GrantFilter) -> usize
    ensures { AreLeft (holds which.now) grants.now result }
{
    'rows: for (place, grant) in grants.iter().enumerate() {
        if which.holds(grant) {
            return place;
        }
    }
    grants.len()
}

/// How many grants stand before the one that this key finds, or all if it finds none. It finds one at most, and what changes is
/// mostly among the last ones: these are looked at first.
pub(crate) fn count_before_found(grants: &[Grant], key: &Key) -> usize
    requires alone { length (filter (is_found_by key.now) grants.now) ≤ 1 }
    ensures left { AreLeft (is_found_by key.now) grants.now result }
    ensures others { filter (λ g. not (is_found_by key.now g)) grants.now ≡ take result grants.now ++ drop (result + 1) grants.now }
{
    let mut place = grants.len();
    'rows: while 0 < place {
        place -= 1;
        if key.finds(&grants[place]) {
            return place;
        }
    }
    grants.len()
}

/// Removes these grants.
pub(crate) fn remove(grants: &mut Vec<Grant>, which: &GrantFilter)
    ensures items { grants.new.items ≡ filter (λ g. not (holds which.now g)) grants.old.items }
    ensures capacity { vec_capacity grants.new ≡ vec_capacity grants.old }
    ensures len { vec_len grants.new ≤ vec_len grants.old }
{
    grants.retain(|grant| !which.holds(grant));
}

/// Removes the grant at this place, if there is one.
pub(crate) fn remove_at(grants: &mut Vec<Grant>, place: usize)
    ensures items { grants.new.items ≡ take place grants.old.items ++ drop (place + 1) grants.old.items }
    ensures capacity { vec_capacity grants.new ≡ vec_capacity grants.old }
    ensures len { vec_len grants.new ≤ vec_len grants.old }
{
    if place < grants.len() {
        grants.remove(place);
    }
}

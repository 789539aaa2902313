//! When a grant is to be refreshed, and the earlier of two times.

ghost use Rattle.std.specs.Duration.{as_nanos};
ghost use Rattle.std.specs.Option.{option_map_or};
ghost use Rattle.std.specs.Prelude.{◌≡◌, ◌-◌, false, fold, map, max, min, not, option_to_list};
ghost use Rattle.turn_client_api.specs.Due.{final_expiry, is_refreshable, refresh_time_by_kind, refresh_time_of, time_ahead, keeps};
ghost use Rattle.turn_client_api.specs.State.{State};
ghost use Rattle.turn_client_api.specs.Transmit.{is_refresh_due};
ghost use Rattle.turn_client_grants.specs.Lists.{find_allocation_in, with_ahead, with_lists};
ghost use Rattle.turn_client_grants.specs.Pending.{has_lease, is_refreshed};

use crate::kind::{family_of, family_of_ip};
use crate::listed::has_request;
use crate::reads::find_allocation;
use std::time::Duration;
use turn_client_api::{Grant, Listing, Progress, Relay};
use turn_stun::instant::Instant;
use turn_types::AddressFamily;

/// The lifetimes of a permission and of a channel, in nanoseconds (RFC 8656, sections 9 and 12).
pub(crate) const PERMISSION_LIFETIME: u64 = 300_000_000_000;

pub(crate) const CHANNEL_LIFETIME: u64 = 600_000_000_000;

/// The least lifetime that a refresh of an allocation grants, in nanoseconds (RFC 8656, section 7.2).
const MIN_LIFETIME: u64 = 600_000_000_000;

/// How long before its expiry a grant of this lifetime is refreshed, in nanoseconds: no more than half
/// of the lifetime (our choice).
pub(crate) fn time_ahead(ahead: Duration, lifetime: u64) -> u64
    ensures { result ≡ time_ahead (as_nanos ahead) lifetime }
{
    let half = lifetime / 2;
    match u64::try_from(ahead.as_nanos()) {
        Ok(nanos) => nanos.min(half),
        Err(_) => half,
    }
}

/// The time so many nanoseconds earlier, or the start of the clock if that is later.
fn earlier(time: Instant, nanos: u64) -> Instant
    ensures { result ≡ time - nanos }
{
    Instant::from_nanos(time.as_nanos().saturating_sub(nanos))
}

/// When the allocation is to be refreshed.
pub(crate) fn refresh_time_of(ahead: Duration, relay: &Relay) -> Instant
    ensures { result ≡ refresh_time_of (as_nanos ahead) relay.now }
{
    let lifetime = relay.first_lifetime.min(MIN_LIFETIME);
    earlier(relay.expiry, time_ahead(ahead, lifetime))
}

/// Until when a response is awaited for the allocation, which is marked as expired, if the request may never leave: as long after
/// its expiry as the server granted at first, and at least as a refresh grants (our choice).
pub(crate) fn final_expiry(relay: &Relay) -> Instant
    ensures { result ≡ final_expiry relay.now }
{
    let lifetime = relay.first_lifetime.max(MIN_LIFETIME);
    relay.expiry.plus(Duration::from_nanos(lifetime))
}

/// Whether there is an allocation of this family that is not expired.
fn is_family_in_use(grants: &[Grant], family: AddressFamily) -> bool
    ensures { result ≡ option_map_or (λ a. not a.is_expired) (find_allocation_in family grants.now) false }
{
    match find_allocation(grants, family) {
        Some(relay) => !relay.is_expired,
        None => false,
    }
}

/// Whether a permission or a channel of this progress is kept.
fn keeps(progress: &Progress) -> bool
    ensures { result ≡ keeps progress.now }
{
    match progress {
        Progress::Pending(is_kept) => *is_kept,
        Progress::Active(lease) => lease.is_kept,
        Progress::Reserved(_) => true,
    }
}

/// Whether the grant is in an allocation that is not expired, and is kept.
pub(crate) fn is_in_use(grants: &[Grant], listed: &[Listing], grant: &Grant) -> bool
    ensures { (s : State) → result ≡ is_refreshable grant.now (with_lists grants.now listed.now s) }
{
    match grant {
        Grant::Allocation(relay) => !relay.is_expired,
        Grant::Permission(ip, progress) => {
            keeps(progress) && is_family_in_use(grants, family_of_ip(*ip))
        }
        Grant::Channel(_, peer, progress) => {
            keeps(progress) && is_family_in_use(grants, family_of(*peer))
        }
        Grant::Connect(peer) => is_family_in_use(grants, family_of(*peer)),
        Grant::Offer(offer) => is_family_in_use(grants, family_of(offer.peer)),
        Grant::Connection(connection) => is_family_in_use(grants, family_of(connection.peer)),
    }
}

/// When a grant of its kind is refreshed, if ever.
fn refresh_time_by_kind(ahead: Duration, grant: &Grant) -> Option<Instant>
    ensures { result ≡ refresh_time_by_kind (as_nanos ahead) grant.now }
{
    match grant {
        Grant::Allocation(relay) => Some(refresh_time_of(ahead, relay)),
        Grant::Permission(_, Progress::Active(lease)) => {
            Some(earlier(lease.expiry, time_ahead(ahead, PERMISSION_LIFETIME)))
        }
        Grant::Permission(_, Progress::Pending(_)) => None,
        Grant::Permission(_, Progress::Reserved(_)) => None,
        Grant::Channel(_, _, Progress::Active(lease)) => {
            Some(earlier(lease.expiry, time_ahead(ahead, CHANNEL_LIFETIME)))
        }
        Grant::Channel(_, _, Progress::Pending(_)) => None,
        Grant::Channel(_, _, Progress::Reserved(_)) => None,
        Grant::Connect(_) => None,
        Grant::Offer(_) => None,
        Grant::Connection(_) => None,
    }
}

/// Whether a grant of its kind is refreshed.
pub(crate) fn is_refreshed(grant: &Grant) -> bool
    ensures { result ≡ is_refreshed grant.now }
{
    match grant {
        Grant::Allocation(_) => true,
        Grant::Permission(_, progress) => is_active(progress),
        Grant::Channel(_, _, progress) => is_active(progress),
        Grant::Connect(_) => false,
        Grant::Offer(_) => false,
        Grant::Connection(_) => false,
    }
}

/// Whether the server granted it, and it is not reserved.
fn is_active(progress: &Progress) -> bool
    ensures { result ≡ has_lease progress.now }
{
    matches!(progress, Progress::Active(_))
}

/// Whether the time to refresh the grant has come, and no request for that is pending. The allocations and the requests are looked
/// through only for a grant that falls due.
#[tactic(auto, unfolding(turn_client_api::specs::Transmit::is_refresh_due))]
pub(crate) fn is_refresh_due(
    ahead: Duration,
    grants: &[Grant],
    listed: &[Listing],
    grant: &Grant,
    now: Instant,
) -> bool
    ensures { (s : State) → result ≡ is_refresh_due now (with_ahead (as_nanos ahead) (with_lists grants.now listed.now s)) grant.now }
{
    let Some(time) = refresh_time_by_kind(ahead, grant) else {
        return false;
    };
    if now < time {
        return false;
    }
    is_in_use(grants, listed, grant) && !has_request(listed, grant)
}

/// The earlier of the time and the other one, if there is one.
pub(crate) fn least(time: Instant, other: Option<Instant>) -> Instant
    ensures { result ≡ fold min time (option_to_list other) }
{
    match other {
        Some(other) => time.min(other),
        None => time,
    }
}

/// The time, if there is one, but not before the pause between two requests ends.
pub(crate) fn after_pause(pause: Instant, time: Option<Instant>) -> Option<Instant>
    ensures { option_to_list result ≡ map (max pause) (option_to_list time) }
{
    match time {
        Some(time) => Some(pause.max(time)),
        None => None,
    }
}

//! What is read from one grant after the other: the earliest times, and whether there is a grant of some kind.

ghost use Rattle.std.specs.Prelude.{◌≡◌, ◌&&◌, ◌∷◌, [], List, fold, min, option_to_list};
ghost use Rattle.std.specs.List.{list_any};
ghost use Rattle.turn_client_api.specs.Grants.{is_for};
ghost use Rattle.turn_client_api.specs.State.{State};
ghost use Rattle.turn_client_api.specs.declared.grant.Grant.TheVariants.{Allocation};
ghost use Rattle.turn_client_grants.specs.Lists.{with_lists};
ghost use Rattle.turn_client_grants.specs.Passed.{adds_nothing, is_no_earlier};
ghost use Rattle.turn_client_grants.specs.Summary.{ReadsAlike, end_in, expiry_by_kind, is_requested};
ghost use Rattle.turn_client_grants.specs.Summary.{is_reserved, is_unreported, kept_expiry, expiry_time_in, needs_refresh};

use crate::due::{final_expiry, is_in_use, least};
use crate::listed::has_request;
use turn_client_api::{Grant, Listing, Origin, Progress, Relay};
use turn_stun::instant::Instant;

/// What was read from some grants.
#[derive(Clone, Copy, Debug, PartialEq, Eq)]
pub struct Totals {
    /// The earliest expiry or deadline of the grants other than allocations, or the greatest time.
    pub end: Instant,
    /// The earliest time at which a grant expires, in nanoseconds, or 2^63 if none does.
    pub next_expiry: u64,
    /// The earliest expiry of a permission that is to be refreshed, in nanoseconds, or 2^64 - 1.
    pub permissions: u64,
    /// The earliest expiry of a channel that is to be refreshed, in nanoseconds, or 2^64 - 1.
    pub channels: u64,
    /// Whether there is an offer that was not reported.
    pub has_unreported: bool,
    /// Whether there is an offer that the server made by a request.
    pub has_requested: bool,
    /// Whether a channel is reserved.
    pub has_reserved: bool,
}

/// What is read from these grants, too. `grants` are all grants: whether one of these is refreshed depends on them.
pub(crate) fn totals_of(
    start: &Totals,
    these: &[Grant],
    grants: &[Grant],
    listed: &[Listing],
) -> Totals
    ensures { ReadsAlike result [] start.now these.now grants.now listed.now }
{
    let mut totals = *start;
    for grant in these {
        totals = with_grant(&totals, grants, listed, grant);
    }
    totals
}

/// Whether the grant leaves what was read: it is an active permission or channel that expires no earlier than any that was read. Of
/// many grants most are passed over so, whatever their requests are.
fn adds_nothing(totals: &Totals, grant: &Grant) -> bool
    ensures { result ≡ adds_nothing totals.now grant.now }
{
    match grant {
        Grant::Permission(_, Progress::Active(lease)) => {
            is_no_earlier(totals, totals.permissions, lease.expiry.as_nanos())
        }
        Grant::Channel(_, _, Progress::Active(lease)) => {
            is_no_earlier(totals, totals.channels, lease.expiry.as_nanos())
        }
        _ => false,
    }
}

/// Whether the time, in nanoseconds, is no earlier than the earliest expiries, and than this expiry of what is to be refreshed.
fn is_no_earlier(totals: &Totals, refreshed: u64, time: u64) -> bool
    ensures { result ≡ is_no_earlier totals.now refreshed time }
{
    totals.end.as_nanos() <= time && totals.next_expiry <= time && refreshed <= time
}

/// What is read from one grant more.
fn with_grant(totals: &Totals, grants: &[Grant], listed: &[Listing], grant: &Grant) -> Totals
    ensures { ReadsAlike result [] totals.now (grant.now ∷ []) grants.now listed.now }
{
    let adds_nothing = adds_nothing(totals, grant);
    if adds_nothing {
        return *totals;
    }
    Totals {
        end: least(totals.end, end_in(grant)),
        next_expiry: least_nanos(totals.next_expiry, expiry_time_in(listed, grant)),
        permissions: least_kept(false, totals.permissions, grants, listed, grant),
        channels: least_kept(true, totals.channels, grants, listed, grant),
        has_unreported: totals.has_unreported || is_unreported(grant),
        has_requested: totals.has_requested || is_requested(grant),
        has_reserved: totals.has_reserved || is_reserved(grant),
    }
}

/// The expiry or the deadline of a grant other than an allocation.
fn end_in(grant: &Grant) -> Option<Instant>
    ensures { result ≡ end_in grant.now }
{
    match grant {
        Grant::Permission(_, Progress::Active(lease)) => Some(lease.expiry),
        Grant::Channel(_, _, Progress::Active(lease)) => Some(lease.expiry),
        Grant::Connection(connection) => connection.deadline,
        Grant::Permission(_, Progress::Pending(_) | Progress::Reserved(_)) => None,
        Grant::Channel(_, _, Progress::Pending(_) | Progress::Reserved(_)) => None,
        Grant::Allocation(_) => None,
        Grant::Connect(_) => None,
        Grant::Offer(_) => None,
    }
}

/// Whether the allocation is marked as expired, and a request for it awaits its response.
fn is_awaited(listed: &[Listing], relay: &Relay) -> bool
    ensures { result ≡ (relay.now.is_expired && list_any (λ l. is_for l.purpose (Allocation relay.now)) listed.now) }
{
    relay.is_expired && has_request(listed, &Grant::Allocation(*relay))
}

/// The time before which the grant does not expire, nor does its reservation end or its deadline pass, in nanoseconds.
fn expiry_time_in(listed: &[Listing], grant: &Grant) -> Option<u64>
    ensures { result ≡ expiry_time_in listed.now grant.now }
{
    match grant {
        Grant::Allocation(relay) => {
            if is_awaited(listed, relay) {
                return Some(final_expiry(relay).as_nanos());
            }
            Some(relay.expiry.as_nanos())
        }
        Grant::Permission(_, Progress::Active(lease)) => Some(lease.expiry.as_nanos()),
        Grant::Channel(_, _, Progress::Active(lease)) => Some(lease.expiry.as_nanos()),
        Grant::Channel(_, _, Progress::Reserved(until)) => Some(until.as_nanos() + 1),
        Grant::Connection(connection) => match connection.deadline {
            Some(deadline) => Some(deadline.as_nanos()),
            None => None,
        },
        Grant::Permission(_, Progress::Pending(_) | Progress::Reserved(_)) => None,
        Grant::Channel(_, _, Progress::Pending(_)) => None,
        Grant::Connect(_) => None,
        Grant::Offer(_) => None,
    }
}

/// The earlier of the time and the other one, if there is one.
fn least_nanos(time: u64, other: Option<u64>) -> u64
    ensures { result ≡ fold min time (option_to_list other) }
{
    match other {
        Some(other) => time.min(other),
        None => time,
    }
}

/// The expiry of an active channel, or of an active permission, in nanoseconds.
fn expiry_by_kind(of_channels: bool, grant: &Grant) -> Option<u64>
    ensures { result ≡ expiry_by_kind of_channels grant.now }
{
    match grant {
        Grant::Permission(_, Progress::Active(lease)) if !of_channels => {
            Some(lease.expiry.as_nanos())
        }
        Grant::Channel(_, _, Progress::Active(lease)) if of_channels => {
            Some(lease.expiry.as_nanos())
        }
        _ => None,
    }
}

/// Whether the active channel, or permission, is to be refreshed: its allocation is in use, and no request for it is pending.
fn needs_refresh(grants: &[Grant], listed: &[Listing], grant: &Grant) -> bool
    ensures { (s : State) → result ≡ needs_refresh grant.now (with_lists grants.now listed.now s) }
{
    is_in_use(grants, listed, grant) && !has_request(listed, grant)
}

/// The earlier of the time and of the expiry of the channel, or permission, if it is to be refreshed. The requests are
/// looked through for few of many grants: for those that expire before all that were seen.
#[tactic(auto, unfolding(crate::specs::Summary::kept_expiry))]
fn least_kept(
    of_channels: bool,
    time: u64,
    grants: &[Grant],
    listed: &[Listing],
    grant: &Grant,
) -> u64
    ensures { (s : State) → result ≡ fold min time (option_to_list (kept_expiry of_channels (with_lists grants.now listed.now s) grant.now)) }
{
    match expiry_by_kind(of_channels, grant) {
        Some(expiry) if expiry < time && needs_refresh(grants, listed, grant) => expiry,
        _ => time,
    }
}

/// Whether the grant is an offer that was not reported.
fn is_unreported(grant: &Grant) -> bool
    ensures { result ≡ is_unreported grant.now }
{
    matches!(grant, Grant::Offer(offer) if !offer.is_reported)
}

/// Whether the grant is an offer that the server made by a request.
fn is_requested(grant: &Grant) -> bool
    ensures { result ≡ is_requested grant.now }
{
    match grant {
        Grant::Offer(offer) => match offer.origin {
            Origin::ServerRequest(_) => true,
            Origin::OwnConnect | Origin::ServerIndication => false,
        },
        _ => false,
    }
}

/// Whether the grant is a reserved channel.
fn is_reserved(grant: &Grant) -> bool
    ensures { result ≡ is_reserved grant.now }
{
    matches!(grant, Grant::Channel(_, _, Progress::Reserved(_)))
}

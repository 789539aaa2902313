//! What is read from all grants at once, and kept until they change.

ghost use Rattle.std.specs.Prelude.{◌≡◌, ◌++◌, List, false, is_some};
ghost use Rattle.std.specs.Duration.{as_nanos};
ghost use Rattle.std.specs.List.{list_any};
ghost use Rattle.std.specs.Option.{option_map_or};
ghost use Rattle.turn_client_api.specs.Grants.{as_allocation};
ghost use Rattle.turn_client_api.specs.declared.grant.Grant.{Grant};
ghost use Rattle.turn_client_grants.specs.Summary.{IsSummary, is_to_refresh, refresh_in, relay_refresh};

use crate::due::{CHANNEL_LIFETIME, PERMISSION_LIFETIME, least, refresh_time_of, time_ahead};
use crate::kind::is_allocation;
use crate::listed::has_request;
use crate::reads::nth_allocation;
use crate::totals::{Totals, totals_of};
use std::time::Duration;
use turn_client_api::{Grant, Listing, Relay};
use turn_stun::instant::Instant;

/// The greatest time: no earlier one was found.
const GREATEST: u64 = (1 << 63) - 1;

/// Later than every time.
const NEVER: u64 = 1 << 63;

/// What is read from all grants at once. A change of the grants or of the requests that may change it
/// computes it anew; a grant that is added after all others is counted beside what it was.
#[derive(Clone, Copy, Debug, PartialEq, Eq)]
pub struct Summary {
    /// The allocation that the server granted first.
    pub first: Option<Relay>,
    /// The other allocation.
    pub second: Option<Relay>,
    /// The earliest expiry or deadline of the grants other than allocations, or the greatest time.
    pub end: Instant,
    /// The earliest time at which a grant expires, in nanoseconds, or 2^63 if none does.
    pub next_expiry: u64,
    /// Whether the allocation that the server granted first is to be refreshed.
    pub keeps_first: bool,
    /// Whether the other one is.
    pub keeps_second: bool,
    /// The earliest expiry of a permission that is to be refreshed, in nanoseconds, or 2^64 - 1.
    pub permissions: u64,
    /// The earliest expiry of a channel that is to be refreshed, in nanoseconds, or 2^64 - 1.
    pub channels: u64,
    /// Whether there is an offer that was not reported.
    pub has_unreported: bool,
    /// Whether there is an offer that the server made by a request.
    pub has_requested: bool,
    /// Whether a channel is reserved.
    pub has_reserved: bool,
}

/// The summary of these grants and these requests.
pub(crate) fn summary_of(grants: &[Grant], listed: &[Listing]) -> Summary
    ensures { IsSummary result grants.now listed.now }
{
    let first = nth_allocation(grants, 0);
    let second = nth_allocation(grants, 1);
    let keeps_first = is_kept(listed, &first);
    let keeps_second = is_kept(listed, &second);
    let start = Totals {
        end: Instant::from_nanos(GREATEST),
        next_expiry: NEVER,
        permissions: u64::MAX,
        channels: u64::MAX,
        has_unreported: false,
        has_requested: false,
        has_reserved: false,
    };
    let totals = totals_of(&start, grants, grants, listed);
    Summary {
        first,
        second,
        end: totals.end,
        next_expiry: totals.next_expiry,
        keeps_first,
        keeps_second,
        permissions: totals.permissions,
        channels: totals.channels,
        has_unreported: totals.has_unreported,
        has_requested: totals.has_requested,
        has_reserved: totals.has_reserved,
    }
}

/// The summary of these grants and these requests: the given one, unless they have changed in a way
/// that may change it.
pub(crate) fn kept_unless(
    has_changed: bool,
    summary: &Summary,
    grants: &[Grant],
    listed: &[Listing],
) -> Summary
    requires { has_changed ≡ false → IsSummary summary.now grants.now listed.now }
    ensures { IsSummary result grants.now listed.now }
{
    if has_changed {
        return summary_of(grants, listed);
    }
    *summary
}

/// The summary of these grants and these requests, where the given one is that without the last
/// grants.
pub(crate) fn summary_with(
    summary: &Summary,
    grants: &[Grant],
    listed: &[Listing],
    last: &[Grant],
) -> Summary
    ensures { (others : List Grant) → grants.now ≡ others ++ last.now → IsSummary summary.now others listed.now → IsSummary result grants.now listed.now }
{
    let has_allocation = any_allocation(last);
    if has_allocation {
        return summary_of(grants, listed);
    }
    joined(summary, grants, listed, last)
}

/// The same, if the last grants are no allocations: whether other grants are refreshed depends on
/// these.
fn joined(summary: &Summary, grants: &[Grant], listed: &[Listing], last: &[Grant]) -> Summary
    requires { list_any (λ g. is_some (as_allocation g)) last.now ≡ false }
    ensures { (others : List Grant) → grants.now ≡ others ++ last.now → IsSummary summary.now others listed.now → IsSummary result grants.now listed.now }
{
    let start = Totals {
        end: summary.end,
        next_expiry: summary.next_expiry,
        permissions: summary.permissions,
        channels: summary.channels,
        has_unreported: summary.has_unreported,
        has_requested: summary.has_requested,
        has_reserved: summary.has_reserved,
    };
    let totals = totals_of(&start, last, grants, listed);
    Summary {
        first: summary.first,
        second: summary.second,
        end: totals.end,
        next_expiry: totals.next_expiry,
        keeps_first: summary.keeps_first,
        keeps_second: summary.keeps_second,
        permissions: totals.permissions,
        channels: totals.channels,
        has_unreported: totals.has_unreported,
        has_requested: totals.has_requested,
        has_reserved: totals.has_reserved,
    }
}

/// Whether the allocation is to be refreshed: it is not marked as expired, and no request for it is
/// pending.
fn is_kept(listed: &[Listing], relay: &Option<Relay>) -> bool
    ensures { result ≡ option_map_or (is_to_refresh listed.now) relay.now false }
{
    match relay {
        Some(relay) => !relay.is_expired && !has_request(listed, &Grant::Allocation(*relay)),
        None => false,
    }
}

/// When the allocation is refreshed, if it is to be.
fn relay_refresh(ahead: Duration, keeps: bool, relay: &Option<Relay>) -> Option<Instant>
    ensures { result ≡ relay_refresh (as_nanos ahead) keeps relay.now }
{
    match relay {
        Some(relay) if keeps => Some(refresh_time_of(ahead, relay)),
        _ => None,
    }
}

/// The earliest time at which a grant is to be refreshed so long ahead, or the greatest time.
pub(crate) fn refresh_of(summary: &Summary, ahead: Duration) -> Instant
    ensures { result ≡ refresh_in (as_nanos ahead) summary.now }
{
    let latest = Instant::from_nanos(GREATEST);
    let first = least(
        latest,
        relay_refresh(ahead, summary.keeps_first, &summary.first),
    );
    let second = least(
        first,
        relay_refresh(ahead, summary.keeps_second, &summary.second),
    );
    let permissions = summary
        .permissions
        .saturating_sub(time_ahead(ahead, PERMISSION_LIFETIME));
    let channels = summary
        .channels
        .saturating_sub(time_ahead(ahead, CHANNEL_LIFETIME));
    second.min(Instant::from_nanos(permissions.min(channels)))
}

/// Whether one of the grants is an allocation.
fn any_allocation(grants: &[Grant]) -> bool
    ensures { result ≡ list_any (λ g. is_some (as_allocation g)) grants.now }
{
    grants.iter().any(|grant| is_allocation(grant))
}

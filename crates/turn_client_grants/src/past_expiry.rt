//! Which grants expire by a given time.

ghost use Rattle.std.specs.Prelude.{◌≡◌};
ghost use Rattle.turn_client_api.specs.Poll.{is_timed_out_offer, is_expired_channel, is_expired_permission, is_over, is_unbound};
ghost use Rattle.turn_client_grants.specs.GrantFilter.{purposes_in};

use crate::kind::is_of_request;
use crate::purposes::Purposes;
use turn_client_api::{Grant, Progress};
use turn_stun::instant::Instant;
use turn_stun::transaction::TransactionId;

/// Whether the grant is a permission that expired at this time or earlier (RFC 8656, section 9).
pub(crate) fn is_expired_permission(now: Instant, grant: &Grant) -> bool
    ensures { result ≡ is_expired_permission now grant.now }
{
    match grant {
        Grant::Permission(_, Progress::Active(lease)) => lease.expiry <= now,
        _ => false,
    }
}

/// Whether the grant is a channel that expired at this time or earlier (RFC 8656, section 12).
pub(crate) fn is_expired_channel(now: Instant, grant: &Grant) -> bool
    ensures { result ≡ is_expired_channel now grant.now }
{
    match grant {
        Grant::Channel(_, _, Progress::Active(lease)) => lease.expiry <= now,
        _ => false,
    }
}

/// Whether the grant is a channel whose reservation ended before this time.
pub(crate) fn is_over(now: Instant, grant: &Grant) -> bool
    ensures { result ≡ is_over now grant.now }
{
    match grant {
        Grant::Channel(_, _, Progress::Reserved(until)) => *until < now,
        _ => false,
    }
}

/// Whether the grant is a data connection that is not bound, and whose deadline is now or has passed,
/// or whose request, with these purposes, timed out.
pub(crate) fn is_unbound(now: Instant, purposes: &Purposes, grant: &Grant) -> bool
    ensures { result ≡ is_unbound (purposes_in purposes.now) now grant.now }
{
    match grant {
        Grant::Connection(connection) => match connection.deadline {
            Some(deadline) => deadline <= now || purposes.are_for(grant),
            None => false,
        },
        _ => false,
    }
}

/// Whether the grant is an offer that the server made by the request with this ID.
pub(crate) fn is_timed_out_offer(given: &Option<TransactionId>, grant: &Grant) -> bool
    ensures { result ≡ is_timed_out_offer given.now grant.now }
{
    match given {
        Some(id) => is_of_request(*id, grant),
        None => false,
    }
}

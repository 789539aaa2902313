//! After which failures a relay is not tried again.

ghost use Rattle.std.specs.Prelude.{◌≡◌};
ghost use Rattle.turn_relay_tries.specs.Failures.{after_failure, after_leaving, after_success, is_last, no_failures};
ghost use Rattle.turn_relay_tries.specs.Failures.{code_of, grown_if, has_final_code, has_wrong_credentials, is_over_quota};

use crate::causes::Cause;
use crate::constants::{MAX_QUOTA, MAX_REFUSED, TRY_ALTERNATE, UNSUPPORTED_TRANSPORT_PROTOCOL};
use turn_session_book::causes::Why;
use turn_stun::attribute::error_code::ErrorCode;
use turn_stun::instant::Instant;

/// The failures in a row that another try may not mend. A server cannot sign what it answers to a client without an allocation, so
/// that no single packet is the end.
#[derive(Clone, Copy, Debug, PartialEq, Eq)]
pub struct Failures {
    /// Those by wrong credentials.
    pub credentials: u8,
    /// Those by an error that stays as it is.
    pub refused: u8,
    /// Those by a quota that no allocation of this relay's own uses.
    pub quota: u8,
    /// How long the server may keep an allocation that the relay had before.
    pub alive_until: Instant,
}

impl Failures {
    /// No failures.
    pub fn new() -> Failures
        ensures { result ≡ no_failures }
    {
        Failures {
            credentials: 0,
            refused: 0,
            quota: 0,
            alive_until: Instant::ZERO,
        }
    }

    /// The relay leaves an allocation that the server may keep until then: it may be the one that is too many for a quota.
    pub fn left(&mut self, until: Instant)
        ensures { self.new ≡ after_leaving until self.old }
    {
        self.alive_until = self.alive_until.max(until);
    }

    /// The relay is up.
    pub fn succeeded(&mut self)
        ensures { self.new ≡ after_success self.old }
    {
        self.credentials = 0;
        self.refused = 0;
        self.quota = 0;
    }

    /// A try failed for this cause. Returns whether no other one is made: after wrong credentials, or an error of 300, 403, 440 or 442
    /// (RFC 8656, section 19), twice in a row, and after 486 three times in a row while no earlier allocation of this relay is alive.
    pub fn failed(&mut self, cause: Cause, now: Instant) -> bool
        ensures last { result ≡ is_last (after_failure cause now self.old) }
        ensures after { self.new ≡ after_failure cause now self.old }
    {
        self.credentials = grown_if(has_wrong_credentials(cause), self.credentials);
        self.refused = grown_if(has_final_code(cause), self.refused);
        self.quota = grown_if(is_over_quota(cause) && self.alive_until <= now, self.quota);
        self.credentials >= MAX_REFUSED || self.refused >= MAX_REFUSED || self.quota >= MAX_QUOTA
    }
}

/// One more if it is one, and otherwise none: only failures in a row count.
fn grown_if(is_one: bool, count: u8) -> u8
    ensures { result ≡ grown_if is_one count }
{
    if is_one { count.saturating_add(1) } else { 0 }
}

/// Whether the server refused user name and password.
fn has_wrong_credentials(cause: Cause) -> bool
    ensures { result ≡ has_wrong_credentials cause }
{
    matches!(
        cause,
        Cause::Life(Why::WrongCredentials(_) | Why::CredentialsRefused)
    )
}

/// Whether the server refused the allocation by an error that stays as it is.
fn has_final_code(cause: Cause) -> bool
    ensures { result ≡ has_final_code cause }
{
    match code_of(cause) {
        Some(code) => {
            code == TRY_ALTERNATE
                || code == ErrorCode::FORBIDDEN
                || code == ErrorCode::ADDRESS_FAMILY_NOT_SUPPORTED
                || code == UNSUPPORTED_TRANSPORT_PROTOCOL
        }
        None => false,
    }
}

/// Whether the server refused the allocation since its user has too many.
fn is_over_quota(cause: Cause) -> bool
    ensures { result ≡ is_over_quota cause }
{
    match code_of(cause) {
        Some(code) => code == ErrorCode::ALLOCATION_QUOTA_REACHED,
        None => false,
    }
}

/// The code by which the server refused the allocation.
fn code_of(cause: Cause) -> Option<u16>
    ensures { result ≡ code_of cause }
{
    match cause {
        Cause::Life(Why::Refused(error)) => error.code,
        _ => None,
    }
}

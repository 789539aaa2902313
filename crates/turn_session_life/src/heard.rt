//! What the server has said of the allocation, and why it ends.

ghost use Rattle.std.specs.Prelude.{◌≡◌};
ghost use Rattle.turn_session_life.specs.Heard.{IsCauseWithoutAddress, after_challenge, after_denial, after_grant};
ghost use Rattle.turn_session_life.specs.Heard.{after_response, after_sign, has_hint, is_challenge, is_credentials, cause_of_end};
ghost use Rattle.turn_session_life.specs.Heard.{end_by, kept_until, nothing_heard, refusal, settled};

use crate::responses::{Asked, Response, Said};
use std::time::Duration;
use turn_session_book::causes::Why;
use turn_session_book::replies::ErrorReply;
use turn_session_path::suspicion::is_forgotten;
use turn_stun::attribute::error_code::ErrorCode;
use turn_stun::instant::Instant;

/// An allocation that is refreshed for fewer seconds is given up (RFC 8656, section 7.2).
pub const MIN_LIFETIME: u32 = 600;

/// What the server has said of the allocation.
#[derive(Clone, Copy, Debug)]
pub struct Heard {
    /// When the last response to a request was received, or else when the session began.
    pub since: Instant,
    /// Whether a response to a request was received.
    pub is_heard: bool,
    /// Whether the server has challenged the ALLOCATE, so that the client has signed it since.
    pub is_challenged: bool,
    /// Whether the client accepted a success of the ALLOCATE.
    pub is_allocated: bool,
    /// The error of the ALLOCATE that was received last.
    pub allocate_error: Option<ErrorReply>,
    /// The error of the REFRESH that was received last.
    pub refresh_error: Option<ErrorReply>,
    /// For how many seconds the last REFRESH was granted.
    pub renewed_for: Option<u32>,
    /// For how many seconds the server has said that it keeps the allocation, when it did so last.
    pub lifetime: Option<u32>,
    /// The challenge that was received last, while the client may have ended by it.
    pub challenge: Option<Challenge>,
}

/// A challenge of the server. A client always answers the first one to its ALLOCATE, unless that says too little to be answered.
#[derive(Clone, Copy, Debug)]
pub struct Challenge {
    /// The error response.
    pub error: ErrorReply,
    /// Whether the ALLOCATE had none before.
    pub is_first: bool,
}

impl Heard {
    /// Nothing was received: the session begins now.
    pub fn new(now: Instant) -> Heard
        ensures { result ≡ nothing_heard now }
    {
        Heard {
            since: now,
            is_heard: false,
            is_challenged: false,
            is_allocated: false,
            allocate_error: None,
            refresh_error: None,
            renewed_for: None,
            lifetime: None,
            challenge: None,
        }
    }

    /// A response to a request was received. An error counts for its request, unless the client has answered it as a challenge. A
    /// success forgets the errors of its request.
    pub fn answered(&mut self, response: Response, now: Instant)
        ensures { self.new ≡ after_response response now self.old }
    {
        self.sign(now);
        match response.said {
            Said::Granted(lifetime) => self.granted(response.asked, lifetime),
            Said::Denied(error) => self.denied(response.asked, error),
            Said::Nothing => {}
        }
    }

    /// The client waits, so it has not ended by a challenge.
    pub fn settle(&mut self)
        ensures { self.new ≡ settled self.old }
    {
        self.challenge = None;
    }

    /// Whether the server has refused the ALLOCATE by an error that nobody signed.
    pub fn has_hint(&self) -> bool
        ensures { result ≡ has_hint self.now }
    {
        match self.allocate_error {
            Some(error) => !error.is_taken,
            None => false,
        }
    }

    /// Why there is no relayed address, if nothing has broken the path to the server: the last error, a challenge too many, a grant
    /// that is no use, or silence.
    pub fn no_address(&self, now: Instant) -> Why
        ensures { IsCauseWithoutAddress now self.now result }
    {
        if let Some(error) = self.allocate_error {
            return refusal(error, self.is_challenged);
        }
        if let Some(challenge) = self.challenge {
            return end_by(challenge);
        }
        if !self.is_allocated {
            return Why::Silent(now.since(self.since));
        }
        if self.is_challenged {
            Why::NoUsableAddress
        } else {
            Why::Unauthenticated
        }
    }

    /// Why a client that had an address has ended, if nothing has broken the path to the server: a challenge too many, a REFRESH
    /// that was refused or granted for less than 600 s, or silence.
    pub fn end(&self) -> Why
        ensures { result ≡ cause_of_end self.now }
    {
        if let Some(challenge) = self.challenge {
            return end_by(challenge);
        }
        if let Some(error) = self.refresh_error {
            if is_forgotten(error.code) {
                return Why::Forgotten(error);
            }
            return Why::NotRenewed(error);
        }
        match self.renewed_for {
            Some(lifetime) if lifetime < MIN_LIFETIME => Why::ShortRenewal(lifetime),
            _ => Why::RenewalSilent,
        }
    }

    /// Until when the server may keep the allocation: for its lifetime, as it said last, from the last response to a request.
    /// `None` if it has granted none.
    pub fn kept_until(&self) -> Option<Instant>
        ensures { result ≡ kept_until self.now }
    {
        let seconds = self.lifetime?;
        Some(self.since.plus(Duration::from_secs(u64::from(seconds))))
    }

    /// The server was heard.
    fn sign(&mut self, now: Instant)
        ensures { self.new ≡ after_sign now self.old }
    {
        self.since = now;
        self.is_heard = true;
        self.challenge = None;
    }

    /// A success.
    fn granted(&mut self, asked: Asked, lifetime: Option<u32>)
        ensures { self.new ≡ after_grant asked lifetime self.old }
    {
        match asked {
            Asked::Allocate => {
                self.is_allocated = true;
                self.allocate_error = None;
                self.lifetime = lifetime;
            }
            Asked::Refresh => {
                self.refresh_error = None;
                self.renewed_for = lifetime;
                self.lifetime = lifetime.or(self.lifetime);
            }
            Asked::Other => {}
        }
    }

    /// A challenge, which the client answers, unless it ends by it.
    fn challenged(&mut self, asked: Asked, error: ErrorReply)
        ensures { self.new ≡ after_challenge asked error self.old }
    {
        let is_allocate = matches!(asked, Asked::Allocate);
        self.challenge = Some(Challenge {
            error,
            is_first: is_allocate && !self.is_challenged,
        });
        if is_allocate {
            self.is_challenged = true;
        }
    }

    /// An error.
    fn denied(&mut self, asked: Asked, error: ErrorReply)
        ensures { self.new ≡ after_denial asked error self.old }
    {
        if error.is_taken && is_challenge(&error) {
            self.challenged(asked, error);
            return;
        }
        match asked {
            Asked::Allocate => self.allocate_error = Some(error),
            Asked::Refresh => self.refresh_error = Some(error),
            Asked::Other => {}
        }
    }
}

/// Why a client has ended by this challenge: it was one too many, or the first one, which could not be answered.
fn end_by(challenge: Challenge) -> Why
    ensures { result ≡ end_by challenge }
{
    if challenge.is_first {
        return Why::Refused(challenge.error);
    }
    match challenge.error.code {
        Some(code) => Why::TooManyChallenges(code),
        None => Why::Refused(challenge.error),
    }
}

/// Why the ALLOCATE was refused by this error, which the server sent before or after it challenged.
pub fn refusal(error: ErrorReply, is_challenged: bool) -> Why
    ensures { result ≡ refusal error is_challenged }
{
    if is_challenged && is_credentials(&error) {
        return Why::WrongCredentials(error);
    }
    Why::Refused(error)
}

/// Whether the error has a code of a challenge.
pub(crate) fn is_challenge(error: &ErrorReply) -> bool
    ensures { result ≡ is_challenge error.now }
{
    match error.code {
        Some(code) => code == ErrorCode::UNAUTHORIZED || code == ErrorCode::STALE_NONCE,
        None => false,
    }
}

/// Whether a server that refuses the signed ALLOCATE by this error does not accept user name and password.
fn is_credentials(error: &ErrorReply) -> bool
    ensures { result ≡ is_credentials error.now }
{
    match error.code {
        Some(code) => code == ErrorCode::BAD_REQUEST || code == ErrorCode::UNAUTHORIZED,
        None => false,
    }
}

//! Whether the server still accepts user name and password.

ghost use Rattle.std.specs.Prelude.{◌≡◌};
ghost use Rattle.turn_session_path.specs.Credentials.{after_refusal, credentials_step, is_first_refusal, no_refusal};

use crate::constants::GRACE;
use std::time::Duration;
use turn_stun::instant::Instant;

/// What refused credentials lead to.
#[derive(Clone, Copy, Debug, PartialEq, Eq)]
pub enum CredentialsStep {
    /// Nothing before this time.
    WaitUntil(Instant),
    /// They were not refused twice.
    Idle,
    /// They were refused twice, and no signed response was received since.
    Refused,
}

/// The unsigned 401 responses to signed requests since the last signed response. A server cannot sign such a response, so it is a
/// hint, and counts only if it is repeated.
#[derive(Clone, Copy, Debug)]
pub struct Credentials {
    /// Whether there was one.
    pub is_refused: bool,
    /// If there was a second one: when the wait for a signed response ends.
    pub grace: Option<Instant>,
}

impl Credentials {
    /// No such response.
    pub fn new() -> Credentials
        ensures { result ≡ no_refusal }
    {
        Credentials {
            is_refused: false,
            grace: None,
        }
    }

    /// An unsigned 401 to a signed request was received. Returns whether it is the first one, after which the allocation is in
    /// doubt. After the second one a signed response has 1 s left.
    pub fn refused(&mut self, now: Instant) -> bool
        ensures first { result ≡ is_first_refusal self.old }
        ensures after { self.new ≡ after_refusal now self.old }
    {
        if !self.is_refused {
            self.is_refused = true;
            return true;
        }
        match self.grace {
            Some(_grace) => {}
            None => self.grace = Some(now.plus(Duration::from_nanos(GRACE))),
        }
        false
    }

    /// A signed response was received: all such hints were wrong.
    pub fn signed(&mut self)
        ensures { self.new ≡ no_refusal }
    {
        self.is_refused = false;
        self.grace = None;
    }

    /// Whether the server has refused them.
    pub fn poll(&self, now: Instant) -> CredentialsStep
        ensures { result ≡ credentials_step now self.now.grace }
    {
        let Some(grace) = self.grace else {
            return CredentialsStep::Idle;
        };
        if now < grace {
            return CredentialsStep::WaitUntil(grace);
        }
        CredentialsStep::Refused
    }
}

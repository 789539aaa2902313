//! With which of a server's addresses a connection is attempted, and when (RFC 8305, section 5).

ghost use Rattle.std.specs.Prelude.{◌≡◌};
ghost use Rattle.turn_relay_tries.specs.Attempts.{after_failure, attempt_step, has_failed, no_attempts};

use crate::constants::STAGGER;
use std::time::Duration;
use turn_stun::instant::Instant;

/// What is to be done with a server's addresses.
#[derive(Clone, Copy, Debug, PartialEq, Eq)]
pub enum AttemptStep {
    /// An attempt with the address at this place begins now.
    Begin(usize),
    /// None begins before this time, unless the last one fails.
    WaitUntil(Instant),
    /// There is no further address.
    Idle,
}

/// The attempts with the addresses of a server, of which the first that succeeds is used.
#[derive(Clone, Copy, Debug, PartialEq, Eq)]
pub struct Attempts {
    /// How many addresses the server has.
    pub addresses: usize,
    /// How many attempts have begun.
    pub begun: usize,
    /// How many of them have failed.
    pub failed: usize,
    /// When the next one begins.
    pub due: Instant,
}

impl Attempts {
    /// No attempt has begun with so many addresses.
    pub fn new(addresses: usize) -> Attempts
        ensures { result ≡ no_attempts addresses }
    {
        Attempts {
            addresses,
            begun: 0,
            failed: 0,
            due: Instant::ZERO,
        }
    }

    /// What is due now: the next attempt begins 250 ms after the last one began, or once that has failed.
    pub fn poll(&mut self, now: Instant) -> AttemptStep
        ensures { (result, self.new) ≡ attempt_step now self.old }
    {
        if self.begun >= self.addresses {
            return AttemptStep::Idle;
        }
        if now < self.due {
            return AttemptStep::WaitUntil(self.due);
        }
        let place = self.begun;
        self.begun += 1;
        self.due = now.plus(Duration::from_nanos(STAGGER));
        AttemptStep::Begin(place)
    }

    /// The attempt with the address at this place failed. If it is the last that has begun, the next one begins at once. Returns whether
    /// all addresses have failed.
    pub fn failed(&mut self, place: usize) -> bool
        ensures all { result ≡ has_failed self.new }
        ensures after { self.new ≡ after_failure place self.old }
    {
        self.failed = self.failed.saturating_add(1);
        if self.begun <= place.saturating_add(1) {
            self.due = Instant::ZERO;
        }
        self.failed >= self.addresses
    }
}

//! The course of a relay.

ghost use Rattle.std.specs.Prelude.{◌≡◌, ◌<◌};
ghost use Rattle.turn_relay_course.specs.Course.{after_failure, after_leaving, after_ready, after_restoring, after_sign, begin_step, begun_try, due_time};
ghost use Rattle.turn_relay_course.specs.Course.{ends_by, ends_in, gone_down, is_due, is_late, new_course, next_server, opened_course};
ghost use Rattle.turn_relay_course.specs.Course.{phase_after, tries_after, tries_again, try_end};

use crate::reopen::Reopen;
use std::time::Duration;
use turn_agent::NumberSource;
use turn_relay_tries::backoff::Backoff;
use turn_relay_tries::causes::Cause;
use turn_relay_tries::failures::Failures;
use turn_relay_tries::tries::Tries;
use turn_session_book::causes::Why;
use turn_stun::instant::Instant;

/// How far a relay has come.
#[derive(Clone, Copy, Debug, PartialEq, Eq)]
pub enum Phase {
    /// It has no session. The next try begins when it is due.
    Resting,
    /// A try has begun: the caller is asked for user name and password.
    Asking,
    /// An address is requested of a server, until this time, or without one until there is a response, or the server is given up.
    Trying(Option<Instant>),
    /// There is an address, and what the session before had is requested again.
    Restoring,
    /// The relay is up, since this time.
    Up(Instant),
    /// It has ended for this cause.
    Over(Cause),
}

/// When a relay is tried, how far it has come, and when it is given up.
#[derive(Debug, Drop)]
pub struct Course {
    /// Whether it is opened again.
    pub reopen: Reopen,
    /// How long lies between its tries.
    pub backoff: Backoff,
    /// The source of the random parts of the waits.
    pub numbers: NumberSource,
    /// When the next try is due, and how long it lasts.
    pub tries: Tries,
    /// What has failed in a row.
    pub failures: Failures,
    /// How far it has come.
    pub phase: Phase,
    /// Whether the server has responded in this try, or over a stream is connected.
    pub is_heard: bool,
    /// How many servers it has.
    pub servers: usize,
    /// The place of the server that is tried now, or next.
    pub server: usize,
}

impl Course {
    /// A relay with so many servers, of which the first is tried at once. From the seed come the random parts of its waits: it is to
    /// be its own.
    pub fn new(reopen: Reopen, servers: usize, backoff: Backoff, seed: [u8; 32]) -> Course
        ensures { result ≡ new_course reopen servers backoff seed }
    {
        Course {
            reopen,
            backoff,
            numbers: NumberSource::from_seed(seed),
            tries: Tries::new(backoff),
            failures: Failures::new(),
            phase: Phase::Resting,
            is_heard: false,
            servers,
            server: 0,
        }
    }

    /// Whether the next try is due.
    pub fn is_due(&self, now: Instant) -> bool
        ensures { result ≡ is_due now self.now }
    {
        matches!(self.phase, Phase::Resting) && self.tries.due <= now
    }

    /// Begins a try, if one is due. Returns whether it has begun: then the caller is to be asked for user name and password.
    pub fn begin(&mut self, now: Instant) -> bool
        ensures { (result, self.new) ≡ begin_step now self.old }
    {
        if !self.is_due(now) {
            return false;
        }
        self.begin_try(now);
        true
    }

    /// A try begins now.
    fn begin_try(&mut self, now: Instant)
        ensures { self.new ≡ begun_try now self.old }
    {
        self.tries.begin(self.backoff, &mut self.numbers, now);
        self.is_heard = false;
        self.phase = Phase::Asking;
    }

    /// User name and password are there: from now on the try lasts for its time.
    pub fn ready(&mut self, now: Instant)
        ensures { self.new ≡ after_ready now self.old }
    {
        if matches!(self.phase, Phase::Asking) {
            self.phase = Phase::Trying(self.try_end(now));
        }
    }

    /// When a try that has user name and password now is over. In one life a try has no such time: it ends with the requests of its
    /// clients, which have theirs (RFC 8489, section 6.2.1).
    pub fn try_end(&self, now: Instant) -> Option<Instant>
        ensures { result ≡ try_end now self.now }
    {
        match self.reopen {
            Reopen::Never => None,
            Reopen::Always => Some(now.plus(Duration::from_nanos(self.tries.length))),
        }
    }

    /// The server has responded, or over a stream is connected. A try that is too short for it is followed by a longer one.
    pub fn heard(&mut self)
        ensures { self.new ≡ after_sign self.old }
    {
        self.is_heard = true;
    }

    /// The server has granted an address in time.
    pub fn opened(&mut self)
        ensures { self.new ≡ opened_course self.old }
    {
        if matches!(self.phase, Phase::Trying(_)) {
            self.phase = Phase::Restoring;
        }
    }

    /// What the session before had was requested again: the relay is up.
    pub fn restored(&mut self, now: Instant)
        ensures { self.new ≡ after_restoring now self.old }
    {
        if matches!(self.phase, Phase::Restoring) {
            self.phase = Phase::Up(now);
            self.failures.succeeded();
        }
    }

    /// Whether the try has had its time, and there is no address. It has then failed, as `Cause::TooSlow`.
    pub fn is_late(&self, now: Instant) -> bool
        ensures { result ≡ is_late now self.now }
    {
        match self.phase {
            Phase::Trying(Some(until)) => until <= now,
            _ => false,
        }
    }

    /// The try has failed, or the relay is down, for this cause. Another try follows when it is due, or the relay is over: after an
    /// error of the caller's own, with `Reopen::Never` if it had an address or each server was tried, and with `Reopen::Always` when
    /// `Failures` says so. A relay that rests or is over has nothing that could fail.
    pub fn failed(&mut self, cause: Cause, now: Instant)
        ensures { self.new ≡ after_failure cause now self.old }
    {
        match self.phase {
            Phase::Resting | Phase::Over(_) => {}
            _ => self.go_down(cause, now),
        }
    }

    /// A relay that has begun goes down.
    fn go_down(&mut self, cause: Cause, now: Instant)
        ensures { self.new ≡ gone_down cause now self.old }
    {
        self.tries = self.tries_after(cause, now);
        let is_last = self.failures.failed(cause, now);
        self.phase = self.phase_after(is_last, cause);
        self.server = self.next_server();
    }

    /// When the next try is due, and how long it lasts. In one life it is another server's, and is due at once.
    fn tries_after(&self, cause: Cause, now: Instant) -> Tries
        ensures { result ≡ tries_after cause now self.now }
    {
        match self.reopen {
            Reopen::Never => {
                let mut tries = self.tries;
                tries.at_once(now);
                tries
            }
            Reopen::Always => self.tries_again(cause, now),
        }
    }

    /// The same for a relay that comes back.
    fn tries_again(&self, cause: Cause, now: Instant) -> Tries
        ensures { result ≡ tries_again cause now self.now }
    {
        let mut tries = self.tries;
        if let Phase::Up(since) = self.phase {
            tries.ended(self.backoff, since, now);
            return tries;
        }
        if matches!(cause, Cause::TooSlow(_)) {
            tries.too_slow(self.is_heard);
        }
        tries.failed(now);
        tries
    }

    /// How far the relay has come after a failure, which may be the last.
    fn phase_after(&self, is_last: bool, cause: Cause) -> Phase
        ensures { result ≡ phase_after is_last cause self.now }
    {
        if self.ends_by(is_last, cause) {
            Phase::Over(cause)
        } else {
            Phase::Resting
        }
    }

    /// Whether no other try is made.
    fn ends_by(&self, is_last: bool, cause: Cause) -> bool
        ensures { result ≡ ends_by is_last cause self.now }
    {
        matches!(cause, Cause::OwnError(_)) || self.is_last(is_last)
    }

    /// Whether no other try could mend it: what `Failures` says, and in one life an address, or the last server.
    fn is_last(&self, is_last: bool) -> bool
        ensures { result ≡ ends_in self.now.reopen is_last self.now }
    {
        match self.reopen {
            Reopen::Always => is_last,
            Reopen::Never => match self.phase {
                Phase::Restoring | Phase::Up(_) => true,
                _ => self.servers <= self.server.saturating_add(1),
            },
        }
    }

    /// The place of the server behind the one that was tried, and behind the last one the first.
    fn next_server(&self) -> usize
        ensures { result ≡ next_server self.now }
    {
        let next = self.server.saturating_add(1);
        if next < self.servers { next } else { 0 }
    }

    /// The caller leaves: no other try is made.
    pub fn leave(&mut self)
        ensures { self.new ≡ after_leaving self.old }
    {
        if !matches!(self.phase, Phase::Over(_)) {
            self.phase = Phase::Over(Cause::Life(Why::Closed));
        }
    }

    /// When the course goes on by itself: the next try is due, or this one has had its time.
    pub fn due(&self) -> Option<Instant>
        ensures { result ≡ due_time self.now }
    {
        match self.phase {
            Phase::Resting => Some(self.tries.due),
            Phase::Trying(until) => until,
            _ => None,
        }
    }
}

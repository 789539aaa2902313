//! When the path to the server is probed, and how many probes in a row had no response.

ghost use Rattle.std.specs.Prelude.{◌≡◌};
ghost use Rattle.turn_session_path.specs.Probes.{after_answer, after_silence, after_skip, first_probe, has_failed, next_due};

use crate::constants::RUN;
use crate::round::{Asks, CheckRequest};
use std::time::Duration;
use turn_stun::instant::Instant;

/// The probes of a path.
#[derive(Clone, Copy, Debug)]
pub struct Probes {
    /// The time between two probes, in nanoseconds.
    pub every: u64,
    /// When the next one begins.
    pub due: Instant,
    /// What it asks by.
    pub asks: Asks,
    /// Whether the server has ever answered a Binding request.
    pub has_binding: bool,
    /// The rounds in a row without a response.
    pub unanswered: u8,
}

impl Probes {
    /// The first probe begins after this time, in nanoseconds, and then one after each such time.
    pub fn new(every: u64, now: Instant) -> Probes
        ensures { result ≡ first_probe every now }
    {
        Probes {
            every,
            due: now.plus(Duration::from_nanos(every)),
            asks: Asks::Both,
            has_binding: false,
            unanswered: 0,
        }
    }

    /// The server answered this request of a round. A server that has answered a bare CREATE_PERMISSION and never a Binding
    /// request is probed by that from then on.
    pub fn answered(&mut self, request: CheckRequest, now: Instant)
        ensures { self.new ≡ after_answer request now self.old }
    {
        self.due = self.next_due(now);
        self.unanswered = 0;
        match request {
            CheckRequest::Binding => {
                self.asks = Asks::Both;
                self.has_binding = true;
            }
            CheckRequest::BarePermission => {
                if !self.has_binding {
                    self.asks = Asks::Bare;
                }
            }
        }
    }

    /// A round had no response, and nothing else was received in it. One that does not count leaves the number of those in a row:
    /// over a stream responses are late after data was sent. Returns whether the session is to end: at three in a row.
    pub fn unanswered(&mut self, counts: bool, now: Instant) -> bool
        ensures after { self.new ≡ after_silence counts now self.old }
        ensures failed { result ≡ has_failed self.new }
    {
        self.due = self.next_due(now);
        if counts {
            self.unanswered = self.unanswered.saturating_add(1);
        }
        self.unanswered >= RUN
    }

    /// A round is over because something else was received in it: none was unanswered.
    pub fn skip(&mut self, now: Instant)
        ensures { self.new ≡ after_skip now self.old }
    {
        self.due = self.next_due(now);
        self.unanswered = 0;
    }

    /// When the next probe begins, if a round ends now.
    fn next_due(&self, now: Instant) -> Instant
        ensures { result ≡ next_due now self.now }
    {
        self.due.plus(Duration::from_nanos(self.every)).max(now)
    }
}

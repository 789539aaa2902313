//! A stream to the server that takes no bytes.

ghost use Rattle.std.specs.Prelude.{◌≡◌, None};
ghost use Rattle.turn_session_path.specs.FullStream.{full_since, full_step, since_received};

use crate::constants::FULL;
use std::time::Duration;
use turn_stun::instant::Instant;

/// What a full stream leads to.
#[derive(Clone, Copy, Debug, PartialEq, Eq)]
pub enum FullStep {
    /// Nothing before this time.
    WaitUntil(Instant),
    /// The stream is not full.
    Idle,
    /// It was full for 60 s, and nothing was received.
    Ended,
}

/// Whether the stream to the server takes bytes.
#[derive(Clone, Copy, Debug)]
pub struct FullStream {
    /// Since when it has taken none, and nothing was received.
    pub since: Option<Instant>,
}

impl FullStream {
    /// It takes bytes.
    pub fn new() -> FullStream
        ensures { result.since ≡ None }
    {
        FullStream { since: None }
    }

    /// It took no bytes.
    pub fn full(&mut self, now: Instant)
        ensures { self.new.since ≡ full_since now self.old.since }
    {
        match self.since {
            Some(_since) => {}
            None => self.since = Some(now),
        }
    }

    /// Something was received: if it is full, its 60 s begin anew.
    pub fn received(&mut self, now: Instant)
        ensures { self.new.since ≡ since_received now self.old.since }
    {
        match self.since {
            Some(_since) => self.since = Some(now),
            None => {}
        }
    }

    /// It took bytes.
    pub fn moved(&mut self)
        ensures { self.new.since ≡ None }
    {
        self.since = None;
    }

    /// Whether it has been full for too long.
    pub fn poll(&self, now: Instant) -> FullStep
        ensures { result ≡ full_step now self.now.since }
    {
        let Some(since) = self.since else {
            return FullStep::Idle;
        };
        let end = since.plus(Duration::from_nanos(FULL));
        if now < end {
            return FullStep::WaitUntil(end);
        }
        FullStep::Ended
    }
}

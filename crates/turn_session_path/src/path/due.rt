//! When something is due on the path.

ghost use Rattle.std.specs.Prelude.{◌≡◌};
ghost use Rattle.turn_session_path.specs.PathDue.{check_due, errors_due, full_due, path_due, probe_due, sooner};

use crate::constants::FULL;
use crate::path::{ErrorRequest, Path};
use std::time::Duration;
use turn_stun::instant::Instant;

impl Path {
    /// When `poll` next has something to do, or `None` if never: the caller asks nothing, and nothing is received.
    pub fn due(&self) -> Option<Instant>
        ensures { result ≡ path_due self.now }
    {
        let rounds = sooner(self.check_due(), self.probe_due());
        sooner(sooner(self.errors_due(), self.full_due()), rounds)
    }

    /// That of the errors of the socket.
    fn errors_due(&self) -> Option<Instant>
        ensures { result ≡ errors_due self.now }
    {
        match self.error_request {
            ErrorRequest::Due => Some(Instant::ZERO),
            _ => self.errors.until(),
        }
    }

    /// That of a full stream.
    fn full_due(&self) -> Option<Instant>
        ensures { result ≡ full_due self.now.full.since }
    {
        match self.full.since {
            Some(since) => Some(since.plus(Duration::from_nanos(FULL))),
            None => None,
        }
    }

    /// That of the caller's check.
    fn check_due(&self) -> Option<Instant>
        ensures { result ≡ check_due self.now.check }
    {
        match self.check {
            Some(check) => Some(check.asked.round.due()),
            None => None,
        }
    }

    /// That of the probes.
    fn probe_due(&self) -> Option<Instant>
        ensures { result ≡ probe_due self.now.prober }
    {
        let Some(prober) = self.prober else {
            return None;
        };
        match prober.asked {
            Some(asked) => Some(asked.round.due()),
            None => Some(prober.probes.due),
        }
    }
}

/// The sooner of two times, of which each may be missing.
pub fn sooner(a: Option<Instant>, b: Option<Instant>) -> Option<Instant>
    ensures { result ≡ sooner a b }
{
    match a {
        Some(first) => match b {
            Some(second) => Some(first.min(second)),
            None => a,
        },
        None => b,
    }
}

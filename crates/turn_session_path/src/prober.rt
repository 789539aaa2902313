//! The probes of a path with the round that is under way.

ghost use Rattle.std.specs.Prelude.{◌≡◌};
ghost use Rattle.turn_session_path.specs.Prober.{after_probe_answer, after_other, first_prober};

use crate::asked::Asked;
use crate::probes::Probes;
use crate::round::CheckRequest;
use turn_stun::instant::Instant;

/// The probes of a path, and the round that is under way.
#[derive(Clone, Copy, Debug)]
pub struct Prober {
    /// When the next round begins, and what was answered before.
    pub probes: Probes,
    /// The round under way.
    pub asked: Option<Asked>,
}

impl Prober {
    /// The first round begins after this time, in nanoseconds, and then one after each such time.
    pub fn new(every: u64, now: Instant) -> Prober
        ensures { result ≡ first_prober every now }
    {
        Prober {
            probes: Probes::new(every, now),
            asked: None,
        }
    }

    /// The server answered this request of the round under way: the round is over.
    pub fn answered(&mut self, request: CheckRequest, now: Instant)
        ensures { self.new ≡ after_probe_answer request now self.old }
    {
        self.probes.answered(request, now);
        self.asked = None;
    }

    /// Something else was received from the server, so the path carries packets: a round under way is over, and no round was
    /// unanswered.
    pub fn received(&mut self, now: Instant)
        ensures { self.new ≡ after_other now self.old }
    {
        match self.asked {
            Some(_asked) => {
                self.probes.skip(now);
                self.asked = None;
            }
            None => self.probes.unanswered = 0,
        }
    }
}

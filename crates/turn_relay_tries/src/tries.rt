//! When a relay that has no address is tried again.

ghost use Rattle.std.specs.Prelude.{◌≡◌, ◌≤◌, ◌+◌};
ghost use Rattle.turn_agent.specs.TransactionIds.{behind_id, next_id};
ghost use Rattle.turn_relay_tries.specs.Tries.{after_end, after_failure, after_slow_try, at_once, begun, first_tries};

use crate::backoff::Backoff;
use crate::constants::{FIRST_TRY, HELD, LAST_TRY, REST};
use std::time::Duration;
use turn_agent::NumberSource;
use turn_stun::instant::Instant;

/// When the next try begins, and how long it lasts.
#[derive(Clone, Copy, Debug, PartialEq, Eq)]
pub struct Tries {
    /// When it may begin.
    pub due: Instant,
    /// How long after its beginning the one behind it may begin, before the random part is taken off, in nanoseconds.
    pub wait: u64,
    /// How long it lasts at most, in nanoseconds.
    pub length: u64,
}

impl Tries {
    /// The first try is due at once.
    pub fn new(backoff: Backoff) -> Tries
        ensures { result ≡ first_tries backoff }
    {
        Tries {
            due: Instant::ZERO,
            wait: backoff.first,
            length: FIRST_TRY,
        }
    }

    /// A try begins now: the next one is due a wait later, less its random part, which the next number of the source decides on. Then
    /// the wait doubles.
    pub fn begin(&mut self, backoff: Backoff, numbers: &mut NumberSource, now: Instant)
        ensures tries { self.new ≡ begun backoff (next_id numbers.old) now self.old }
        ensures numbers { numbers.new ≡ behind_id numbers.old }
    {
        let wait = backoff.drawn(self.wait, numbers.draw());
        self.due = now.plus(Duration::from_nanos(wait));
        self.wait = backoff.after(self.wait);
    }

    /// The try failed now: the next one is due 0.2 s later at the soonest.
    pub fn failed(&mut self, now: Instant)
        ensures { self.new ≡ after_failure now self.old }
    {
        self.due = self.due.max(now.plus(Duration::from_nanos(REST)));
    }

    /// The try was over before the server granted an address. If it had responded, the path is slow: further tries last twice as
    /// long, up to 31.2 s. If it had not, they last as long as the first one: a long try at a server that is away delays the next.
    pub fn too_slow(&mut self, is_heard: bool)
        ensures { self.new ≡ after_slow_try is_heard self.old }
    {
        self.length = if is_heard {
            self.length.saturating_mul(2).min(LAST_TRY)
        } else {
            FIRST_TRY
        };
    }

    /// The try failed now, and the next one is due at once.
    pub fn at_once(&mut self, now: Instant)
        ensures { self.new ≡ at_once now self.old }
    {
        self.due = now;
    }

    /// The relay, which was up since then, went down now. If it was up for 60 s or longer, the next try is due at once, and waits
    /// and tries are as short as the first ones; otherwise this is one more failure.
    pub fn ended(&mut self, backoff: Backoff, since: Instant, now: Instant)
        ensures { self.new ≡ after_end backoff since now self.old }
    {
        if now < since.plus(Duration::from_nanos(HELD)) {
            self.failed(now);
        } else {
            *self = Tries::new(backoff);
        }
    }
}

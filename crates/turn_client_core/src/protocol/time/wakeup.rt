//! When a client is to be polled again.

ghost use Rattle.std.specs.Prelude.{◌≡◌, ◌||◌, ◌∷◌, [], fold, if◌then◌else◌, min, not, option_to_list, false};
ghost use Rattle.std.specs.Option.{option_map_or};
ghost use Rattle.turn_client_api.specs.Due.{has_allocation_in_use, has_event, has_reply, is_paused, keepalive_times, latest_wakeup, least_due};
ghost use Rattle.turn_client_api.specs.Due.{next_wakeup, pause_end};
ghost use Rattle.turn_client_api.specs.Queue.{has_request_to_send};
ghost use Rattle.turn_client_api.specs.State.{max_time};

use crate::protocol::TurnClientProtocol;
use std::time::Duration;
use turn_client_api::{Phase, Relay};
use turn_stun::instant::Instant;

/// The longest wait of a caller, in seconds (our choice).
const MAX_WAIT_SECONDS: u64 = 9_999;

impl TurnClientProtocol {
    /// When the caller is to call `poll` again: now, if something is pending or a request has just
    /// timed out, and else when something is due, but not in the past if there are grants.
    pub(crate) fn next_wakeup(&self, has_given_up: bool, now: Instant) -> Instant
        ensures { result ≡ next_wakeup has_given_up now self.now }
    {
        if self.phase == Phase::New || self.has_pending() || has_given_up {
            return now;
        }
        let least = self.least_due(now);
        if self.phase == Phase::Allocated {
            return now.max(least);
        }
        least
    }

    /// Whether an event is pending, or a reply to the server is queued.
    pub(crate) fn has_pending(&self) -> bool
        ensures { result ≡ (has_event self.now || has_reply self.now) }
    {
        self.ledger.has_event() || self.outbox.queue().has_reply()
    }

    /// Whether the pause has not ended, so that no request is sent for the first time.
    pub(crate) fn is_paused(&self, now: Instant) -> bool
        ensures { result ≡ is_paused now self.now }
    {
        now < self.pause_end()
    }

    /// The time before which no request is sent for the first time: the configured pause after the last
    /// packet.
    fn pause_end(&self) -> Instant
        ensures { result ≡ pause_end self.now }
    {
        self.outbox.after_last(self.config.request_cadence())
    }

    /// The earliest time at which something is due.
    fn least_due(&self, now: Instant) -> Instant
        ensures { result ≡ least_due now self.now }
    {
        let pause = self.pause_end();
        let first = self.first_due(now, pause);
        let second = self.outbox.agent().earliest(first);
        let ahead = self.config.refresh_ahead();
        let third = self.ledger.table().soonest(second, now, pause, ahead);
        sooner(third, self.keepalive_time())
    }

    /// When the path to the server is to be kept alive, if it ever is.
    pub(crate) fn keepalive_time(&self) -> Option<Instant>
        ensures { option_to_list result ≡ keepalive_times self.now }
    {
        let keepalive = self.config.keepalive()?;
        if !self.has_allocation_in_use() {
            return None;
        }
        let pause = self.pause_end();
        Some(pause.max(self.outbox.after_last(keepalive)))
    }

    /// Whether an allocation is not marked as expired.
    fn has_allocation_in_use(&self) -> bool
        ensures { result ≡ has_allocation_in_use self.now }
    {
        let first = self.ledger.table().nth_allocation(0);
        let second = self.ledger.table().nth_allocation(1);
        is_in_use(&first) || is_in_use(&second)
    }

    /// The latest time, or the end of the pause if a queued request is to be sent and it is sooner.
    fn first_due(&self, now: Instant, pause: Instant) -> Instant
        ensures { result ≡ fold min max_time (latest_wakeup now self.now ∷ (if has_request_to_send self.now then pause ∷ [] else [])) }
    {
        let latest = self.latest_wakeup(now);
        if self.has_request_to_send() {
            return latest.min(pause);
        }
        latest
    }

    /// When the caller is to call `poll` again at the latest: at the end of the longest wait, or, if requests are timed
    /// from when they are sent, when an allocation that is marked as expired ends, if that is sooner.
    fn latest_wakeup(&self, now: Instant) -> Instant
        ensures { result ≡ latest_wakeup now self.now }
    {
        let latest = now.plus(Duration::from_secs(MAX_WAIT_SECONDS));
        if self.config.requests_timed_from_send() {
            return self.ledger.table().before_final(latest, now);
        }
        latest
    }
}

/// The earlier of the time and the other one, if there is one.
fn sooner(time: Instant, other: Option<Instant>) -> Instant
    ensures { result ≡ fold min time (option_to_list other) }
{
    match other {
        Some(other) => time.min(other),
        None => time,
    }
}

/// Whether there is an allocation, and it is not marked as expired.
fn is_in_use(relay: &Option<Relay>) -> bool
    ensures { result ≡ option_map_or (λ a. not a.is_expired) relay.now false }
{
    match relay {
        Some(relay) => !relay.is_expired,
        None => false,
    }
}

//! The next retransmission, found without a scan of the requests that were passed before.

ghost use Rattle.std.specs.Prelude.{◌≡◌, ◌-◌, ◌≤◌, ◌<◌, ◌^◌, IfSome};
ghost use Rattle.std.specs.List.{position};
ghost use Rattle.turn_agent.specs.Agent.{is_due};
ghost use Rattle.turn_agent.specs.Front.{IsFront, front_at, no_front};
ghost use Rattle.turn_agent.specs.Schedule.{resends_of};

use crate::schedule::Schedule;
use crate::transaction::Transaction;
use turn_stun::instant::Instant;

/// The oldest transactions, none of which is to be retransmitted before a time.
///
/// A wave of retransmissions would scan those that were just sent again for each further one.
#[derive(Clone, Copy, Debug)]
pub(crate) struct Front {
    /// How many transactions there are in front.
    pub(crate) count: usize,
    /// The time before which none of them is to be retransmitted.
    pub(crate) until: Instant,
}

impl Front {
    /// No transaction.
    pub(crate) fn none() -> Front
        ensures { result ≡ no_front }
    {
        Front {
            count: 0,
            until: Instant::from_nanos(u64::MAX),
        }
    }

    /// What remains of it after one transaction was removed.
    pub(crate) fn without_one(self) -> Front
        ensures count { result.count ≡ self.count - 1 }
        ensures until { result.until ≡ self.until }
    {
        Front {
            count: self.count.saturating_sub(1),
            until: self.until,
        }
    }

    /// The front, or no transaction if some of it may be due at this time.
    fn at(self, now: Instant) -> Front
        ensures { result ≡ front_at self now }
    {
        if now < self.until {
            return self;
        }
        Front::none()
    }
}

/// The place of the oldest transaction whose request is to be retransmitted now, and the transactions
/// before it, or all if there is none.
pub(crate) fn first_due(
    transactions: &[Transaction],
    schedule: &Schedule,
    front: Front,
    now: Instant,
) -> (Option<usize>, Front)
    requires { IsFront schedule.now.timers schedule.now.transport transactions.now front }
    ensures place { result.0 ≡ position (is_due schedule.now.timers schedule.now.transport now) transactions.now }
    ensures front { IsFront schedule.now.timers schedule.now.transport transactions.now result.1 }
    ensures before { IfSome result.0 (λ place. result.1.count ≤ place) }
    ensures range { resends_of schedule.now.timers schedule.now.transport < 2 ^ 32 }
{
    let resends = schedule.resends();
    let start = front.at(now);
    let mut until = start.until;
    for place in start.count..transactions.len() {
        let transaction = &transactions[place];
        if transaction.resends < resends {
            let next = transaction.transaction_timeout(schedule);
            if next <= now {
                let count = place;
                return (Some(place), Front { count, until });
            }
            until = until.min(next);
        }
    }
    let count = transactions.len();
    (None, Front { count, until })
}

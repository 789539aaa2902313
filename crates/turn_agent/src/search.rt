//! Searches over the outstanding requests, from the first one on.

ghost use Rattle.std.specs.Prelude.{◌≡◌, ◌==◌, fold, map, min};
ghost use Rattle.std.specs.List.{position};
ghost use Rattle.turn_agent.specs.Agent.{answers, is_outstanding, resends_made, transaction_timeout, IsProgress, IsSoonest};

use crate::schedule::Schedule;
use crate::transaction::Transaction;
use std::net::SocketAddr;
use turn_stun::instant::Instant;
use turn_stun::transaction::TransactionId;

/// The progress of the requests of an agent.
pub(crate) enum Progress {
    /// The last wait of the transaction at this place ends.
    Over(usize),
    /// The earliest time at which a wait ends.
    Waiting(Instant),
    /// Nothing is outstanding.
    Idle,
}

/// Whether one of the transactions has this ID.
pub(crate) fn has_id(transactions: &[Transaction], id: TransactionId) -> bool
    ensures { result ≡ is_outstanding id transactions.now }
{
    transactions.iter().any(|transaction| transaction.id == id)
}

/// How often the request with this ID was retransmitted, if one of the transactions has it.
pub(crate) fn resends_made(transactions: &[Transaction], id: TransactionId) -> Option<u32>
    ensures { result ≡ resends_made id transactions.now }
{
    transactions
        .iter()
        .find(|transaction| transaction.id == id)
        .map(|transaction| transaction.resends)
}

/// The place of the transaction with this ID.
pub(crate) fn place_of(transactions: &[Transaction], id: TransactionId) -> Option<usize>
    ensures { result ≡ position (λ t. t.id == id) transactions.now }
{
    transactions
        .iter()
        .position(|transaction| transaction.id == id)
}

/// The place of the transaction that a response with this ID from this address answers.
pub(crate) fn answered(
    transactions: &[Transaction],
    id: TransactionId,
    from: SocketAddr,
) -> Option<usize>
    ensures { result ≡ position (answers id from) transactions.now }
{
    transactions.iter().position(|transaction| transaction.id == id && transaction.to == from)
}

/// The oldest transaction whose last wait has ended, or else the earliest time at which a wait ends.
pub(crate) fn progress_of(
    transactions: &[Transaction],
    schedule: &Schedule,
    now: Instant,
) -> Progress
    ensures { IsProgress schedule.now.timers schedule.now.transport now transactions.now result }
{
    if transactions.is_empty() {
        return Progress::Idle;
    }
    let resends = schedule.resends();
    let mut least = Instant::from_nanos(u64::MAX);
    for (place, transaction) in transactions.iter().enumerate() {
        let next = transaction.transaction_timeout(schedule);
        if next <= now && resends <= transaction.resends {
            return Progress::Over(place);
        }
        least = least.min(next);
    }
    Progress::Waiting(least)
}

/// The earlier of this time and the earliest time at which a wait ends.
pub(crate) fn least_with(
    time: Instant,
    transactions: &[Transaction],
    schedule: &Schedule,
) -> Instant
    ensures { result ≡ fold min time (map (transaction_timeout schedule.now.timers schedule.now.transport) transactions.now) }
{
    let mut least = time;
    for transaction in transactions {
        least = least.min(transaction.transaction_timeout(schedule));
    }
    least
}

/// The earliest time at which a wait ends.
pub(crate) fn soonest_of(transactions: &[Transaction], schedule: &Schedule) -> Option<Instant>
    ensures { IsSoonest schedule.now.timers schedule.now.transport transactions.now result }
{
    if transactions.is_empty() {
        return None;
    }
    Some(least_with(Instant::from_nanos(u64::MAX), transactions, schedule))
}

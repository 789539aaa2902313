//! The IDs of the outstanding requests as a set, which is kept where there are more than a few.

ghost use Rattle.std.specs.Prelude.{◌≤◌, ◌<◌, ◌≡◌, ◌==◌, ℕ, cond, false, true, length, nat_eq, vec_capacity, vec_len, OnErr, OnOk};
ghost use Rattle.std.specs.HashSet.{contains};
ghost use Rattle.turn_agent.specs.Agent.{AreIdsOf, is_outstanding};
ghost use Rattle.turn_agent.specs.Kept.{few};

use crate::transaction::Transaction;
use std::alloc::{AllocError, Global};
use std::collections::HashSet;
use turn_stun::transaction::TransactionId;

/// So few requests are scanned: hashing an ID takes as long, and a set of them half a kilobyte.
pub(crate) const FEW: usize = 8;

/// Makes room for one transaction more. The first takes room for two, and for no others, which many clients never have: a
/// challenged request is made again before the first one ends.
///
/// # Errors
///
/// If memory allocation fails. Nothing changes then.
pub(crate) fn reserve_one(transactions: &mut Vec<Transaction>) -> Result<(), AllocError>
    ensures same { transactions.new.items ≡ transactions.old.items }
    ensures room { OnOk result (vec_len transactions.new < vec_capacity transactions.new) }
{
    if transactions.capacity() == 0 {
        transactions.reserve_exact(2)
    } else {
        transactions.reserve(1)
    }
}

/// Before a transaction with this ID is added to these: if there are more than a few then, the set is that of their IDs.
///
/// # Errors
///
/// If memory allocation fails. If there are more than a few of these, the set is that of their IDs as before.
pub(crate) fn add_id(
    ids: &mut HashSet<TransactionId>,
    transactions: &[Transaction],
    id: TransactionId,
) -> Result<(), AllocError>
    requires { few < length transactions.now → AreIdsOf transactions.now (contains nat_eq ids.old) }
    ensures ok { OnOk result (few ≤ length transactions.now → (q : ℕ) → contains nat_eq ids.new q ≡ cond (id == q) true (is_outstanding q transactions.now)) }
    ensures err { OnErr result (few < length transactions.now → AreIdsOf transactions.now (contains nat_eq ids.new)) }
{
    if transactions.len() < FEW {
        return Ok(());
    }
    fill(ids, transactions)?;
    ids.insert(id)?;
    Ok(())
}

/// Makes the set that of the IDs of these transactions, of which there are a few or more, if it is not that yet.
///
/// # Errors
///
/// If memory allocation fails. If there are more than a few of these, the set is that of their IDs as before.
fn fill(ids: &mut HashSet<TransactionId>, transactions: &[Transaction]) -> Result<(), AllocError>
    requires { few < length transactions.now → AreIdsOf transactions.now (contains nat_eq ids.old) }
    ensures ok { OnOk result (few ≤ length transactions.now → AreIdsOf transactions.now (contains nat_eq ids.new)) }
    ensures err { OnErr result (few < length transactions.now → AreIdsOf transactions.now (contains nat_eq ids.new)) }
{
    if transactions.len() == FEW {
        return set_ids(ids, transactions);
    }
    Ok(())
}

/// After the transaction with this ID was taken out: if there are more than a few left, the set is without its ID. If not,
/// the memory of the set is given back.
pub(crate) fn remove_id(
    alloc: Global,
    ids: &mut HashSet<TransactionId>,
    left: usize,
    id: TransactionId,
)
    ensures { few < left → (q : ℕ) → contains nat_eq ids.new q ≡ cond (id == q) false (contains nat_eq ids.old q) }
{
    if left > FEW {
        let _was_there = ids.remove(&id);
    } else {
        *ids = HashSet::new(alloc);
    }
}

/// Makes the set that of the IDs of these transactions.
///
/// # Errors
///
/// If memory allocation fails.
fn set_ids(ids: &mut HashSet<TransactionId>, transactions: &[Transaction]) -> Result<(), AllocError>
    ensures { OnOk result (AreIdsOf transactions.now (contains nat_eq ids.new)) }
{
    ids.clear();
    for transaction in transactions {
        ids.insert(transaction.id)?;
    }
    Ok(())
}

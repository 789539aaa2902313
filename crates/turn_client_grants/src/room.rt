//! Room for what is to be added.

ghost use Rattle.std.specs.Prelude.{◌≡◌, ◌≤◌, ◌+◌, vec_capacity, vec_len, OnOk};
ghost use Rattle.std.specs.VecDeque.{deque_capacity, deque_len};

use std::alloc::AllocError;
use std::collections::VecDeque;

/// Makes room for so many more items. Where that takes memory, there is at least a quarter more than before, so that items that
/// are added one by one are seldom moved, and no more of it lies unused.
///
/// # Errors
///
/// `AllocError` if memory allocation fails. No room is lost then.
pub(crate) fn reserve<T>(items: &mut Vec<T>, additional: usize) -> Result<(), AllocError>
    ensures items { items.new.items ≡ items.old.items }
    ensures len { vec_len items.new ≡ vec_len items.old }
    ensures ok { OnOk result (vec_len items.new + additional ≤ vec_capacity items.new) }
    ensures left { vec_capacity items.old ≤ vec_capacity items.new }
{
    let spare = items.capacity() - items.len();
    if additional <= spare {
        return Ok(());
    }
    items.reserve_exact(additional.max(spare.saturating_add(items.capacity() / 4)))
}

/// The same, of a queue.
///
/// # Errors
///
/// `AllocError` if memory allocation fails. No room is lost then.
pub(crate) fn reserve_queue<T>(items: &mut VecDeque<T>, additional: usize) -> Result<(), AllocError>
    ensures items { items.new.items ≡ items.old.items }
    ensures len { deque_len items.new ≡ deque_len items.old }
    ensures ok { OnOk result (deque_len items.new + additional ≤ deque_capacity items.new) }
    ensures left { deque_capacity items.old ≤ deque_capacity items.new }
{
    let spare = items.capacity() - items.len();
    if additional <= spare {
        return Ok(());
    }
    items.reserve_exact(additional.max(spare.saturating_add(items.capacity() / 4)))
}

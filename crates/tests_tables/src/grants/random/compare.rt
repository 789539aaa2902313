//! After a change the ledger holds and returns what the plain lists do: all of it.

mod addresses;
mod lists;
mod requests;
mod times;

use crate::fixture::same;
use crate::grants::plain::Plain;
use crate::grants::plain::reads::offer_of;
use std::alloc::{AllocError, Global};
use std::process::Abort;
use turn_client_grants::{GrantLedger, GrantTable};

/// All rows and queues are the same, and each look-up returns the same: at this time, and for each key
/// that a row may have, of which only some have one.
pub(crate) fn is_same(
    rt: &impl Abort,
    ledger: &GrantLedger,
    plain: &Plain,
    now: u64,
    alloc: Global,
) -> Result<(), AllocError> {
    let table = ledger.table();
    lists::are_same(rt, ledger, plain, alloc)?;
    lists::have_same_addresses(rt, ledger, plain);
    addresses::are_same(rt, ledger, plain);
    numbers(rt, table, plain);
    requests::are_same(rt, table, plain);
    times::are_same(rt, table, plain, now);
    Ok(whole(rt, table, plain))
}

/// What is read without a key.
fn whole(rt: &impl Abort, table: &GrantTable, plain: &Plain) {
    for place in 0..3 {
        same(rt, table.nth_allocation(place), plain.nth_allocation(place));
    }
    let next = plain.next_offer().map(|row| offer_of(&row));
    same(rt, table.next_offer(), next);
    same(rt, table.indicated_count(), plain.indicated_count());
    same(rt, table.free_number(), plain.free_number());
}

/// Each channel number that may be in use, and some that no channel has.
fn numbers(rt: &impl Abort, table: &GrantTable, plain: &Plain) {
    for number in 0x3ffe..0x4018u16 {
        same(rt, table.channel_owner(number), plain.owner(number));
        same(rt, table.channel_progress(number), plain.channel(number));
        same(
            rt,
            table.channel_peer(number).copied(),
            plain.active_owner(number),
        );
    }
}

//! What depends on the time.

use crate::fixture::same;
use crate::grants::plain::{Plain, SECOND, address, at};
use std::process::Abort;
use std::time::Duration;
use turn_client_grants::GrantTable;

/// How long before its expiry a grant is refreshed.
fn ahead() -> Duration {
    Duration::from_secs(60)
}

/// This time, the nanoseconds next to it, and times long before and after it.
pub(crate) fn are_same(rt: &impl Abort, table: &GrantTable, plain: &Plain, now: u64) {
    let far = now.saturating_add(1_000 * SECOND);
    for time in [0, now.saturating_sub(1), now, now.saturating_add(1), far] {
        same(
            rt,
            table.first_refresh(at(time), ahead()),
            plain.first_refresh(time),
        );
        reservations(rt, table, plain, time);
        for pause in [0, now, far] {
            soonest(rt, table, plain, time, pause);
        }
    }
}

fn reservations(rt: &impl Abort, table: &GrantTable, plain: &Plain, now: u64) {
    for n in 0..8u8 {
        let until = table.reserved_until(address(n), at(now));
        same(rt, until, plain.reserved_until(n, now));
    }
}

/// The next wake-up time, with a limit that is after all rows and with one that may be before some.
fn soonest(rt: &impl Abort, table: &GrantTable, plain: &Plain, now: u64, pause: u64) {
    for limit in [now, u64::MAX] {
        let found = table.soonest(at(limit), at(now), at(pause), ahead());
        same(rt, found, at(plain.soonest(limit, now, pause)));
    }
}

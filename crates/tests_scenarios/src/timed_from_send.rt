//! A hundred permissions that are requested at one time: the requests wait for their responses from when they are made, or from
//! when their first copies are given out (`TurnConfig::set_requests_timed_from_send`).

use crate::caller::Caller;
use crate::fixture::{check, client_by_send};
use crate::messages::GENEROUS;
use crate::slow_link::{are_permitted, are_requested};
use std::alloc::Global;
use std::process::Abort;
use std::test::Fail;

/// How many peers are permitted.
const PEERS: u8 = 100;

/// A time in milliseconds, and how many packets the client has sent by then.
type Row = (u32, u32);

// Two packets allocate. A request leaves each 50 ms from 2 s on, and is answered 20 ms later. The 90 that have not left 500 ms
// after they were made leave then, all at once, as retransmissions, and once more in their turn.
const BY_CALL: &[Row] = &[
    (2_499, 12),
    (2_500, 102),
    (4_000, 132),
    (7_100, 192),
    (9_000, 192),
];

// each leaves once, in its turn
const BY_SEND: &[Row] = &[
    (2_499, 12),
    (2_500, 13),
    (4_000, 43),
    (7_100, 102),
    (9_000, 102),
];

/// Asserts that a client so set has sent so many packets at these times, and that then all is granted.
fn sends(rt: &impl Abort, alloc: Global, timed_from_send: bool, rows: &[Row]) -> Result<(), Fail> {
    let mut client = client_by_send(alloc, timed_from_send)?;
    let mut caller = Caller::new(alloc);
    caller.wait(&mut client, GENEROUS, 2_000)?;
    check(rt, are_requested(&mut client, PEERS, 2_000), 2_000);
    for row in rows {
        caller.wait(&mut client, GENEROUS, row.0)?;
        check(rt, caller.sent == row.1, row.0);
    }
    check(rt, are_permitted(&client, PEERS), 9_001);
    Ok(())
}

#[test]
fn requests_leave_in_their_turn_alone(rt: HostRuntime) -> Result<(), Fail> {
    sends(&rt, rt.alloc(), false, BY_CALL)?;
    sends(&rt, rt.alloc(), true, BY_SEND)
}

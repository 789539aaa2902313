//! Requests are counted, and their round trips measured.

use crate::fixture::{at, check};
use std::process::Abort;
use std::test::Fail;
use turn_session_counts::counters::Counters;
use turn_session_counts::counts::RequestCounts;
use turn_stun::transaction::TransactionId;

/// The ID of a request.
fn id(last: u8) -> TransactionId {
    TransactionId::from_bytes([0, 0, 0, 0, 0, 0, 0, 0, 0, 0, 0, last])
}

/// Asserts that these are the counters, with the mean in nanoseconds.
fn are(
    rt: &impl Abort,
    counts: &RequestCounts,
    requests: u64,
    retransmissions: u64,
    round_trip: Option<u64>,
    case: u32,
) {
    let wanted = Counters {
        requests,
        retransmissions,
        round_trip,
    };
    check(rt, counts.counters() == wanted, case);
}

#[test]
fn each_next_round_trip_goes_into_the_mean_by_an_eighth(rt: HostRuntime) -> Result<(), Fail> {
    let mut counts = RequestCounts::new();
    are(&rt, &counts, 0, 0, None, 0);
    counts.sent(id(1), 0, at(0));
    are(&rt, &counts, 1, 0, None, 1);
    counts.answered(id(1), at(40));
    are(&rt, &counts, 1, 0, Some(40_000_000), 2);
    counts.sent(id(2), 0, at(1_000));
    counts.sent(id(3), 0, at(1_050));
    // (7 * 40 ms + 80 ms) / 8
    counts.answered(id(3), at(1_130));
    are(&rt, &counts, 3, 0, Some(45_000_000), 3);
    // (7 * 45 ms + 200 ms) / 8
    counts.answered(id(2), at(1_200));
    are(&rt, &counts, 3, 0, Some(64_375_000), 4);
    // (7 * 64.375 ms + 1 ms) / 8 = 56.453125 ms
    counts.sent(id(4), 0, at(2_000));
    counts.answered(id(4), at(2_001));
    are(&rt, &counts, 4, 0, Some(56_453_125), 5);
    // (7 * 56453125 ns + 0) / 8 = 49396484.375 ns
    counts.sent(id(5), 0, at(3_000));
    counts.answered(id(5), at(3_000));
    are(&rt, &counts, 5, 0, Some(49_396_484), 6);
    Ok(())
}

#[test]
fn a_response_is_measured_once(rt: HostRuntime) -> Result<(), Fail> {
    let mut counts = RequestCounts::new();
    counts.sent(id(1), 0, at(0));
    counts.answered(id(2), at(10));
    are(&rt, &counts, 1, 0, None, 0);
    counts.answered(id(1), at(40));
    counts.answered(id(1), at(90));
    are(&rt, &counts, 1, 0, Some(40_000_000), 1);
    Ok(())
}

#[test]
fn a_request_that_is_sent_again_is_not_measured(rt: HostRuntime) -> Result<(), Fail> {
    let mut counts = RequestCounts::new();
    counts.sent(id(1), 0, at(0));
    counts.sent(id(2), 0, at(100));
    counts.sent(id(1), 1, at(500));
    counts.sent(id(1), 2, at(1_500));
    are(&rt, &counts, 2, 2, None, 0);
    counts.answered(id(1), at(1_540));
    are(&rt, &counts, 2, 2, None, 1);
    counts.answered(id(2), at(1_600));
    are(&rt, &counts, 2, 2, Some(1_500_000_000), 2);
    Ok(())
}

#[test]
fn the_last_64_sending_times_are_known(rt: HostRuntime) -> Result<(), Fail> {
    let mut counts = RequestCounts::new();
    for last in 0..65 {
        counts.sent(id(last), 0, at(u32::from(last)));
    }
    counts.answered(id(0), at(1_000));
    are(&rt, &counts, 65, 0, None, 0);
    counts.answered(id(1), at(1_001));
    are(&rt, &counts, 65, 0, Some(1_000_000_000), 1);
    counts.answered(id(64), at(1_064));
    are(&rt, &counts, 65, 0, Some(1_000_000_000), 2);
    Ok(())
}

//! When a relay is tried again, and after which failures it is not.

use crate::fixture::{at, certain, check, refused, v4, v6, wrong};
use std::process::Abort;
use std::test::Fail;
use turn_agent::NumberSource;
use turn_relay_tries::addresses::Addresses;
use turn_relay_tries::attempts::{AttemptStep, Attempts};
use turn_relay_tries::backoff::Backoff;
use turn_relay_tries::causes::Cause;
use turn_relay_tries::failures::Failures;
use turn_relay_tries::redirects::Redirects;
use turn_relay_tries::tries::Tries;
use turn_stun::transaction::TransactionId;

/// The waits between the beginnings of tries, in milliseconds.
const WAITS: &[u32] = &[500, 1_000, 2_000, 4_000, 4_000];

#[test]
fn waits_double_up_to_four_seconds(rt: HostRuntime) -> Result<(), Fail> {
    let mut numbers = NumberSource::from_seed([7; 32]);
    let mut tries = Tries::new(certain());
    for wait in WAITS {
        tries.begin(certain(), &mut numbers, at(0));
        check(&rt, tries.due == at(*wait), *wait);
    }
    Ok(())
}

#[test]
fn half_of_a_wait_is_random(rt: HostRuntime) -> Result<(), Fail> {
    let least = TransactionId::from_bytes([0; 12]);
    let most = TransactionId::from_bytes([255; 12]);
    check(
        &rt,
        Backoff::new().drawn(4_000_000_000, least) == 4_000_000_000,
        0,
    );
    check(
        &rt,
        Backoff::new().drawn(4_000_000_000, most) == 2_000_000_001,
        1,
    );
    Ok(())
}

#[test]
fn only_a_relay_that_was_up_for_a_minute_begins_anew(rt: HostRuntime) -> Result<(), Fail> {
    let mut numbers = NumberSource::from_seed([7; 32]);
    let mut tries = Tries::new(certain());
    tries.begin(certain(), &mut numbers, at(0));
    tries.ended(certain(), at(1_000), at(60_999));
    check(&rt, tries.due == at(61_199), 0);
    tries.ended(certain(), at(1_000), at(61_000));
    check(&rt, tries.due == at(0), 1);
    check(&rt, tries.wait == 500_000_000, 2);
    Ok(())
}

/// How long the tries over a slow path last, in nanoseconds.
const LENGTHS: &[u64] = &[
    7_800_000_000,
    15_600_000_000,
    31_200_000_000,
    31_200_000_000,
];

#[test]
fn tries_over_a_slow_path_last_longer(rt: HostRuntime) -> Result<(), Fail> {
    let mut tries = Tries::new(certain());
    check(&rt, tries.length == 3_900_000_000, 0);
    for length in LENGTHS {
        tries.too_slow(true);
        check(&rt, tries.length == *length, 1);
    }
    tries.too_slow(false);
    check(&rt, tries.length == 3_900_000_000, 2);
    Ok(())
}

#[test]
fn a_slow_path_is_forgotten_after_a_minute(rt: HostRuntime) -> Result<(), Fail> {
    let mut tries = Tries::new(certain());
    tries.too_slow(true);
    tries.ended(certain(), at(1_000), at(60_999));
    check(&rt, tries.length == 7_800_000_000, 0);
    tries.ended(certain(), at(1_000), at(61_000));
    check(&rt, tries.length == 3_900_000_000, 1);
    Ok(())
}

/// Fails by one cause after the other, of which at most the last one is final.
fn check_third(rt: &impl Abort, case: u32, causes: [Cause; 3], is_final: bool) {
    let mut failures = Failures::new();
    let [first, second, third] = causes;
    check(rt, !failures.failed(first, at(0)), case);
    check(rt, !failures.failed(second, at(0)), case);
    check(rt, failures.failed(third, at(0)) == is_final, case);
}

#[test]
fn what_stays_as_it_is_fails_in_a_row(rt: HostRuntime) -> Result<(), Fail> {
    let other = Cause::NotConnected;
    check_third(&rt, 0, [other, other, refused(403)], false);
    check_third(&rt, 1, [other, refused(403), refused(403)], true);
    check_third(&rt, 2, [refused(300), other, refused(300)], false);
    check_third(&rt, 3, [other, refused(440), refused(442)], true);
    check_third(&rt, 4, [other, wrong(), wrong()], true);
    check_third(&rt, 5, [wrong(), other, wrong()], false);
    check_third(&rt, 6, [refused(486), refused(486), refused(486)], true);
    check_third(&rt, 7, [other, refused(486), refused(486)], false);
    Ok(())
}

#[test]
fn an_allocation_of_its_own_uses_up_no_quota(rt: HostRuntime) -> Result<(), Fail> {
    let mut failures = Failures::new();
    failures.left(at(600_000));
    for time in [at(0), at(1_000), at(2_000), at(599_999)] {
        check(&rt, !failures.failed(refused(486), time), 0);
    }
    check(&rt, !failures.failed(refused(486), at(600_000)), 1);
    check(&rt, !failures.failed(refused(486), at(600_001)), 2);
    check(&rt, failures.failed(refused(486), at(600_002)), 3);
    Ok(())
}

#[test]
fn attempts_are_staggered(rt: HostRuntime) -> Result<(), Fail> {
    let mut attempts = Attempts::new(3);
    check(&rt, attempts.poll(at(0)) == AttemptStep::Begin(0), 0);
    check(
        &rt,
        attempts.poll(at(249)) == AttemptStep::WaitUntil(at(250)),
        1,
    );
    check(&rt, attempts.poll(at(250)) == AttemptStep::Begin(1), 2);
    check(&rt, !attempts.failed(0), 3);
    check(
        &rt,
        attempts.poll(at(260)) == AttemptStep::WaitUntil(at(500)),
        4,
    );
    check(&rt, !attempts.failed(1), 5);
    check(&rt, attempts.poll(at(260)) == AttemptStep::Begin(2), 6);
    check(&rt, attempts.poll(at(261)) == AttemptStep::Idle, 7);
    check(&rt, attempts.failed(2), 8);
    Ok(())
}

#[test]
fn families_take_turns(rt: HostRuntime) -> Result<(), Fail> {
    let mut addresses = Addresses::new(rt.alloc());
    for address in [v6(1), v6(2), v4(1), v6(1), v6(3), v4(1)] {
        addresses.add(address)?;
    }
    check(&rt, addresses.len() == 4, 0);
    for address in [v6(1), v4(1), v6(2), v6(3)] {
        check(&rt, addresses.take_next() == Some(address), 1);
    }
    check(&rt, addresses.take_next().is_none(), 2);
    Ok(())
}

#[test]
fn servers_that_name_each_other_are_no_circle(rt: HostRuntime) -> Result<(), Fail> {
    let mut redirects = Redirects::new(5, rt.alloc());
    redirects.ask(v4(1))?;
    check(&rt, redirects.follow(v4(2)), 0);
    redirects.ask(v4(2))?;
    check(&rt, !redirects.follow(v4(1)), 1);
    check(&rt, redirects.left == 4, 2);
    Ok(())
}

//! When a relay is tried, how far it has come, and when it is given up.

use crate::fixture::{at, certain, check, refused};
use std::test::Fail;
use turn_relay_course::course::{Course, Phase};
use turn_relay_course::reopen::Reopen;
use turn_relay_tries::causes::Cause;
use turn_session_book::causes::Why;
use turn_session_book::tags::Tag;

/// A course whose first try has an address requested.
fn trying(reopen: Reopen, servers: usize) -> Course {
    let mut course = Course::new(reopen, servers, certain(), [7; 32]);
    let _begun = course.begin(at(0));
    course.ready(at(0));
    course
}

#[test]
fn one_forged_packet_ends_nothing(rt: HostRuntime) -> Result<(), Fail> {
    let mut course = trying(Reopen::Always, 1);
    course.failed(refused(403), at(100));
    check(&rt, course.phase == Phase::Resting, 0);
    check(&rt, course.tries.due == at(500), 1);
    check(&rt, !course.begin(at(499)), 2);
    check(&rt, course.begin(at(500)), 3);
    course.failed(refused(403), at(600));
    check(&rt, course.phase == Phase::Over(refused(403)), 4);
    Ok(())
}

#[test]
fn one_life_tries_each_server_once_and_at_once(rt: HostRuntime) -> Result<(), Fail> {
    let mut course = trying(Reopen::Never, 3);
    course.failed(Cause::NotConnected, at(100));
    check(&rt, course.server == 1, 0);
    check(&rt, course.begin(at(100)), 1);
    course.failed(refused(403), at(100));
    check(&rt, course.server == 2, 2);
    check(&rt, course.begin(at(100)), 3);
    course.failed(Cause::NotConnected, at(200));
    check(&rt, course.phase == Phase::Over(Cause::NotConnected), 4);
    Ok(())
}

#[test]
fn a_try_of_one_life_has_no_end_of_its_own(rt: HostRuntime) -> Result<(), Fail> {
    let course = trying(Reopen::Never, 2);
    check(&rt, course.phase == Phase::Trying(None), 0);
    check(&rt, course.due().is_none(), 1);
    check(&rt, !course.is_late(at(3_600_000)), 2);
    Ok(())
}

#[test]
fn only_a_server_that_was_heard_is_slow(rt: HostRuntime) -> Result<(), Fail> {
    let mut course = trying(Reopen::Always, 1);
    check(&rt, !course.is_late(at(3_899)), 0);
    check(&rt, course.is_late(at(3_900)), 1);
    course.heard();
    course.failed(Cause::TooSlow(3_900_000_000), at(3_900));
    check(&rt, course.tries.length == 7_800_000_000, 2);
    let _begun = course.begin(at(4_100));
    course.ready(at(4_100));
    check(&rt, course.phase == Phase::Trying(Some(at(11_900))), 3);
    course.failed(Cause::TooSlow(7_800_000_000), at(11_900));
    check(&rt, course.tries.length == 3_900_000_000, 4);
    Ok(())
}

#[test]
fn one_life_ends_with_its_address(rt: HostRuntime) -> Result<(), Fail> {
    let mut course = trying(Reopen::Never, 2);
    course.opened();
    course.restored(at(100));
    check(&rt, course.phase == Phase::Up(at(100)), 0);
    course.failed(Cause::Life(Why::Unanswered(3)), at(900_000));
    check(
        &rt,
        course.phase == Phase::Over(Cause::Life(Why::Unanswered(3))),
        1,
    );
    Ok(())
}

#[test]
fn an_error_of_the_callers_own_is_final(rt: HostRuntime) -> Result<(), Fail> {
    let mut course = trying(Reopen::Always, 2);
    course.failed(Cause::OwnError(Tag(9)), at(100));
    check(&rt, course.phase == Phase::Over(Cause::OwnError(Tag(9))), 0);
    check(&rt, course.due().is_none(), 1);
    Ok(())
}

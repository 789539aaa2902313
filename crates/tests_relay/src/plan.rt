//! What the caller of a relay is to do, and in which order.

use crate::fixture::{at, certain, check, v4, v6};
use std::alloc::{AllocError, Global};
use std::process::Abort;
use std::test::Fail;
use turn_relay_course::course::Phase;
use turn_relay_course::reopen::Reopen;
use turn_relay_plan::error::TaskError;
use turn_relay_plan::plan::Plan;
use turn_relay_plan::step::PlanStep;
use turn_relay_tries::causes::Cause;
use turn_relay_tries::tasks::{Attempt, Work};
use turn_session_book::tags::Tag;
use turn_stun::instant::Instant;

/// The plan of a relay with one server, which has asked for credentials as task 1.
fn asking(alloc: Global) -> Result<Plan, AllocError> {
    let mut plan = Plan::new(alloc, Reopen::Always, 1, certain(), [7; 32]);
    let _step = plan.poll(at(0))?;
    let _task = plan.give_task();
    Ok(plan)
}

/// The same with its server's addresses looked up as task 2.
fn trying(alloc: Global) -> Result<Plan, AllocError> {
    let mut plan = asking(alloc)?;
    let _said = plan.credentials(1, at(1_000));
    let _task = plan.give_task();
    Ok(plan)
}

/// The same with one address of each family.
fn resolved(alloc: Global) -> Result<Plan, AllocError> {
    let mut plan = trying(alloc)?;
    let _said = plan.found(2, v6(1));
    let _said = plan.found(2, v4(1));
    let _said = plan.resolved(2);
    Ok(plan)
}

/// Asserts that the next task has this number and is for this.
fn gives(rt: &impl Abort, plan: &mut Plan, number: u64, work: Work, case: u32) {
    match plan.give_task() {
        Some(task) => check(rt, task.number == number && task.work == work, case),
        None => check(rt, false, case),
    }
}

/// Asserts that a poll at this time has this result.
fn polls(
    rt: &impl Abort,
    plan: &mut Plan,
    now: Instant,
    step: PlanStep,
    case: u32,
) -> Result<(), Fail> {
    check(rt, plan.poll(now)? == step, case);
    Ok(())
}

#[test]
fn a_try_begins_with_credentials(rt: HostRuntime) -> Result<(), Fail> {
    let mut plan = Plan::new(rt.alloc(), Reopen::Always, 1, certain(), [7; 32]);
    polls(&rt, &mut plan, at(0), PlanStep::Again, 0)?;
    gives(&rt, &mut plan, 1, Work::Credentials, 1);
    polls(
        &rt,
        &mut plan,
        at(29_999),
        PlanStep::Wait(Some(at(30_000))),
        2,
    )?;
    let late = Cause::NotDone(Work::Credentials);
    polls(&rt, &mut plan, at(30_000), PlanStep::Failed(late), 3)?;
    check(&rt, plan.phase() == Phase::Resting, 4);
    Ok(())
}

#[test]
fn a_task_is_answered_once(rt: HostRuntime) -> Result<(), Fail> {
    let mut plan = asking(rt.alloc())?;
    check(&rt, plan.credentials(2, at(0)) == Err(TaskError::NoTask), 0);
    check(&rt, plan.credentials(1, at(0)).is_ok(), 1);
    check(&rt, plan.credentials(1, at(0)) == Err(TaskError::NoTask), 2);
    check(&rt, plan.found(2, v4(1)) == Err(TaskError::NoTask), 3);
    gives(&rt, &mut plan, 2, Work::Resolve(0), 4);
    check(&rt, plan.resolved(2) == Err(TaskError::NoAddress), 5);
    check(&rt, plan.found(2, v4(1)).is_ok(), 6);
    check(&rt, plan.resolved(2).is_ok(), 7);
    Ok(())
}

/// The attempt with the address at this place.
fn attempt(place: usize) -> Work {
    let to = if place == 0 { v6(1) } else { v4(1) };
    Work::Socket(Attempt {
        server: 0,
        place,
        to,
    })
}

#[test]
fn addresses_are_attempted_one_after_the_other(rt: HostRuntime) -> Result<(), Fail> {
    let mut plan = resolved(rt.alloc())?;
    polls(&rt, &mut plan, at(1_000), PlanStep::Again, 0)?;
    gives(&rt, &mut plan, 3, attempt(0), 1);
    polls(
        &rt,
        &mut plan,
        at(1_000),
        PlanStep::Wait(Some(at(1_250))),
        2,
    )?;
    polls(&rt, &mut plan, at(1_250), PlanStep::Again, 3)?;
    gives(&rt, &mut plan, 4, attempt(1), 4);
    polls(
        &rt,
        &mut plan,
        at(1_250),
        PlanStep::Wait(Some(at(4_900))),
        5,
    )?;
    Ok(())
}

#[test]
fn a_try_fails_with_its_last_address(rt: HostRuntime) -> Result<(), Fail> {
    let mut plan = resolved(rt.alloc())?;
    polls(&rt, &mut plan, at(1_000), PlanStep::Again, 0)?;
    gives(&rt, &mut plan, 3, attempt(0), 1);
    check(&rt, plan.failed(3, Tag(7), at(1_010)) == Ok(None), 2);
    polls(&rt, &mut plan, at(1_010), PlanStep::Again, 3)?;
    gives(&rt, &mut plan, 4, attempt(1), 4);
    let last = plan.failed(4, Tag(7), at(1_020));
    check(&rt, last == Ok(Some(Cause::NotConnected)), 5);
    check(&rt, plan.next_try() == at(1_220), 6);
    Ok(())
}

#[test]
fn a_try_has_its_time(rt: HostRuntime) -> Result<(), Fail> {
    let mut plan = trying(rt.alloc())?;
    polls(
        &rt,
        &mut plan,
        at(4_899),
        PlanStep::Wait(Some(at(4_900))),
        0,
    )?;
    let slow = Cause::TooSlow(3_900_000_000);
    polls(&rt, &mut plan, at(4_900), PlanStep::Failed(slow), 1)?;
    check(&rt, plan.resolved(2) == Err(TaskError::NoTask), 2);
    check(&rt, plan.next_try() == at(5_100), 3);
    Ok(())
}

#[test]
fn each_task_of_one_life_has_its_time(rt: HostRuntime) -> Result<(), Fail> {
    let mut plan = Plan::new(rt.alloc(), Reopen::Never, 2, certain(), [7; 32]);
    polls(&rt, &mut plan, at(0), PlanStep::Again, 0)?;
    gives(&rt, &mut plan, 1, Work::Credentials, 1);
    check(&rt, plan.credentials(1, at(1_000)).is_ok(), 2);
    gives(&rt, &mut plan, 2, Work::Resolve(0), 3);
    let wait = PlanStep::Wait(Some(at(31_000)));
    polls(&rt, &mut plan, at(30_999), wait, 4)?;
    let late = Cause::NotDone(Work::Resolve(0));
    polls(&rt, &mut plan, at(31_000), PlanStep::Failed(late), 5)?;
    polls(&rt, &mut plan, at(31_000), PlanStep::Again, 6)?;
    check(
        &rt,
        plan.credentials(3, at(31_000)) == Err(TaskError::NoTask),
        7,
    );
    gives(&rt, &mut plan, 3, Work::Credentials, 8);
    check(&rt, plan.credentials(3, at(31_000)).is_ok(), 9);
    gives(&rt, &mut plan, 4, Work::Resolve(1), 10);
    Ok(())
}

#[test]
fn a_response_withdraws_the_other_sockets(rt: HostRuntime) -> Result<(), Fail> {
    let mut plan = resolved(rt.alloc())?;
    polls(&rt, &mut plan, at(1_000), PlanStep::Again, 0)?;
    polls(&rt, &mut plan, at(1_250), PlanStep::Again, 1)?;
    gives(&rt, &mut plan, 3, attempt(0), 2);
    gives(&rt, &mut plan, 4, attempt(1), 3);
    check(&rt, plan.socket_opened(3).is_ok(), 4);
    plan.responded();
    check(&rt, plan.socket_opened(4) == Err(TaskError::NoTask), 5);
    plan.opened();
    plan.restored(at(1_300));
    check(&rt, plan.phase() == Phase::Up(at(1_300)), 6);
    Ok(())
}

#[test]
fn who_leaves_has_no_task(rt: HostRuntime) -> Result<(), Fail> {
    let mut plan = trying(rt.alloc())?;
    plan.leave();
    check(&rt, plan.found(2, v4(1)) == Err(TaskError::NoTask), 0);
    polls(&rt, &mut plan, at(60_000), PlanStep::Wait(None), 1)?;
    check(&rt, plan.give_task().is_none(), 2);
    Ok(())
}

//! Calls of an agent as rows of data. Times are in nanoseconds, and each request has a number.

use crate::agent::fixture::{at, id, server};
use crate::fixture::same;
use std::process::Abort;
use turn_agent::agent::{StunAgent, StunAgentPollRet};

/// A call of an agent, and its answer.
#[derive(Clone, Copy)]
pub enum Step {
    /// The request with this number is sent at this time.
    Sends(u32, u64),
    /// At the first time the agent returns the second as its deadline.
    Waits(u64, u64),
    /// At this time the request with this number is retransmitted.
    Resends(u64, u32),
    /// At this time no request is due.
    SendsNothing(u64),
    /// At this time the request with this number times out.
    GivesUp(u64, u32),
    /// The request with this number is ended, and whether it was outstanding.
    Ends(u32, bool),
    /// The number of outstanding requests.
    Outstanding(usize),
    /// For a caller with the first time the earliest time is the second.
    Earliest(u64, u64),
}

/// Sends a request, and returns whether memory allocation succeeded.
pub fn is_sent(rt: &impl Abort, agent: &mut StunAgent, n: u32, now: u64) -> bool {
    let id = id(n);
    assert!(rt; !agent.is_outstanding(id));
    agent
        .send_request(id, n.to_be_bytes(), server(), at(now))
        .is_ok()
}

pub fn sends(rt: &impl Abort, agent: &mut StunAgent, n: u32, now: u64) {
    same(rt, is_sent(rt, agent, n, now), true);
}

/// The number of the due request, and whether memory allocation succeeded.
pub fn due(rt: &impl Abort, agent: &mut StunAgent, now: u64) -> (Option<u32>, bool) {
    match agent.poll_transmit(at(now)) {
        Ok(Some(packet)) => {
            let number = <[u8; 4]>::try_from(packet.payload.as_bytes());
            (
                Some(u32::from_be_bytes(number.expect(rt, "four bytes"))),
                true,
            )
        }
        Ok(None) => (None, true),
        Err(_) => (None, false),
    }
}

pub fn resends(rt: &impl Abort, agent: &mut StunAgent, now: u64, n: u32) {
    same(rt, (now, due(rt, agent, now)), (now, (Some(n), true)));
}

fn reports(rt: &impl Abort, agent: &mut StunAgent, now: u64, want: StunAgentPollRet) {
    same(rt, (now, agent.poll(at(now))), (now, want));
}

pub fn waits(rt: &impl Abort, agent: &mut StunAgent, now: u64, until: u64) {
    reports(rt, agent, now, StunAgentPollRet::WaitUntil(at(until)));
}

pub fn gives_up(rt: &impl Abort, agent: &mut StunAgent, now: u64, n: u32) {
    reports(rt, agent, now, StunAgentPollRet::TransactionTimedOut(id(n)));
}

/// The step has the expected answer.
pub fn follow(rt: &impl Abort, agent: &mut StunAgent, step: Step) {
    match step {
        Step::Sends(n, now) => sends(rt, agent, n, now),
        Step::Waits(now, until) => waits(rt, agent, now, until),
        Step::Resends(now, n) => resends(rt, agent, now, n),
        Step::SendsNothing(now) => same(rt, (now, due(rt, agent, now)), (now, (None, true))),
        Step::GivesUp(now, n) => gives_up(rt, agent, now, n),
        Step::Ends(n, want) => same(rt, agent.end(id(n)), want),
        Step::Outstanding(want) => same(rt, agent.outstanding(), want),
        Step::Earliest(time, want) => same(rt, agent.earliest(at(time)), at(want)),
    }
}

/// Each step has the expected answer.
pub fn follow_all(rt: &impl Abort, agent: &mut StunAgent, steps: &[Step]) {
    for step in steps {
        follow(rt, agent, *step);
    }
}

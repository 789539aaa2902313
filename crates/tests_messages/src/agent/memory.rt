//! Memory allocation that fails at each place: the answer, and the state after it.
//!
//! Each test accepts the failure as an answer. `rt try --test --fail-alloc N` makes the Nth allocation fail.

use crate::agent::fixture::{agent_with, at, id};
use crate::agent::steps::{due, is_sent, sends, waits};
use crate::fixture::same;
use std::alloc::Global;
use std::process::Abort;
use turn_agent::agent::{StunAgent, StunAgentPollRet};
use turn_stun::transport::TransportType;

/// An agent that sends each request three times.
fn agent(alloc: Global) -> StunAgent {
    agent_with(alloc, TransportType::Udp, 2_000_000, u64::MAX, 3, 5)
}

/// Whether the first request is outstanding, and whether the agent has nothing to do.
fn state_of(agent: &mut StunAgent) -> (bool, bool) {
    let idle = StunAgentPollRet::WaitUntil(at(9_999_000_000_000));
    (agent.is_outstanding(id(1)), agent.poll(at(0)) == idle)
}

/// Sends a request, which is outstanding exactly if memory allocation succeeded. If it failed, sends it
/// again.
fn sends_again(rt: &impl Abort, agent: &mut StunAgent) {
    let sent = is_sent(rt, agent, 1, 0);
    same(rt, state_of(agent), (sent, !sent));
    if !sent {
        sends(rt, agent, 1, 0);
    }
}

#[test]
fn refused_request_is_not_outstanding(rt: HostRuntime) {
    let mut agent = agent(rt.alloc());
    sends_again(&rt, &mut agent);
}

/// Sends the due retransmission; if memory allocation fails, a second time.
fn resends_twice(rt: &impl Abort, agent: &mut StunAgent) {
    let mut sent = due(rt, agent, 2_000_000);
    if !sent.1 {
        waits(rt, agent, 2_000_000, 2_000_000);
        sent = due(rt, agent, 2_000_000);
    }
    same(rt, sent, (Some(1), true));
    waits(rt, agent, 2_000_000, 6_000_000);
}

#[test]
fn refused_resend_is_still_due(rt: HostRuntime) {
    let mut agent = agent(rt.alloc());
    if is_sent(&rt, &mut agent, 1, 0) {
        resends_twice(&rt, &mut agent);
    }
}

//! Worked schedules: when a request is sent, and when it times out.

use crate::agent::fixture::{agent_with, local, server};
use crate::agent::steps::{due, sends};
use crate::fixture::same;
use std::alloc::Global;
use std::process::Abort;
use std::slice::Iter;
use turn_agent::agent::{StunAgent, StunAgentPollRet};
use turn_stun::instant::Instant;
use turn_stun::transport::TransportType;

const MS: u64 = 1_000_000;

const SECOND: u64 = 1_000_000_000;

/// The timers (the first wait, the maximum, the number of transmissions, the last wait), the transport, the
/// times at which the request is sent, and the time at which it times out.
type Schedule = (u64, u64, u32, u64, TransportType, &'static [u64], u64);

static SCHEDULES: [Schedule; 6] = [
    (
        600 * MS,
        SECOND,
        3,
        3 * SECOND,
        TransportType::Tcp,
        &[0],
        4_600 * MS,
    ),
    (
        600 * MS,
        SECOND,
        3,
        3 * SECOND,
        TransportType::Udp,
        &[0, 600 * MS, 1_600 * MS],
        4_600 * MS,
    ),
    (
        MS,
        u64::MAX,
        7,
        2 * SECOND,
        TransportType::Udp,
        &[0],
        2 * SECOND,
    ),
    (
        2 * MS,
        SECOND,
        3,
        5 * MS,
        TransportType::Udp,
        &[0, 2 * MS, 6 * MS],
        11 * MS,
    ),
    (
        SECOND,
        SECOND,
        u32::MAX,
        0,
        TransportType::Tcp,
        &[0],
        4_294_967_294_000_000_000,
    ),
    (
        u64::MAX,
        u64::MAX,
        2,
        0,
        TransportType::Udp,
        &[0, 0x7fff_ffff_ffff_ffff],
        0x7fff_ffff_ffff_ffff,
    ),
];

/// The time of the next step after this one, or `None` if the request times out at this one.
fn step_after(agent: &mut StunAgent, now: Instant) -> Option<Instant> {
    match agent.poll(now) {
        StunAgentPollRet::WaitUntil(time) => Some(now.max(time)),
        StunAgentPollRet::TransactionTimedOut(_) => None,
    }
}

/// Polls the agent at the times that it returns; a request must be due at these times. Returns when it timed
/// out, in at most 40 steps.
fn end_of(rt: &impl Abort, agent: &mut StunAgent, times: &mut Iter<u64>) -> Option<u64> {
    let mut now = Instant::ZERO;
    for _ in 0..40 {
        let Some(time) = step_after(agent, now) else {
            return Some(now.as_nanos());
        };
        now = time;
        if due(rt, agent, now.as_nanos()).0.is_some() {
            same(rt, times.next().copied(), Some(now.as_nanos()));
        }
    }
    None
}

/// The agent sends a request at these times, the first of which is 0, and the request times out at `end`.
fn follows(rt: &impl Abort, mut agent: StunAgent, times: &[u64], end: u64) {
    let mut wanted = times.iter();
    sends(rt, &mut agent, 1, 0);
    same(rt, wanted.next().copied(), Some(0));
    same(rt, end_of(rt, &mut agent, &mut wanted), Some(end));
    same(rt, wanted.len(), 0);
}

fn follows_schedule(rt: &impl Abort, alloc: Global, it: &Schedule) {
    let agent = agent_with(alloc, it.4, it.0, it.1, it.2, it.3);
    follows(rt, agent, it.5, it.6);
}

#[test]
fn requests_follow_their_schedule(rt: HostRuntime) {
    for schedule in &SCHEDULES {
        follows_schedule(&rt, rt.alloc(), schedule);
    }
}

/// The times at which a request with the default timers is sent.
static DEFAULT_MOMENTS: [u64; 7] = [
    0,
    500_000_000,
    1_500_000_000,
    3_500_000_000,
    7_500_000_000,
    15_500_000_000,
    31_500_000_000,
];

#[test]
fn default_schedule_takes_39_seconds_and_a_half(rt: HostRuntime) {
    let agent = StunAgent::builder(rt.alloc(), TransportType::Udp, local()).build();
    follows(&rt, agent, &DEFAULT_MOMENTS, 39_500_000_000);
}

#[test]
fn an_agent_reports_what_it_is_for(rt: HostRuntime) {
    let agent = StunAgent::builder(rt.alloc(), TransportType::Udp, local())
        .remote_addr(server())
        .build();
    let ends = (agent.local_addr(), agent.remote_addr(), agent.transport());
    same(&rt, ends, (local(), Some(server()), TransportType::Udp));
}

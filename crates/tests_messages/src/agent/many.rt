//! Hundreds of requests at once: responses, ends and retransmissions, some of them in the middle.

use crate::agent::fixture::{SUCCESS, agent_with, header, id, server};
use crate::agent::responses::accepts;
use crate::agent::steps::{Step, follow, gives_up, resends, sends};
use crate::fixture::same;
use std::process::Abort;
use turn_agent::agent::StunAgent;
use turn_stun::transport::TransportType;

/// How many requests are sent, one each nanosecond.
const COUNT: u32 = 300;

/// When all of them are due.
const WAVE: u64 = 2_000_300;

/// Whether a response to the request with this number is accepted.
fn is_accepted(rt: &impl Abort, agent: &mut StunAgent, n: u32) -> bool {
    accepts(rt, agent, header(SUCCESS, id(n)), server())
}

/// A response to every third request is accepted, and a copy of it is not, nor is a response to nothing.
fn answers_every_third(rt: &impl Abort, agent: &mut StunAgent) {
    for n in 0u32..COUNT {
        if n % 3 == 0 {
            same(rt, (n, is_accepted(rt, agent, n)), (n, true));
            same(rt, (n, is_accepted(rt, agent, n)), (n, false));
        }
        let stray = n + COUNT;
        same(rt, (stray, is_accepted(rt, agent, stray)), (stray, false));
    }
}

fn knows_the_others(rt: &impl Abort, agent: &StunAgent) {
    for n in 0u32..2 * COUNT {
        let found = (n, agent.is_outstanding(id(n)));
        same(rt, found, (n, n < COUNT && n % 3 != 0));
    }
}

/// All others are due at once: of every two the first is ended as soon as it was sent.
fn resends_the_others(rt: &impl Abort, agent: &mut StunAgent) {
    for n in 0u32..COUNT {
        if n % 3 != 0 {
            resends(rt, agent, WAVE, n);
        }
        if n % 3 == 1 {
            follow(rt, agent, Step::Ends(n, true));
            follow(rt, agent, Step::Ends(n, false));
        }
    }
    follow(rt, agent, Step::SendsNothing(WAVE));
    follow(rt, agent, Step::Outstanding(100));
}

fn times_out_the_last(rt: &impl Abort, agent: &mut StunAgent) {
    for n in 0u32..COUNT {
        if n % 3 == 2 {
            gives_up(rt, agent, WAVE + 7, n);
        }
    }
    follow(rt, agent, Step::Outstanding(0));
}

#[test]
fn three_hundred_requests_are_kept_apart(rt: HostRuntime) {
    let mut agent = agent_with(rt.alloc(), TransportType::Udp, 2_000_000, u64::MAX, 2, 7);
    for n in 0u32..COUNT {
        sends(&rt, &mut agent, n, u64::from(n));
    }
    answers_every_third(&rt, &mut agent);
    knows_the_others(&rt, &agent);
    resends_the_others(&rt, &mut agent);
    times_out_the_last(&rt, &mut agent);
}

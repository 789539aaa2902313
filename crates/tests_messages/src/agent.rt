//! What no clause says: external vectors, worked schedules, many requests at once.

mod fixture;
mod ids;
mod many;
mod memory;
mod responses;
mod schedules;
mod steps;

use crate::agent::fixture::{agent_with, at, id, local, server, short_agent};
use crate::agent::steps::Step::{
    Earliest, Ends, GivesUp, Outstanding, Resends, Sends, SendsNothing, Waits,
};
use crate::agent::steps::{Step, follow_all, gives_up, resends, sends, waits};
use crate::fixture::same;
use std::process::Abort;
use turn_agent::agent::StunAgent;
use turn_stun::transport::TransportType;

static TO_THE_GREATEST: [Step; 4] = [
    Waits(0, 9_999_000_000_000),
    Sends(1, 5),
    Waits(5, 0x7fff_ffff_ffff_ffff),
    Waits(u64::MAX, 0x7fff_ffff_ffff_ffff),
];

// A deadline past the largest time is returned as that time, and one for no outstanding request as 9999 s.
#[test]
fn times_stop_at_the_greatest(rt: HostRuntime) {
    let mut agent = agent_with(rt.alloc(), TransportType::Udp, u64::MAX, u64::MAX, 2, 0);
    follow_all(&rt, &mut agent, &TO_THE_GREATEST);
}

fn sends_whole(rt: &impl Abort, agent: &mut StunAgent) {
    assert!(rt; !agent.is_outstanding(id(1)));
    let bytes = [7u8; 3];
    let sent = agent.send_request(id(1), bytes.as_slice(), server(), at(5));
    let packet = sent.expect(rt, "memory");
    let found = (packet.payload, packet.from, packet.to);
    same(rt, found, (bytes.as_slice(), local(), server()));
}

#[test]
fn first_packet_is_the_request(rt: HostRuntime) {
    let mut agent = agent_with(rt.alloc(), TransportType::Udp, u64::MAX, u64::MAX, 2, 0);
    sends_whole(&rt, &mut agent);
}

static TWO_AT_ONCE: [Step; 12] = [
    Sends(1, 0),
    Sends(2, 0),
    Waits(0, 2_000_000),
    Waits(2_000_000, 2_000_000),
    Resends(2_000_000, 1),
    Waits(2_000_000, 2_000_000),
    Resends(2_000_000, 2),
    SendsNothing(2_000_000),
    Waits(2_000_000, 2_000_005),
    GivesUp(2_000_005, 1),
    GivesUp(2_000_005, 2),
    Waits(2_000_005, 9_999_002_000_005),
];

#[test]
fn two_due_at_one_time_go_in_their_order(rt: HostRuntime) {
    let mut agent = short_agent(rt.alloc());
    follow_all(&rt, &mut agent, &TWO_AT_ONCE);
}

static COUNTED: [Step; 6] = [
    Outstanding(0),
    Sends(0, 0),
    Outstanding(1),
    Sends(1, 0),
    Outstanding(2),
    Sends(2, 0),
];

#[test]
fn outstanding_requests_are_counted(rt: HostRuntime) {
    let mut agent = short_agent(rt.alloc());
    follow_all(&rt, &mut agent, &COUNTED);
}

static EARLIEST: [Step; 8] = [
    Sends(1, 7),
    Sends(2, 0),
    Earliest(u64::MAX, 2_000_000),
    Earliest(3, 3),
    Waits(1, 2_000_000),
    Earliest(u64::MAX, 2_000_000),
    Earliest(3, 3),
    Waits(1, 2_000_000),
];

// Before `poll` the earliest time is computed from all requests, after it the stored one is used.
#[test]
fn earliest_time_counts_the_callers_own(rt: HostRuntime) {
    let mut agent = short_agent(rt.alloc());
    follow_all(&rt, &mut agent, &EARLIEST);
}

static ENDED: [Step; 6] = [
    Sends(1, 0),
    Sends(2, 7),
    Waits(1, 2_000_000),
    Ends(1, true),
    Ends(1, false),
    Waits(1, 2_000_007),
];

#[test]
fn ended_request_is_not_sent_again(rt: HostRuntime) {
    let mut agent = short_agent(rt.alloc());
    follow_all(&rt, &mut agent, &ENDED);
}

static BACK: [Step; 7] = [
    Sends(1, 9_000_000),
    Waits(0, 11_000_000),
    Resends(20_000_000, 1),
    Waits(1, 24_000_000),
    SendsNothing(1),
    Resends(24_000_001, 1),
    Waits(0, 24_000_006),
];

// A wait counts from the time of its transmission, even if that is before the time of an earlier one.
#[test]
fn times_may_go_back(rt: HostRuntime) {
    let mut agent = agent_with(rt.alloc(), TransportType::Udp, 2_000_000, u64::MAX, 3, 5);
    follow_all(&rt, &mut agent, &BACK);
}

fn come_to_their_ends(rt: &impl Abort, agent: &mut StunAgent) {
    for n in 0u32..1_000 {
        sends(rt, agent, n, u64::from(n));
    }
    for n in 0u32..1_000 {
        let due = 2_000_000 + u64::from(n);
        waits(rt, agent, due, due);
        resends(rt, agent, due, n);
    }
    for n in 0u32..1_000 {
        gives_up(rt, agent, 9_000_000, n);
        same(rt, (n, agent.is_outstanding(id(n))), (n, false));
    }
}

#[test]
fn a_thousand_requests_come_to_their_ends(rt: HostRuntime) {
    let end = 5_000_000;
    let mut agent = agent_with(rt.alloc(), TransportType::Udp, 2_000_000, u64::MAX, 2, end);
    come_to_their_ends(&rt, &mut agent);
}

//! 10,000 random changes of ledgers, 2,000 of each. After each the ledger is compared with plain lists that
//! are kept by hand.

mod answers;
mod asks;
mod compare;
mod connections;

use crate::fixture::same;
use crate::grants::plain::{Kind, Plain, SECOND, TRANSPORT, address};
use crate::grants::random::compare::is_same;
use std::alloc::{AllocError, Global};
use std::process::Abort;
use std::test::Fail;
use turn_client_api::TurnEvent;
use turn_client_grants::GrantLedger;
use turn_stun::transport::TransportType;
use turn_types::AddressFamily;

/// Numbers that look random: a linear congruence modulo 2^64.
#[derive(Drop)]
struct Random {
    state: u64,
}

impl Random {
    fn draw(&mut self) -> u64 {
        self.state = self
            .state
            .wrapping_mul(6_364_136_223_846_793_005)
            .wrapping_add(1_442_695_040_888_963_407);
        self.state >> 33
    }

    fn byte(&mut self) -> u8 {
        (self.draw() % 256) as u8
    }

    /// A change at this time, or up to 1,000 s earlier.
    fn change(&mut self, time: u64) -> Draw {
        let is_earlier = self.draw() % 8 == 0;
        let back = if is_earlier {
            (self.draw() % 1_000).saturating_mul(SECOND)
        } else {
            0
        };
        Draw {
            n: self.byte(),
            m: self.byte(),
            now: time.saturating_sub(back),
        }
    }
}

/// The values with which one change is drawn.
#[derive(Clone, Copy)]
pub(crate) struct Draw {
    /// The numbers of the peer and of the request.
    pub(crate) n: u8,
    pub(crate) m: u8,
    pub(crate) now: u64,
}

/// A reservation of too much memory is refused, whichever list it is for: of more than an address space has,
/// or of more than a vector may.
fn is_refused(rt: &impl Abort, ledger: &mut GrantLedger, draw: &Draw) {
    let too_many = if draw.m % 8 == 0 {
        1usize << 48
    } else {
        usize::MAX / 64
    };
    same(rt, ledger.reserve(too_many, 0, 0, 0).is_err(), true);
    same(rt, ledger.reserve(1, too_many, 0, 0).is_err(), true);
    same(rt, ledger.reserve(1, 1, too_many, 0).is_err(), true);
    same(rt, ledger.reserve(1, 1, 1, too_many).is_err(), true);
}

/// A permission or a channel is kept, or let go. Over the other transport there is none.
fn keeps(rt: &impl Abort, ledger: &mut GrantLedger, plain: &mut Plain, draw: &Draw) {
    let peer = address(draw.n % 8);
    let is_kept = draw.m % 3 == 0;
    let other = ledger.set_permission_kept(TransportType::Udp, peer.ip(), is_kept);
    same(rt, other.is_ok(), false);
    if draw.m % 2 == 0 {
        let answer = ledger.set_permission_kept(TRANSPORT, peer.ip(), is_kept);
        let is_there = plain.keeps(Kind::Permission, draw.n % 8, is_kept);
        same(rt, answer.is_ok(), is_there);
    } else {
        let answer = ledger.set_channel_kept(TRANSPORT, peer, is_kept);
        let is_there = plain.keeps(Kind::Channel, draw.n % 8, is_kept);
        same(rt, answer.is_ok(), is_there);
    }
}

/// The caller polls up to so many events and addresses to close.
fn polls(rt: &impl Abort, ledger: &mut GrantLedger, plain: &mut Plain, count: u8) {
    for _ in 0..count {
        same(rt, ledger.next_event(), plain.events.pop_front());
        same(rt, ledger.next_close(), plain.closes.pop_front());
    }
}

/// The requested families fail, before or after all queued events.
fn fails_families(
    ledger: &mut GrantLedger,
    plain: &mut Plain,
    draw: &Draw,
) -> Result<(), AllocError> {
    ledger.reserve(0, 0, 1, 0)?;
    let failure = TurnEvent::AllocationCreateFailed(AddressFamily::IPV4);
    if draw.m % 2 == 0 {
        ledger.fail_families(&[AddressFamily::IPV4]);
        return plain.wait(failure);
    }
    ledger.fail_families_first(&[AddressFamily::IPV4]);
    plain.jump(failure)
}

/// A change of what is requested, or by time.
fn first_changes(
    ledger: &mut GrantLedger,
    plain: &mut Plain,
    kind: u64,
    draw: &Draw,
) -> Result<(), AllocError> {
    match kind {
        0 => asks::permission(ledger, plain, draw),
        1 => asks::channel(ledger, plain, draw),
        2 => asks::channel_with_permission(ledger, plain, draw),
        3 => asks::connect(ledger, plain, draw),
        4 => asks::allocation(ledger, plain, draw),
        5 => asks::refresh(ledger, plain, draw),
        6 => asks::again(ledger, plain, draw),
        7 => asks::gives_back(ledger, plain, draw),
        8 => answers::expire_grants(ledger, plain, draw),
        _ => answers::expire_given_up(ledger, plain, draw),
    }
}

/// A change by what the server answered.
fn second_changes(
    ledger: &mut GrantLedger,
    plain: &mut Plain,
    kind: u64,
    draw: &Draw,
) -> Result<(), AllocError> {
    match kind {
        0 => answers::allocation(ledger, plain, draw),
        1 => answers::no_allocation(ledger, plain),
        2 => answers::permission(ledger, plain, draw),
        3 => answers::channel(ledger, plain, draw),
        4 => answers::connect(ledger, plain, draw),
        5 => answers::refresh(ledger, plain, draw),
        6 => answers::expired(ledger, plain, draw),
        7 => answers::delete_answered(ledger, plain, draw),
        _ => fails_families(ledger, plain, draw),
    }
}

/// A change of a data connection, or of an offer of one.
fn third_changes(
    ledger: &mut GrantLedger,
    plain: &mut Plain,
    kind: u64,
    draw: &Draw,
) -> Result<(), AllocError> {
    match kind {
        0 => connections::offered(ledger, plain, draw),
        1 => connections::reported(ledger, plain),
        2 => connections::taken(ledger, plain, draw),
        3 => connections::opened(ledger, plain, draw),
        4 => connections::bound(ledger, plain, draw),
        5 => connections::not_bound(ledger, plain, draw),
        6 => connections::bound_again(ledger, plain, draw),
        _ => connections::gone(ledger, plain, draw),
    }
}

/// One change of both.
fn changes(
    ledger: &mut GrantLedger,
    plain: &mut Plain,
    kind: u64,
    draw: &Draw,
) -> Result<(), AllocError> {
    if kind < 10 {
        return first_changes(ledger, plain, kind, draw);
    }
    if kind < 19 {
        return second_changes(ledger, plain, kind - 10, draw);
    }
    third_changes(ledger, plain, kind - 19, draw)
}

/// Whether a step of this kind is a change by the caller, a reply or the time. The others poll or refuse
/// memory.
fn is_change(kind: u64) -> bool {
    kind < 27 || kind == 30
}

/// Makes one change, refuses memory, or polls.
fn step(
    rt: &impl Abort,
    ledger: &mut GrantLedger,
    plain: &mut Plain,
    kind: u64,
    draw: &Draw,
) -> Result<(), AllocError> {
    match kind {
        27 | 28 => polls(rt, ledger, plain, draw.m % 32),
        29 => is_refused(rt, ledger, draw),
        30 => keeps(rt, ledger, plain, draw),
        kind => changes(ledger, plain, kind, draw)?,
    }
    Ok(())
}

/// How many changes a test makes. The five tests together make 10,000.
const CHANGES: u32 = 2_000;

/// More steps than that takes: one of ten polls or refuses memory.
const STEPS: u32 = 3_000;

/// Makes changes one after the other, and compares both after each step. Time passes, but one step of
/// eight is made at an earlier time.
fn steps(
    rt: &impl Abort,
    ledger: &mut GrantLedger,
    plain: &mut Plain,
    seed: u64,
    alloc: Global,
) -> Result<(), AllocError> {
    let mut random = Random { state: seed };
    let mut time = 0u64;
    let mut count = 0u32;
    for _step in 0..STEPS {
        if count == CHANGES {
            break;
        }
        time = time.saturating_add((random.draw() % 9).saturating_mul(SECOND));
        let draw = random.change(time);
        let kind = random.draw() % 31;
        step(rt, ledger, plain, kind, &draw)?;
        is_same(rt, ledger, plain, draw.now, alloc)?;
        count = count.saturating_add(u32::from(is_change(kind)));
    }
    same(rt, count, CHANGES);
    Ok(())
}

/// Makes the changes that this seed draws.
fn random_changes(rt: &impl Abort, seed: u64, alloc: Global) -> Result<(), Fail> {
    let mut ledger = Box::new(alloc, GrantLedger::new(TRANSPORT, alloc))?;
    let mut plain = Box::new(alloc, Plain::new(alloc))?;
    steps(rt, &mut ledger, &mut plain, seed, alloc)?;
    Ok(())
}

#[test]
fn random_changes_are_those_of_plain_lists(rt: HostRuntime) -> Result<(), Fail> {
    random_changes(&rt, 1, rt.alloc())
}

#[test]
fn second_changes_are_those_of_plain_lists(rt: HostRuntime) -> Result<(), Fail> {
    random_changes(&rt, 2, rt.alloc())
}

#[test]
fn third_changes_are_those_of_plain_lists(rt: HostRuntime) -> Result<(), Fail> {
    random_changes(&rt, 3, rt.alloc())
}

#[test]
fn fourth_changes_are_those_of_plain_lists(rt: HostRuntime) -> Result<(), Fail> {
    random_changes(&rt, 4, rt.alloc())
}

#[test]
fn fifth_changes_are_those_of_plain_lists(rt: HostRuntime) -> Result<(), Fail> {
    random_changes(&rt, 5, rt.alloc())
}

//! What a session notes: requests that have one outcome each, what was granted, and what rests.

use crate::fixture::{at, check, ip, peer, permission, refusal, reports_alone};
use std::alloc::{AllocError, Global};
use std::net::SocketAddr;
use std::process::Abort;
use std::test::Fail;
use turn_session_book::answers::{CallError, Outcome};
use turn_session_book::book::Book;
use turn_session_book::events::Event;
use turn_session_book::keys::Key;
use turn_session_book::open_requests::Progress;
use turn_session_book::replies::{MAX_PHRASE, Phrase};
use turn_session_book::rests::Rest;
use turn_stun::instant::Instant;
use turn_types::AddressFamily;

/// Asserts that a request for this key has one outcome, which answers all who asked for it.
fn has_one_outcome(rt: &impl Abort, book: &mut Book, key: Key, case: u32) -> Result<(), Fail> {
    check(rt, book.add(1, key, Progress::Queued)? == 1, case);
    check(rt, book.add(2, key, Progress::Queued)? == 1, case);
    book.granted(key)?;
    reports_alone(rt, book, Event::Outcome(1, key, Outcome::Granted), case);
    book.settled(key, Outcome::TimedOut(None))?;
    check(rt, book.next_event().is_none(), case);
    check(rt, book.request_of(key).is_none(), case);
    Ok(())
}

#[test]
fn a_request_has_one_outcome(rt: HostRuntime) -> Result<(), Fail> {
    let mut book = Book::new(rt.alloc());
    has_one_outcome(&rt, &mut book, permission(3), 0)?;
    has_one_outcome(&rt, &mut book, Key::Channel(peer(3)), 1)?;
    has_one_outcome(&rt, &mut book, Key::Connect(peer(3)), 2)
}

/// Keys that are alike, of which none is another, each with its request's ticket.
fn alike() -> [(u32, Key); 5] {
    [
        (1, Key::Permission(ip(3))),
        (2, Key::Permission(ip(4))),
        (3, Key::Channel(peer(3))),
        (4, Key::Channel(SocketAddr::new(ip(3), 9_001))),
        (5, Key::Connect(peer(3))),
    ]
}

#[test]
fn each_key_has_its_own_request(rt: HostRuntime) -> Result<(), Fail> {
    let mut book = Book::new(rt.alloc());
    for (ticket, key) in alike() {
        let noted = book.add(ticket, key, Progress::Queued)?;
        check(&rt, noted == ticket, ticket);
    }
    book.granted(Key::Channel(peer(3)))?;
    let outcome = Event::Outcome(3, Key::Channel(peer(3)), Outcome::Granted);
    reports_alone(&rt, &mut book, outcome, 11);
    Ok(())
}

/// When a key is refused, and for how long it rests then, both in milliseconds.
const REFUSALS: &[(u32, u32)] = &[
    (1_000, 5_000),
    (6_000, 10_000),
    (20_000, 20_000),
    (90_000, 40_000),
    (200_000, 80_000),
    (1_000_000, 80_000),
];

/// Refuses a request for this key, by 403.
fn refuse(book: &mut Book, key: Key, now: u32) -> Result<(), AllocError> {
    let _ticket = book.add(1, key, Progress::Queued)?;
    book.failed(key, Some(refusal(403)), at(now))
}

/// Asserts that the key rests up to this time, and not at it.
fn rests_until(rt: &impl Abort, book: &Book, key: Key, until: u32) {
    let rests = is_rest(book.rest_of(key, at(until.saturating_sub(1))), at(until));
    check(rt, rests, until);
    check(rt, book.rest_of(key, at(until)).is_none(), until);
}

/// Whether this is the rest of a key that was refused by 403, up to this time.
fn is_rest(rest: Option<Rest>, until: Instant) -> bool {
    match rest {
        Some(rest) => rest.until == until && rest.error == Some(refusal(403)),
        None => false,
    }
}

#[test]
fn a_refused_key_rests_for_twice_as_long_each_time(rt: HostRuntime) -> Result<(), Fail> {
    let mut book = Book::new(rt.alloc());
    let key = permission(3);
    for (now, wait) in REFUSALS {
        refuse(&mut book, key, *now)?;
        rests_until(&rt, &book, key, now.saturating_add(*wait));
        check(&rt, book.rest_of(permission(4), at(*now)).is_none(), *now);
    }
    Ok(())
}

#[test]
fn a_grant_ends_the_rests(rt: HostRuntime) -> Result<(), Fail> {
    let mut book = Book::new(rt.alloc());
    let key = permission(3);
    refuse(&mut book, key, 1_000)?;
    refuse(&mut book, key, 6_000)?;
    book.granted(key)?;
    check(&rt, book.rest_of(key, at(6_001)).is_none(), 0);
    refuse(&mut book, key, 20_000)?;
    rests_until(&rt, &book, key, 25_000);
    Ok(())
}

#[test]
fn what_was_not_requested_does_not_rest(rt: HostRuntime) -> Result<(), Fail> {
    let mut book = Book::new(rt.alloc());
    book.granted(permission(3))?;
    book.failed(permission(3), Some(refusal(403)), at(0))?;
    check(&rt, book.rest_of(permission(3), at(0)).is_none(), 0);
    Ok(())
}

#[test]
fn a_grant_that_ends_is_lost(rt: HostRuntime) -> Result<(), Fail> {
    let mut book = Book::new(rt.alloc());
    let key = permission(3);
    book.granted(key)?;
    check(&rt, book.is_held(key), 0);
    book.failed(key, Some(refusal(437)), at(0))?;
    reports_alone(
        &rt,
        &mut book,
        Event::Lost(key, Outcome::Refused(refusal(437))),
        1,
    );
    check(&rt, !book.is_held(key), 2);
    book.granted(key)?;
    book.failed(key, None, at(0))?;
    reports_alone(&rt, &mut book, Event::Lost(key, Outcome::TimedOut(None)), 3);
    Ok(())
}

#[test]
fn a_grant_that_was_let_go_expires(rt: HostRuntime) -> Result<(), Fail> {
    let mut book = Book::new(rt.alloc());
    let key = Key::Channel(peer(3));
    book.granted(key)?;
    book.mark(key, false);
    // it was refreshed once more
    book.granted(key)?;
    book.failed(key, None, at(0))?;
    reports_alone(&rt, &mut book, Event::Expired(key), 0);
    Ok(())
}

#[test]
fn a_grant_that_ends_is_lost_also_where_somebody_waits_for_it(rt: HostRuntime) -> Result<(), Fail> {
    let mut book = Book::new(rt.alloc());
    let key = permission(3);
    book.granted(key)?;
    check(&rt, book.add(5, key, Progress::Queued)? == 5, 0);
    book.failed(key, Some(refusal(403)), at(0))?;
    let refused = Outcome::Refused(refusal(403));
    check(&rt, book.next_event() == Some(Event::Lost(key, refused)), 1);
    reports_alone(&rt, &mut book, Event::Outcome(5, key, refused), 2);
    Ok(())
}

#[test]
fn a_request_without_a_response_tells_the_last_one_that_was_ignored(
    rt: HostRuntime,
) -> Result<(), Fail> {
    let mut book = Book::new(rt.alloc());
    let key = permission(3);
    check(&rt, book.add(1, key, Progress::Queued)? == 1, 0);
    book.hint(key, refusal(400));
    book.hint(key, refusal(401));
    book.failed(key, None, at(0))?;
    let outcome = Outcome::TimedOut(Some(refusal(401)));
    reports_alone(&rt, &mut book, Event::Outcome(1, key, outcome), 1);
    Ok(())
}

#[test]
fn requests_wait_in_the_order_in_which_they_were_made(rt: HostRuntime) -> Result<(), Fail> {
    let mut book = Book::new(rt.alloc());
    check(&rt, book.first_waiting().is_none(), 0);
    check(&rt, book.add(1, permission(3), Progress::Queued)? == 1, 1);
    check(&rt, book.add(2, permission(4), Progress::Waiting)? == 2, 2);
    check(&rt, book.add(3, permission(5), Progress::Waiting)? == 3, 3);
    check(
        &rt,
        matches!(book.first_waiting(), Some(first) if first.ticket == 2),
        4,
    );
    book.advance(permission(4), Progress::Queued);
    check(
        &rt,
        matches!(book.first_waiting(), Some(first) if first.ticket == 3),
        5,
    );
    book.settled(permission(5), Outcome::NotMade(CallError::NoAllocation))?;
    check(&rt, book.first_waiting().is_none(), 6);
    let outcome = Outcome::NotMade(CallError::NoAllocation);
    reports_alone(&rt, &mut book, Event::Outcome(3, permission(5), outcome), 7);
    Ok(())
}

#[test]
fn a_request_that_was_not_made_is_forgotten(rt: HostRuntime) -> Result<(), Fail> {
    let mut book = Book::new(rt.alloc());
    check(&rt, book.add(1, permission(3), Progress::Queued)? == 1, 0);
    check(&rt, book.add(2, permission(4), Progress::Queued)? == 2, 1);
    book.withdraw();
    check(&rt, book.request_of(permission(4)).is_none(), 2);
    check(&rt, book.request_of(permission(3)).is_some(), 3);
    Ok(())
}

#[test]
fn the_first_relayed_address_opens_the_relay(rt: HostRuntime) -> Result<(), Fail> {
    let mut book = Book::new(rt.alloc());
    let mapped = Some(peer(9));
    book.opened(peer(4), mapped, true)?;
    book.opened(peer(5), mapped, false)?;
    book.family_failed(AddressFamily::IPV6, Some(refusal(440)))?;
    check(
        &rt,
        book.next_event() == Some(Event::Up(peer(4), mapped)),
        0,
    );
    check(&rt, book.next_event() == Some(Event::Also(peer(5))), 1);
    let failed = Event::FamilyFailed(AddressFamily::IPV6, Some(refusal(440)));
    reports_alone(&rt, &mut book, failed, 2);
    Ok(())
}

#[test]
fn a_data_connection_is_no_grant(rt: HostRuntime) -> Result<(), Fail> {
    let mut book = Book::new(rt.alloc());
    let key = Key::Connect(peer(3));
    refuse(&mut book, key, 0)?;
    check(&rt, book.next_event().is_some(), 0);
    check(&rt, book.add(2, key, Progress::Queued)? == 2, 1);
    book.connected(key)?;
    reports_alone(&rt, &mut book, Event::Outcome(2, key, Outcome::Granted), 2);
    check(&rt, !book.is_held(key), 3);
    check(&rt, book.rest_of(key, at(1)).is_none(), 4);
    Ok(())
}

/// The phrase that a server sends with 403.
const FORBIDDEN: &[u8] = b"Forbidden";

/// RFC 8489, section 14.8: a phrase has fewer than 128 characters.
#[test]
fn a_phrase_is_kept_up_to_127_bytes(rt: HostRuntime) {
    let long = [0x61; 200];
    check(&rt, Phrase::new(FORBIDDEN).as_bytes() == FORBIDDEN, 0);
    check(&rt, Phrase::new(b"").as_bytes().is_empty(), 1);
    check(&rt, Phrase::new(&long).as_bytes() == &long[..MAX_PHRASE], 2);
    check(&rt, MAX_PHRASE == 127, 3);
    check(&rt, Phrase::new(FORBIDDEN) != Phrase::new(b"Forbidden!"), 4);
}

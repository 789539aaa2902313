//! Requests that need a permission: a channel (RFC 8656, section 12), and a data connection (RFC 6062, section 4.3).

use crate::fixture::{at, check, ip, peer, permission, refusal, reports_alone};
use std::alloc::{AllocError, Global};
use std::net::SocketAddr;
use std::process::Abort;
use std::test::Fail;
use turn_session_book::answers::Outcome;
use turn_session_book::book::Book;
use turn_session_book::events::Event;
use turn_session_book::keys::Key;
use turn_session_book::open_requests::Progress;
use turn_session_book::replies::ErrorReply;

/// The peer of the channel: 10.0.0.3.
const PEER: u8 = 3;

/// A book with a channel that was requested as 1, and which the server has bound without a permission.
fn bound(alloc: Global) -> Result<Book, AllocError> {
    let mut book = Book::new(alloc);
    let _ticket = book.add(1, Key::Channel(peer(PEER)), Progress::Queued)?;
    book.bound(peer(PEER))?;
    Ok(book)
}

/// Whether its channel is the next request whose permission is to be requested.
fn is_unpermitted(book: &Book) -> bool {
    is_next(book, Key::Channel(peer(PEER)))
}

/// Whether this is the next request whose permission is to be requested.
fn is_next(book: &Book, key: Key) -> bool {
    match book.first_unpermitted() {
        Some(request) => request.key == key,
        None => false,
    }
}

/// A data connection to 10.0.0.x, at this port.
fn connection(last: u8, port: u16) -> Key {
    Key::Connect(SocketAddr::new(ip(last), port))
}

/// A book with three data connections that need permissions: two to 10.0.0.4, and then one to 10.0.0.5.
fn unpermitted(alloc: Global) -> Result<Book, AllocError> {
    let mut book = Book::new(alloc);
    let _first = book.add(1, connection(4, 1), Progress::Unpermitted)?;
    let _second = book.add(2, connection(4, 2), Progress::Unpermitted)?;
    let _other = book.add(3, connection(5, 1), Progress::Unpermitted)?;
    Ok(book)
}

#[test]
fn a_channel_that_is_bound_awaits_its_permission(rt: HostRuntime) -> Result<(), Fail> {
    let mut book = bound(rt.alloc())?;
    let key = Key::Channel(peer(PEER));
    check(&rt, book.next_event().is_none() && book.is_held(key), 0);
    check(&rt, is_unpermitted(&book), 1);
    book.advance(key, Progress::Permitting);
    check(&rt, !is_unpermitted(&book), 2);
    book.granted(permission(PEER))?;
    check(&rt, is_unpermitted(&book), 3);
    Ok(())
}

#[test]
fn a_channel_whose_permission_was_granted_before_has_its_outcome(
    rt: HostRuntime,
) -> Result<(), Fail> {
    let mut book = Book::new(rt.alloc());
    let key = Key::Channel(peer(PEER));
    book.granted(permission(PEER))?;
    check(&rt, book.add(1, key, Progress::Queued)? == 1, 0);
    book.bound(peer(PEER))?;
    reports_alone(&rt, &mut book, Event::Outcome(1, key, Outcome::Granted), 1);
    Ok(())
}

// What the client ignores later is not why the permission was refused.
#[test]
fn a_channel_whose_permission_is_refused_has_that_error(rt: HostRuntime) -> Result<(), Fail> {
    let mut book = bound(rt.alloc())?;
    let key = Key::Channel(peer(PEER));
    book.advance(key, Progress::Permitting);
    book.failed(permission(PEER), Some(refusal(403)), at(0))?;
    book.hint(key, refusal(401));
    match book.first_denied() {
        Some(request) => book.denied(request, at(0))?,
        None => check(&rt, false, 0),
    }
    let outcome = Outcome::Refused(refusal(403));
    reports_alone(&rt, &mut book, Event::Outcome(1, key, outcome), 1);
    check(&rt, book.is_held(key), 2);
    check(&rt, book.rest_of(key, at(4_999)).is_some(), 3);
    check(&rt, book.rest_of(key, at(5_000)).is_none(), 4);
    Ok(())
}

#[test]
fn a_permission_that_was_let_go_before_its_grant_is_not_kept(rt: HostRuntime) -> Result<(), Fail> {
    let mut book = bound(rt.alloc())?;
    book.advance(Key::Channel(peer(PEER)), Progress::Permitting);
    book.mark(permission(PEER), false);
    book.granted(permission(PEER))?;
    check(&rt, book.is_held(permission(PEER)), 0);
    check(&rt, !book.is_kept(permission(PEER)), 1);
    Ok(())
}

#[test]
fn a_permission_that_is_awaited_holds_up_no_other_peer(rt: HostRuntime) -> Result<(), Fail> {
    let mut book = unpermitted(rt.alloc())?;
    check(&rt, is_next(&book, connection(4, 1)), 0);
    book.advance(connection(4, 1), Progress::Permitting);
    check(&rt, is_next(&book, connection(5, 1)), 1);
    book.advance(connection(5, 1), Progress::Permitting);
    check(&rt, book.first_unpermitted().is_none(), 2);
    Ok(())
}

#[test]
fn requests_that_share_a_permission_go_on_in_order(rt: HostRuntime) -> Result<(), Fail> {
    let mut book = unpermitted(rt.alloc())?;
    book.advance(connection(4, 1), Progress::Permitting);
    book.advance(connection(5, 1), Progress::Permitting);
    book.granted(permission(4))?;
    check(&rt, is_next(&book, connection(4, 1)), 0);
    book.advance(connection(4, 1), Progress::Waiting);
    check(&rt, is_next(&book, connection(4, 2)), 1);
    book.advance(connection(4, 2), Progress::Waiting);
    check(&rt, book.first_unpermitted().is_none(), 2);
    Ok(())
}

/// The first request that was denied has its outcome by this denial.
fn settle_denied(book: &mut Book) -> Result<(), AllocError> {
    if let Some(request) = book.first_denied() {
        book.denied(request, at(0))?;
    }
    Ok(())
}

/// The next event is this outcome of this request.
fn reports(rt: &impl Abort, book: &mut Book, ticket: u32, key: Key, outcome: &Outcome, case: u32) {
    let is_reported = match book.next_event() {
        Some(Event::Outcome(number, whose, its)) => {
            number == ticket && whose == key && its == *outcome
        }
        _ => false,
    };
    check(rt, is_reported, case);
}

/// Both requests that share a permission have this outcome: it was refused by this error, or with `None` not answered in time.
fn both_are_denied(
    rt: &impl Abort,
    alloc: Global,
    error: Option<ErrorReply>,
    outcome: &Outcome,
) -> Result<(), AllocError> {
    let mut book = unpermitted(alloc)?;
    book.advance(connection(4, 1), Progress::Permitting);
    book.failed(permission(4), error, at(0))?;
    check(rt, is_next(&book, connection(5, 1)), 0);
    settle_denied(&mut book)?;
    settle_denied(&mut book)?;
    check(rt, book.first_denied().is_none(), 1);
    reports(rt, &mut book, 1, connection(4, 1), outcome, 2);
    reports(rt, &mut book, 2, connection(4, 2), outcome, 3);
    check(rt, book.next_event().is_none(), 4);
    Ok(())
}

#[test]
fn requests_that_share_a_permission_are_refused_with_it(rt: HostRuntime) -> Result<(), Fail> {
    let outcome = Outcome::Refused(refusal(403));
    both_are_denied(&rt, rt.alloc(), Some(refusal(403)), &outcome)?;
    Ok(())
}

#[test]
fn requests_that_share_a_permission_time_out_with_it(rt: HostRuntime) -> Result<(), Fail> {
    both_are_denied(&rt, rt.alloc(), None, &Outcome::TimedOut(None))?;
    Ok(())
}

#[test]
fn a_data_connection_of_the_peer_is_no_outcome(rt: HostRuntime) -> Result<(), Fail> {
    let mut book = Book::new(rt.alloc());
    let key = Key::Connect(peer(4));
    check(&rt, book.add(1, key, Progress::Unpermitted)? == 1, 0);
    book.connected(key)?;
    book.disconnected(key, Some(refusal(447)), at(0))?;
    check(&rt, book.next_event().is_none(), 1);
    book.advance(key, Progress::Queued);
    book.disconnected(key, Some(refusal(447)), at(0))?;
    let outcome = Outcome::Refused(refusal(447));
    reports_alone(&rt, &mut book, Event::Outcome(1, key, outcome), 2);
    Ok(())
}

#[test]
fn a_data_connection_that_is_closed_unbound_is_requested_once_more(
    rt: HostRuntime,
) -> Result<(), Fail> {
    let mut book = Book::new(rt.alloc());
    let key = Key::Connect(peer(4));
    check(&rt, book.add(1, key, Progress::Queued)? == 1, 0);
    book.open(key, peer(9));
    book.close(peer(8));
    check(&rt, book.first_closed().is_none(), 1);
    book.close(peer(9));
    check(&rt, book.first_closed().is_some(), 2);
    book.repeat(key);
    check(&rt, book.first_closed().is_none(), 3);
    check(
        &rt,
        matches!(book.first_unpermitted(), Some(request) if request.is_repeated),
        4,
    );
    Ok(())
}

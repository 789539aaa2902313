//! The events that report what became of requests and grants. There is room for each.

ghost use Rattle.std.specs.Prelude.{◌≡◌, ◌+◌, ◌<◌, ◌≤◌, ◌∷◌, ◌++◌, [], option_to_list, OnErr, OnOk};
ghost use Rattle.std.specs.VecDeque.{deque_len, deque_capacity};
ghost use Rattle.turn_session_book.specs.Book.{end_event, failure_event, failure_outcome, lost_outcome, outcome_event, rests_after};

use crate::answers::Outcome;
use crate::events::Event;
use crate::keys::Key;
use crate::open_requests::OpenRequest;
use crate::replies::ErrorReply;
use crate::rests::Rests;
use std::alloc::AllocError;
use std::collections::VecDeque;
use turn_stun::instant::Instant;

/// This outcome of a request, if there is one.
pub(crate) fn report_outcome(
    events: &mut VecDeque<Event>,
    request: Option<OpenRequest>,
    key: Key,
    outcome: Outcome,
)
    requires { deque_len events.old < deque_capacity events.old }
    ensures { events.new.items ≡ events.old.items ++ option_to_list (outcome_event key outcome request) }
{
    if let Some(request) = request {
        events.push_back_reserved(Event::Outcome(request.ticket, key, outcome));
    }
}

/// The end of a grant that was kept or not, if there was one.
pub(crate) fn report_end(
    events: &mut VecDeque<Event>,
    kept: Option<bool>,
    key: Key,
    error: Option<ErrorReply>,
)
    requires { deque_len events.old < deque_capacity events.old }
    ensures items { events.new.items ≡ events.old.items ++ option_to_list (end_event key error kept) }
    ensures len { deque_len events.new ≤ deque_len events.old + 1 }
    ensures capacity { deque_capacity events.new ≡ deque_capacity events.old }
{
    match kept {
        Some(true) => events.push_back_reserved(Event::Lost(key, lost_outcome(error))),
        Some(false) => events.push_back_reserved(Event::Expired(key)),
        None => {}
    }
}

/// The failure of a request, if there is one, by this error or without a response in time.
pub(crate) fn report_failure(
    events: &mut VecDeque<Event>,
    request: Option<OpenRequest>,
    key: Key,
    error: Option<ErrorReply>,
)
    requires { deque_len events.old < deque_capacity events.old }
    ensures { events.new.items ≡ events.old.items ++ option_to_list (failure_event key error request) }
{
    if let Some(request) = request {
        events.push_back_reserved(Event::Outcome(
            request.ticket,
            key,
            failure_outcome(error, request.error),
        ));
    }
}

/// This event. Its kind is named since the prover looks for the types that an event holds in what is named.
pub(crate) fn report(events: &mut VecDeque<Event>, event: Event)
    requires { deque_len events.old < deque_capacity events.old }
    ensures { events.new.items ≡ events.old.items ++ event ∷ [] }
{
    match event {
        Event::Lost(key, outcome) => events.push_back_reserved(Event::Lost(key, outcome)),
        _ => events.push_back_reserved(event),
    }
}

/// What became of the request to renew a grant: refused by this error, or timed out.
fn lost_outcome(error: Option<ErrorReply>) -> Outcome
    ensures { result ≡ lost_outcome error }
{
    match error {
        Some(reply) => Outcome::Refused(reply),
        None => Outcome::TimedOut(None),
    }
}

/// Refused by this error, or timed out without a response, of which the last that was ignored is given.
pub(crate) fn failure_outcome(error: Option<ErrorReply>, ignored: Option<ErrorReply>) -> Outcome
    ensures { result ≡ failure_outcome error ignored }
{
    match error {
        Some(reply) => Outcome::Refused(reply),
        None => Outcome::TimedOut(ignored),
    }
}

/// The key rests, if it was requested.
///
/// # Errors
///
/// If memory allocation fails. Nothing changes then.
pub(crate) fn rest(
    rests: &mut Rests,
    requested: bool,
    key: Key,
    error: Option<ErrorReply>,
    now: Instant,
) -> Result<(), AllocError>
    ensures ok { OnOk result (rests.new ≡ rests_after key error now requested rests.old) }
    ensures err { OnErr result (rests.new ≡ rests.old) }
{
    if requested {
        return rests.refused(key, error, now);
    }
    Ok(())
}

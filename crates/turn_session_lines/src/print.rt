//! The answers of a session as text: a line for each.

ghost use Rattle.std.specs.Prelude.{◌≡◌, IfOk, string_bytes};
ghost use Rattle.turn_session_lines.specs.Text.{answer_text, counters_text, kept_text, optional_event_text, optional_request_text};
ghost use Rattle.turn_session_lines.specs.Text.{own_text, request_text, until_text};

mod address;
mod cause;
mod event;
mod field;
mod grants;
mod outcome;

use crate::print::cause::why_text;
use crate::print::event::event_text;
use crate::print::field::{call_error_text, error_reply_text};
use crate::print::grants::grants_text;
use crate::reply::SessionReply;
use std::alloc::{AllocError, Global};
use std::slice;
use turn_lines::print::answers_text;
use turn_session_book::answers::{Answer, CallError};
use turn_session_book::events::Event;
use turn_session_counts::counters::Counters;
use turn_stun::instant::Instant;

/// The line that answers a call.
pub fn answer_text(alloc: Global, reply: &SessionReply) -> Result<String, AllocError>
    ensures { IfOk result (λ text. string_bytes text ≡ answer_text reply.now) }
{
    match reply {
        SessionReply::OfClient(reply) => answers_text(alloc, slice::from_ref(reply)),
        _ => {
            let text = own_text(alloc, reply)?;
            format!(in alloc; "{text}\n")
        }
    }
}

/// What only a session answers.
fn own_text(alloc: Global, reply: &SessionReply) -> Result<String, AllocError>
    ensures { IfOk result (λ text. string_bytes text ≡ own_text reply.now) }
{
    match reply {
        SessionReply::OfClient(_) => Ok(String::new(alloc)),
        SessionReply::Event(event) => optional_event_text(alloc, *event),
        SessionReply::Answer(answer) => optional_request_text(alloc, *answer),
        SessionReply::Kept(kept) => kept_text(alloc, *kept),
        SessionReply::Grants(grants) => grants_text(alloc, grants.as_slice()),
        SessionReply::KeptUntil(time) => until_text(alloc, *time),
        SessionReply::Counters(counters) => counters_text(alloc, *counters),
        SessionReply::TooLong => String::from_str(alloc, "refused too-long"),
    }
}

/// What happened, or `none`.
fn optional_event_text(alloc: Global, event: Option<Event>) -> Result<String, AllocError>
    ensures { IfOk result (λ text. string_bytes text ≡ optional_event_text event) }
{
    match event {
        Some(event) => event_text(alloc, event),
        None => String::from_str(alloc, "none"),
    }
}

/// What a request was answered, or `none`.
fn optional_request_text(alloc: Global, answer: Option<Answer>) -> Result<String, AllocError>
    ensures { IfOk result (λ text. string_bytes text ≡ optional_request_text answer) }
{
    match answer {
        Some(answer) => request_text(alloc, answer),
        None => String::from_str(alloc, "none"),
    }
}

/// What a request was answered.
fn request_text(alloc: Global, answer: Answer) -> Result<String, AllocError>
    ensures { IfOk result (λ text. string_bytes text ≡ request_text answer) }
{
    match answer {
        Answer::Granted => String::from_str(alloc, "granted"),
        Answer::Ticket(ticket) => format!(in alloc; "ticket {ticket}"),
        Answer::Resting(until, error) => {
            let nanos = until.as_nanos();
            let error = error_reply_text(alloc, error)?;
            format!(in alloc; "resting {nanos} {error}")
        }
        Answer::Refused(error) => {
            let error = call_error_text(alloc, error)?;
            format!(in alloc; "refused {error}")
        }
        Answer::Ended(why) => {
            let why = why_text(alloc, why)?;
            format!(in alloc; "ended {why}")
        }
    }
}

/// Whether there is such a grant or request.
fn kept_text(alloc: Global, kept: Result<(), CallError>) -> Result<String, AllocError>
    ensures { IfOk result (λ text. string_bytes text ≡ kept_text kept) }
{
    match kept {
        Ok(()) => String::from_str(alloc, "ok"),
        Err(error) => {
            let error = call_error_text(alloc, error)?;
            format!(in alloc; "refused {error}")
        }
    }
}

/// Until when the server may keep the allocation, or `none`.
fn until_text(alloc: Global, time: Option<Instant>) -> Result<String, AllocError>
    ensures { IfOk result (λ text. string_bytes text ≡ until_text time) }
{
    match time {
        Some(time) => {
            let nanos = time.as_nanos();
            format!(in alloc; "until {nanos}")
        }
        None => String::from_str(alloc, "none"),
    }
}

/// How many requests were sent, how often one was sent again, and the mean round trip in nanoseconds, or `-` before the first answer.
fn counters_text(alloc: Global, counters: Counters) -> Result<String, AllocError>
    ensures { IfOk result (λ text. string_bytes text ≡ counters_text counters) }
{
    let Counters {
        requests,
        retransmissions,
        ..
    } = counters;
    match counters.round_trip {
        Some(nanos) => format!(in alloc; "counters {requests} {retransmissions} {nanos}"),
        None => format!(in alloc; "counters {requests} {retransmissions} -"),
    }
}

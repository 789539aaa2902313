//! The calls of a run on a new session, which is polled earlier than it has asked for: the same answers.

use crate::answered::{Answered, answered_by};
use crate::setup::new_session;
use crate::trace::{Rest, Trace, line_of, made};
use std::alloc::Global;
use turn_client_api::TurnClientApi;
use turn_hostile_net::fault::{Fault, expect};
use turn_session::session::Session;
use turn_session_lines::print::answer_text;

/// The calls of a trace have the same answers on a new session that is polled between them, whenever nothing is due.
///
/// # Errors
///
/// `Wrong` if they have others, and `OutOfMemory` if memory allocation fails.
pub fn same_with_polls(alloc: Global, head: &str, trace: &Trace) -> Result<(), Fault> {
    let mut session = new_session(alloc, head)?;
    let answers = answers_with_polls(alloc, &mut session, trace);
    drop(session);
    expect(
        answers?.as_str() == trace.answers.as_str(),
        "a session that is polled early has other answers",
    )
}

fn answers_with_polls<C: TurnClientApi>(
    alloc: Global,
    session: &mut Session<C>,
    trace: &Trace,
) -> Result<String, Fault> {
    let mut answers = String::new(alloc);
    for (calls, line) in trace.lines.as_str().lines().enumerate() {
        for rest in trace.rests.iter() {
            if rest.calls == calls as u64 {
                poll_early(alloc, session, *rest)?;
            }
        }
        let reply = match made(alloc, session, line.as_bytes()) {
            Ok(reply) => reply,
            Err(fault) => return Err(fault),
        };
        answers.push_str(answer_text(alloc, &reply)?.as_str())?;
    }
    Ok(answers)
}

/// Polls before something is due: the session says the same time again, and has neither packet nor event.
fn poll_early<C: TurnClientApi>(
    alloc: Global,
    session: &mut Session<C>,
    rest: Rest,
) -> Result<(), Fault> {
    match answered(alloc, session, rest.time, "poll") {
        Ok(Answered::Wait(until)) => expect(
            until == rest.until,
            "a session that is polled early says another time",
        )?,
        Ok(_) => return Err(Fault::Wrong("a session that is polled early does something")),
        Err(fault) => return Err(fault),
    }
    expect_nothing(alloc, session, rest.time, "transmit")?;
    expect_nothing(alloc, session, rest.time, "event")
}

/// There is neither packet nor event, as this call asks for.
fn expect_nothing<C: TurnClientApi>(
    alloc: Global,
    session: &mut Session<C>,
    time: u64,
    words: &str,
) -> Result<(), Fault> {
    match answered(alloc, session, time, words) {
        Ok(Answered::Nothing) => Ok(()),
        Ok(_) => Err(Fault::Wrong(
            "a session that is polled early has something to send or to report",
        )),
        Err(fault) => Err(fault),
    }
}

/// What this call is answered.
fn answered<C: TurnClientApi>(
    alloc: Global,
    session: &mut Session<C>,
    time: u64,
    words: &str,
) -> Result<Answered, Fault> {
    let line = line_of(alloc, time, words)?;
    let reply = match made(alloc, session, line.as_bytes()) {
        Ok(reply) => reply,
        Err(fault) => return Err(fault),
    };
    let mut bytes = Vec::new(alloc);
    answered_by(&reply, &mut bytes)
}

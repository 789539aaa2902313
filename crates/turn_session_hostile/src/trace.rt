//! The lines of all calls that were made on a session, and the times at which it was left alone.

ghost use Rattle.std.specs.Prelude.{IfOk};
ghost use Rattle.turn_session_lines.specs.Reply.{IsCallable};

use crate::answered::{Answered, answered_by};
use std::alloc::Global;
use turn_client_api::TurnClientApi;
use turn_hostile_net::cuts::Payloads;
use turn_hostile_net::fault::Fault;
use turn_lines::fault::ReadError;
use turn_session::session::Session;
use turn_session_lines::call::SessionCall;
use turn_session_lines::parse::parse_session_call;
use turn_session_lines::print::answer_text;
use turn_session_lines::reply::{SessionReply, reply_to};

/// A time at which nothing is due, before the next call.
#[derive(Clone, Copy)]
pub struct Rest {
    /// How many calls were made before.
    pub calls: u64,
    /// The time, in nanoseconds.
    pub time: u64,
    /// The time until which nothing is due, as the session has said.
    pub until: u64,
}

/// What was called and what was answered.
#[derive(Drop)]
pub struct Trace {
    alloc: Global,
    /// The calls, a line each.
    pub lines: String,
    /// Their answers, a line each.
    pub answers: String,
    /// Times between them at which nothing is due, in their order.
    pub rests: Vec<Rest>,
    /// The payloads that were returned.
    pub payloads: Payloads,
    /// The bytes of the last packet or payload, if the last call returned one.
    pub bytes: Vec<u8>,
    /// How many calls were made.
    pub calls: u64,
}

impl Trace {
    /// No call. The peers' bytes are streams, or not.
    pub fn new(alloc: Global, is_stream: bool) -> Trace {
        Trace {
            alloc,
            lines: String::new(alloc),
            answers: String::new(alloc),
            rests: Vec::new(alloc),
            payloads: Payloads::new(alloc, is_stream),
            bytes: Vec::new(alloc),
            calls: 0,
        }
    }

    /// Makes the call with these words now, and keeps its line and its answer.
    ///
    /// # Errors
    ///
    /// `Wrong` if these are not the words of a call, and `OutOfMemory` if memory allocation fails.
    pub fn make<C: TurnClientApi>(
        &mut self,
        session: &mut Session<C>,
        now: u64,
        words: &str,
    ) -> Result<Answered, Fault> {
        self.calls = self.calls.saturating_add(1);
        let line = line_of(self.alloc, now, words)?;
        self.lines.push_str(line.as_str())?;
        self.lines.push('\n')?;
        let reply = match made(self.alloc, session, line.as_bytes()) {
            Ok(reply) => reply,
            Err(fault) => return Err(fault),
        };
        let answer = answer_text(self.alloc, &reply)?;
        self.answers.push_str(answer.as_str())?;
        let answered = match answered_by(&reply, &mut self.bytes) {
            Ok(answered) => answered,
            Err(fault) => return Err(fault),
        };
        if let Answered::Payload(peer) = &answered {
            self.payloads.note(*peer, self.bytes.as_slice())?;
        }
        Ok(answered)
    }

    /// Nothing is due at this time, and until that one. The next call is no earlier.
    ///
    /// # Errors
    ///
    /// If memory allocation fails.
    pub fn rest(&mut self, time: u64, until: u64) -> Result<(), Fault> {
        let calls = self.calls;
        Ok(self.rests.push(Rest { calls, time, until })?)
    }
}

/// The line of a call with these words at this time.
///
/// # Errors
///
/// If memory allocation fails.
pub fn line_of(alloc: Global, now: u64, words: &str) -> Result<String, Fault> {
    Ok(format!(in alloc; "{now} {words}")?)
}

/// Makes the call of this line.
///
/// # Errors
///
/// `Wrong` if the line is no call, and `OutOfMemory` if memory allocation fails.
pub fn made<C: TurnClientApi>(
    alloc: Global,
    session: &mut Session<C>,
    line: &[u8],
) -> Result<SessionReply, Fault> {
    let call = call_of(alloc, line)?;
    Ok(reply_to(alloc, session, call)?)
}

/// The call of a line. Its time is in range.
///
/// # Errors
///
/// `Wrong` if the line is no call, and `OutOfMemory` if memory allocation fails.
pub fn call_of(alloc: Global, line: &[u8]) -> Result<SessionCall, Fault>
    ensures { IfOk result IsCallable }
{
    match parse_session_call(alloc, line) {
        Ok(call) => Ok(call),
        Err(ReadError::Bad(_)) => Err(Fault::Wrong("the line of a call is no call")),
        Err(ReadError::OutOfMemory) => Err(Fault::OutOfMemory),
    }
}

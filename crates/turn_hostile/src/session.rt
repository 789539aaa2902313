//! The lines of all calls that were made on a client, and a replay of them.

ghost use Rattle.std.specs.Prelude.{◌≡◌, All, IfOk};
ghost use Rattle.turn_stun.specs.declared.transport.TransportType.TheVariants.{Udp};
ghost use Rattle.turn_client_calls.specs.Run.{IsCallable};

use crate::numbers::number_in;
use crate::outcome::{Outcome, outcome_of};
use std::alloc::Global;
use std::slice;
use turn_auth::credentials::TurnCredentials;
use turn_auth::feature::Feature;
use turn_auth::integrity::IntegrityAlgorithm;
use turn_client_api::{Call, TurnClientApi};
use turn_client_calls::{Reply, reply_to};
use turn_hostile_net::fault::Fault;
use turn_hostile_net::head::{CREDENTIALS, allocation_of, head_words, seed_bytes};
use turn_hostile_net::world::{Kind, local, server};
use turn_line_client::run::replayed_text;
use turn_lines::call::parse_call;
use turn_lines::fault::ReadError;
use turn_lines::head::{Ends, Head, Request};
use turn_lines::print::answers_text;
use turn_types::TransportType;

/// What was called and what was answered.
#[derive(Drop)]
pub struct Session {
    alloc: Global,
    /// The calls, a line each.
    pub trace: String,
    /// Their answers, a line each.
    pub answers: String,
    /// The bytes of the last packet or payload, if the last call returned one.
    pub bytes: Vec<u8>,
    /// How many calls were made.
    pub calls: u64,
}

impl Session {
    /// No call.
    pub fn new(alloc: Global) -> Session {
        Session {
            alloc,
            trace: String::new(alloc),
            answers: String::new(alloc),
            bytes: Vec::new(alloc),
            calls: 0,
        }
    }

    /// Makes the call with these words now, and keeps its line and its answer.
    ///
    /// # Errors
    ///
    /// `Wrong` if these are not the words of a call, and `OutOfMemory` if memory allocation fails.
    pub fn make<C: TurnClientApi>(
        &mut self,
        client: &mut C,
        now: u64,
        words: &str,
    ) -> Result<Outcome, Fault> {
        self.calls = self.calls.saturating_add(1);
        let reply = self.call(client, now, words)?;
        outcome_of(&reply, &mut self.bytes)
    }

    /// Makes the call with these words, which sends data to a peer, and returns the number of the channel over which it
    /// goes, if it goes over one. It is kept as any other, but not counted, and leaves `bytes` as they were.
    ///
    /// # Errors
    ///
    /// `Wrong` if these are not the words of a call, and `OutOfMemory` if memory allocation fails.
    pub fn number_of<C: TurnClientApi>(
        &mut self,
        client: &mut C,
        now: u64,
        words: &str,
    ) -> Result<Option<u16>, Fault> {
        match self.call(client, now, words)? {
            Reply::SendTo(Ok(packet)) => Ok(number_in(packet.payload.as_bytes())),
            _ => Ok(None),
        }
    }

    /// Makes a call, and keeps its line and its answer.
    fn call<C: TurnClientApi>(
        &mut self,
        client: &mut C,
        now: u64,
        words: &str,
    ) -> Result<Reply, Fault> {
        let line = format!(in self.alloc; "{now} {words}")?;
        self.trace.push_str(line.as_str())?;
        self.trace.push('\n')?;
        let reply = made(self.alloc, client, line.as_bytes())?;
        let answer = answers_text(self.alloc, slice::from_ref(&reply))?;
        self.answers.push_str(answer.as_str())?;
        Ok(reply)
    }
}

/// Makes the call of this line.
///
/// # Errors
///
/// `Wrong` if the line is no call, and `OutOfMemory` if memory allocation fails.
pub fn made<C: TurnClientApi>(alloc: Global, client: &mut C, line: &[u8]) -> Result<Reply, Fault> {
    let call = call_of(alloc, line)?;
    Ok(reply_to(alloc, client, &call)?)
}

/// The call of a line. Its payload is so short that any client can make it.
///
/// # Errors
///
/// `Wrong` if the line is no call, and `OutOfMemory` if memory allocation fails.
pub fn call_of(alloc: Global, line: &[u8]) -> Result<Call, Fault>
    ensures { IfOk result (IsCallable Udp) }
{
    match parse_call(alloc, TransportType::Udp, line) {
        Ok(call) => Ok(call),
        Err(ReadError::Bad(_)) => Err(Fault::Wrong("the line of a call is no call")),
        Err(ReadError::OutOfMemory) => Err(Fault::OutOfMemory),
    }
}

/// The calls of a trace.
fn calls_of(alloc: Global, trace: &str) -> Result<Vec<Call>, Fault>
    ensures { IfOk result (λ calls. All (IsCallable Udp) calls.items) }
{
    let mut calls = Vec::new(alloc);
    for line in trace.lines() {
        let call = call_of(alloc, line.as_bytes())?;
        calls.push(call)?;
    }
    Ok(calls)
}

/// The least seed of a run whose requests are timed from their first copies. No run that is judged has it.
const FIRST_TIMED_FROM_SEND: u64 = 1_000;

/// Whether the requests of the run of this seed are timed from their first copies.
fn is_timed_from_send(seed: u64) -> bool {
    seed >= FIRST_TIMED_FROM_SEND
}

/// The line of the head of a client of this kind.
///
/// # Errors
///
/// If memory allocation fails.
pub fn head_line(alloc: Global, kind: Kind, seed: u64) -> Result<String, Fault> {
    let timing = if is_timed_from_send(seed) {
        " timed_from_send"
    } else {
        ""
    };
    Ok(head_words(alloc, kind, seed, timing)?)
}

/// A client of this kind, and its server.
///
/// # Errors
///
/// If memory allocation for its credentials fails.
pub fn head_of(alloc: Global, kind: Kind, seed: u64) -> Result<Head, Fault>
    ensures { IfOk result (λ head. head.ends.transport ≡ TransportType.Udp → head.request.allocation ≡ TransportType.Udp) }
{
    let (user, password) = CREDENTIALS;
    Ok(Head {
        ends: Ends {
            transport: kind.transport,
            local: local(),
            remote: server(),
        },
        request: Request {
            allocation: allocation_of(kind),
            families: (kind.first, kind.second),
            algorithms: (IntegrityAlgorithm::Sha1, None),
            anonymous: Feature::Auto,
        },
        credentials: TurnCredentials::new(alloc, user, password)?,
        seed: seed_bytes(seed),
        waits: None,
        timed_from_send: is_timed_from_send(seed),
    })
}

/// The text of the answers to the calls of a trace, on a new client. It is what `turn_replay` does with a trace: parses
/// each line, and prints the replies of `replay`.
///
/// # Errors
///
/// `Wrong` if a line is no call, and `OutOfMemory` if memory allocation fails.
pub fn replayed(alloc: Global, kind: Kind, seed: u64, trace: &str) -> Result<String, Fault> {
    let calls = calls_of(alloc, trace)?;
    let head = head_of(alloc, kind, seed)?;
    Ok(replayed_text(alloc, head, calls.as_slice())?)
}

//! What is due next, by one call.

ghost use Rattle.std.specs.Prelude.{◌≡◌, ◌≤◌, ◌^◌, IfOk, OnErr};
ghost use Rattle.turn_session.specs.Due.{DueFails, IsNext, NextFails, due_after, event_or, packet_or, rest_of};
ghost use Rattle.turn_session.specs.Sending.{EndsUnsent};

use crate::due::Due;
use crate::session::Session;
use std::alloc::AllocError;
use turn_client_api::{TurnClientApi, TurnPollRet};
use turn_stun::instant::Instant;

impl<C: TurnClientApi> Session<C> {
    /// What is due next, so that a caller has no order of `poll`, `poll_transmit` and `poll_event` to keep: polls the session, and returns
    /// a data connection to open or close, or else a packet, or else an event, or else a time. Call it after any other call, until it
    /// returns a time in the future or `Over`, and again at that time.
    ///
    /// # Errors
    ///
    /// If memory allocation fails for a packet, as that of `poll_transmit`. Call it again.
    pub fn next(&mut self, now: Instant) -> Result<Due, AllocError>
        requires now_in_range { now ≤ 2 ^ 62 }
        ensures due { IfOk result (λ due. IsNext now self.old self.new due) }
        ensures no_memory { OnErr result (NextFails now self.old self.new) }
    {
        let answer = self.poll(now);
        self.due_after(answer, now)
    }

    /// What is due after this answer of `poll`.
    fn due_after(&mut self, answer: TurnPollRet, now: Instant) -> Result<Due, AllocError>
        requires now_in_range { now ≤ 2 ^ 62 }
        ensures due { IfOk result (λ due. (due, self.new) ≡ due_after now answer self.old) }
        ensures no_memory { OnErr result (DueFails now answer self.old self.new) }
    {
        match answer {
            TurnPollRet::WaitUntil(_) | TurnPollRet::Closed => self.packet_or(answer, now),
            _ => Ok(Due::Connection(answer)),
        }
    }

    /// A packet, or else an event, or else what this answer says.
    fn packet_or(&mut self, answer: TurnPollRet, now: Instant) -> Result<Due, AllocError>
        requires now_in_range { now ≤ 2 ^ 62 }
        ensures due { IfOk result (λ due. (due, self.new) ≡ packet_or now answer self.old) }
        ensures no_memory { OnErr result (EndsUnsent now self.old self.new) }
    {
        match self.poll_transmit(now)? {
            Some(packet) => Ok(Due::Packet(packet)),
            None => Ok(self.event_or(answer)),
        }
    }

    /// An event, or else what this answer says.
    fn event_or(&mut self, answer: TurnPollRet) -> Due
        ensures { (result, self.new) ≡ event_or answer self.old }
    {
        match self.poll_event() {
            Some(event) => Due::Event(event),
            None => rest_of(answer),
        }
    }
}

/// What is left to do by this answer.
fn rest_of(answer: TurnPollRet) -> Due
    ensures { result ≡ rest_of answer }
{
    match answer {
        TurnPollRet::WaitUntil(time) => Due::Wait(time),
        TurnPollRet::Closed => Due::Over,
        _ => Due::Connection(answer),
    }
}

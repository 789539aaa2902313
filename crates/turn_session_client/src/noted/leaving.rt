//! A session that leaves.

ghost use Rattle.std.specs.Prelude.{◌≡◌, ◌≤◌, ◌^◌};
ghost use Rattle.turn_session_client.specs.Leaving.{DeletesOnce, PollsLeaving, PollsToEnd, PollsUntil, ended_with_answer, event_forgotten};
ghost use Rattle.turn_session_client.specs.Leaving.{lingers_until, shortage_end};

use crate::constants::{LINGER, SHORTAGE};
use crate::noted::NotedClient;
use std::time::Duration;
use turn_client_api::{DeleteError, TurnClientApi, TurnPollRet};
use turn_session_book::causes::Why;
use turn_session_life::life::Leave;
use turn_stun::instant::Instant;

impl<C: TurnClientApi> NotedClient<C> {
    /// Requests the deletion of the allocation, once there is one and no bytes are on their way to a peer, and polls the client until
    /// it has ended, or the time is over.
    pub(crate) fn poll_leaving(&mut self, leave: Leave, now: Instant) -> TurnPollRet
        requires now_in_range { now ≤ 2 ^ 62 }
        ensures { PollsLeaving leave now self.old self.new result }
    {
        if leave.until <= now {
            self.life.end(leave.why);
            return TurnPollRet::Closed;
        }
        if let Some(end) = self.lingers_until(leave, now) {
            return self.poll_until(leave.why, end, now);
        }
        if !self.delete_once(leave, now) {
            return TurnPollRet::WaitUntil(shortage_end(now).min(leave.until));
        }
        self.poll_until(leave.why, leave.until, now)
    }

    /// Until when the deletion waits, if it does: bytes that have left a data connection have 1 s to reach the peer, and at most half
    /// of the time of leaving.
    fn lingers_until(&self, leave: Leave, now: Instant) -> Option<Instant>
        ensures { result ≡ lingers_until leave now self.now }
    {
        let reached = self.written?.plus(Duration::from_nanos(LINGER));
        let end = reached.min(leave.delete_by);
        if !leave.is_deleted && now < end {
            Some(end)
        } else {
            None
        }
    }

    /// Requests the deletion of the allocation, unless that was done or there is none. Returns whether there was memory.
    fn delete_once(&mut self, leave: Leave, now: Instant) -> bool
        requires now_in_range { now ≤ 2 ^ 62 }
        ensures { DeletesOnce leave now self.old self.new result }
    {
        if leave.is_deleted {
            return true;
        }
        match self.client.delete(now) {
            Ok(()) => {
                self.life.deleted();
                true
            }
            Err(DeleteError::NoAllocation) => true,
            Err(DeleteError::OutOfMemory) => false,
        }
    }

    /// Polls the client, which is polled again by this time. Events are forgotten first.
    fn poll_until(&mut self, why: Why, until: Instant, now: Instant) -> TurnPollRet
        requires now_in_range { now ≤ 2 ^ 62 }
        ensures { PollsUntil why until now self.old self.new result }
    {
        if self.forget_event() {
            return TurnPollRet::WaitUntil(now);
        }
        self.poll_to_end(why, until, now)
    }

    /// Takes an event of the client, for which nobody waits. Returns whether there was one.
    fn forget_event(&mut self) -> bool
        ensures { (result, self.new) ≡ event_forgotten self.old }
    {
        self.client.poll_event().is_some()
    }

    /// Polls the client.
    fn poll_to_end(&mut self, why: Why, until: Instant, now: Instant) -> TurnPollRet
        requires now_in_range { now ≤ 2 ^ 62 }
        ensures { PollsToEnd why until now self.old self.new result }
    {
        match self.client.poll(now) {
            Ok(answer) => self.end_with(why, until, answer),
            Err(_) => {
                self.life.end(why);
                TurnPollRet::Closed
            }
        }
    }

    /// What the client's answer means for the session: it has ended when the client has.
    fn end_with(&mut self, why: Why, until: Instant, answer: TurnPollRet) -> TurnPollRet
        ensures { (result, self.new) ≡ ended_with_answer why until answer self.old }
    {
        match answer {
            TurnPollRet::WaitUntil(time) => TurnPollRet::WaitUntil(time.min(until)),
            TurnPollRet::Closed => {
                self.life.end(why);
                TurnPollRet::Closed
            }
            _ => answer,
        }
    }
}

/// When a call that found no memory is to be repeated.
pub(crate) fn shortage_end(now: Instant) -> Instant
    ensures { result ≡ shortage_end now }
{
    now.plus(Duration::from_nanos(SHORTAGE))
}

//! What a session is asked for again, and what becomes of requests.

ghost use Rattle.std.specs.Prelude.{◌≡◌, ◌≤◌, ◌^◌, Some, IfOk, OnErr};
ghost use Rattle.turn_session_book.specs.declared.answers.Answer.TheVariants.{Refused};
ghost use Rattle.turn_session_book.specs.declared.answers.CallError.TheVariants.{OutOfMemory};
ghost use Rattle.turn_relay_tries.specs.Wanted.{counts_at};
ghost use Rattle.turn_relay.specs.Next.{OpenFails};
ghost use Rattle.turn_relay.specs.Restoring.{AskingFails, Asks, AsksUsed, Restores, answered_step, doubt_in, doubt_of, doubted};
ghost use Rattle.turn_relay.specs.Restoring.{doubted_or_settled, is_unsure_code, outcome_step, relayed_in, settle_step};
ghost use Rattle.turn_relay.specs.Restoring.{settled_due, unsure_if, up_due, up_step};

use crate::constants::DOUBT;
use crate::due::RelayDue;
use crate::events::{Addresses, RelayEvent};
use crate::relay::Relay;
use std::alloc::AllocError;
use std::net::SocketAddr;
use std::time::Duration;
use turn_client_api::TurnClientApi;
use turn_relay_course::course::Phase;
use turn_relay_course::reopen::Reopen;
use turn_relay_tries::wanted::{Doubt, Unsure, WantedKey};
use turn_session_book::answers::{Answer, CallError, Outcome};
use turn_session_book::keys::Key;
use turn_session_book::replies::ErrorReply;
use turn_stun::attribute::error_code::ErrorCode;
use turn_stun::instant::Instant;

impl<C: TurnClientApi> Relay<C> {
    /// In a relay that has an address: an answer in doubt counts, since the session goes on, the next key is requested, or the
    /// relay is up. With `None` there is nothing to do.
    ///
    /// # Errors
    ///
    /// If memory allocation for a request fails. Nothing changes then.
    pub(crate) fn restore(&mut self, now: Instant) -> Result<Option<RelayDue>, AllocError>
        requires now_in_range { now ≤ 2 ^ 62 }
        ensures due { IfOk result (λ due. Restores now self.old self.new due) }
        ensures no_memory { OnErr result (OpenFails now self.old self.new) }
    {
        if let Some((key, doubt)) = self.counting(now) {
            return Ok(Some(self.settle(key, doubt.answer.outcome(), now)));
        }
        match self.wanted.next_key() {
            Some(key) => Ok(Some(self.ask(key, now)?)),
            None => Ok(self.come_up(now)),
        }
    }

    /// The answer in doubt that counts now, and its key.
    fn counting(&self, now: Instant) -> Option<(Key, Doubt)>
        ensures { result ≡ doubt_of (counts_at now self.now.wanted) }
    {
        let WantedKey { key, doubt, .. } = self.wanted.counts(now)?;
        match doubt {
            Some(doubt) => Some((key, doubt)),
            None => None,
        }
    }

    /// The relay is up, if there is an answer for each key that the session before had.
    fn come_up(&mut self, now: Instant) -> Option<RelayDue>
        ensures { (result, self.new) ≡ up_step now self.old }
    {
        if matches!(self.plan.phase(), Phase::Restoring) && self.wanted.is_restored() {
            self.plan.restored(now);
            self.last = relayed_in(self.addresses, self.last);
            return Some(self.up_due(now));
        }
        None
    }

    /// The relay is up.
    fn up_due(&self, now: Instant) -> RelayDue
        ensures { result ≡ up_due now self.now.addresses }
    {
        match self.addresses {
            Some(addresses) => RelayDue::Event(RelayEvent::Up(addresses)),
            None => RelayDue::Wait(Some(now)),
        }
    }

    /// Requests this key of the session that is used.
    ///
    /// # Errors
    ///
    /// If memory allocation fails. Nothing changes then.
    fn ask(&mut self, key: Key, now: Instant) -> Result<RelayDue, AllocError>
        requires now_in_range { now ≤ 2 ^ 62 }
        ensures due { IfOk result (λ due. Asks key now self.old self.new due) }
        ensures no_memory { OnErr result (AskingFails key now self.old self.new) }
    {
        let answer = self.request_used(key, now);
        self.answered(key, answer, now)
    }

    /// Requests this key of the session that is used, if there is one.
    fn request_used(&mut self, key: Key, now: Instant) -> Answer
        requires now_in_range { now ≤ 2 ^ 62 }
        ensures { AsksUsed key now self.old self.new result }
    {
        match self.lives.used_place() {
            Some(place) => self.lives.at(place).touch().request(key, false, now),
            None => Answer::Refused(CallError::NoAllocation),
        }
    }

    /// What the answer of the session leads to.
    ///
    /// # Errors
    ///
    /// If it had no memory. Nothing changes then.
    fn answered(&mut self, key: Key, answer: Answer, now: Instant) -> Result<RelayDue, AllocError>
        ensures due { IfOk result (λ due. answered_step key answer now self.old ≡ Some (due, self.new)) }
        ensures no_memory { OnErr result ((answer ≡ Refused OutOfMemory) × (self.new ≡ self.old)) }
    {
        match answer {
            Answer::Granted => Ok(self.settle(key, Outcome::Granted, now)),
            Answer::Refused(CallError::OutOfMemory) => Err(AllocError),
            Answer::Refused(error) => Ok(self.settle(key, Outcome::NotMade(error), now)),
            Answer::Ticket(_) | Answer::Resting(..) | Answer::Ended(_) => {
                self.wanted.asked(key);
                Ok(RelayDue::Wait(Some(now)))
            }
        }
    }

    /// The session that is used has an outcome for this key. What has not been answered since the session ends, the next one is
    /// asked.
    pub(crate) fn take_outcome(&mut self, key: Key, outcome: Outcome, now: Instant) -> RelayDue
        ensures { (result, self.new) ≡ outcome_step key outcome now self.old }
    {
        match outcome {
            Outcome::Ended(_) => RelayDue::Wait(Some(now)),
            _ => self.take_answer(key, outcome, now),
        }
    }

    /// The server has answered. Where the relay comes back, an answer that a server gives, too, that has forgotten the allocation,
    /// counts only if the session has not ended 10 s later.
    fn take_answer(&mut self, key: Key, outcome: Outcome, now: Instant) -> RelayDue
        ensures { (result, self.new) ≡ doubted_or_settled (doubt_in self.old.settings.reopen outcome) key outcome now self.old }
    {
        match self.doubt_in(&outcome) {
            Some(answer) => self.doubt(key, answer, now),
            None => self.settle(key, outcome, now),
        }
    }

    /// This answer is in doubt.
    fn doubt(&mut self, key: Key, answer: Unsure, now: Instant) -> RelayDue
        ensures { (result, self.new) ≡ doubted key answer now self.old }
    {
        let until = now.plus(Duration::from_nanos(DOUBT));
        self.wanted.unsure(key, answer, until);
        RelayDue::Wait(Some(now))
    }

    /// The answer, if it is in doubt.
    fn doubt_in(&self, outcome: &Outcome) -> Option<Unsure>
        ensures { result ≡ doubt_in self.now.settings.reopen outcome.now }
    {
        match (self.settings.reopen, outcome) {
            (Reopen::Always, Outcome::Refused(error)) => unsure_if(*error),
            (Reopen::Always, Outcome::TimedOut(error)) => Some(Unsure::TimedOut(*error)),
            _ => None,
        }
    }

    /// This is the outcome for the key. It is reported under the ticket of the caller, or as a loss if the session before had the
    /// key, and this one has not.
    fn settle(&mut self, key: Key, outcome: Outcome, now: Instant) -> RelayDue
        ensures { (result, self.new) ≡ settle_step key outcome now self.old }
    {
        match self.wanted.settled(key) {
            Some(row) => settled_due(key, outcome, row.ticket, now),
            None => RelayDue::Wait(Some(now)),
        }
    }
}

/// The relayed address of these, or else the last one.
fn relayed_in(addresses: Option<Addresses>, last: Option<SocketAddr>) -> Option<SocketAddr>
    ensures { result ≡ relayed_in addresses last }
{
    match addresses {
        Some(addresses) => Some(addresses.relayed),
        None => last,
    }
}

/// What is reported of this outcome. Nothing is of a key that the session before had, and this one has, too.
fn settled_due(key: Key, outcome: Outcome, ticket: Option<u32>, now: Instant) -> RelayDue
    ensures { result ≡ settled_due key outcome now ticket }
{
    match (ticket, outcome) {
        (Some(ticket), _) => RelayDue::Event(RelayEvent::Outcome(ticket, key, outcome)),
        (None, Outcome::Granted) => RelayDue::Wait(Some(now)),
        (None, _) => RelayDue::Event(RelayEvent::Lost(key, outcome)),
    }
}

/// The answer, if a server refuses a request by this error, too, that has forgotten the allocation.
fn unsure_if(error: ErrorReply) -> Option<Unsure>
    ensures { result ≡ unsure_if (is_unsure_code error.code) error }
{
    if is_unsure_code(error.code) {
        Some(Unsure::Refused(error))
    } else {
        None
    }
}

/// Whether a server refuses by this code that has forgotten the allocation.
fn is_unsure_code(code: Option<u16>) -> bool
    ensures { result ≡ is_unsure_code code }
{
    match code {
        Some(code) => {
            code == ErrorCode::BAD_REQUEST
                || code == ErrorCode::UNAUTHORIZED
                || code == ErrorCode::ALLOCATION_MISMATCH
        }
        None => true,
    }
}

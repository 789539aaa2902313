//! Requests of the caller, and what it keeps.

ghost use Rattle.std.specs.Prelude.{◌≡◌};
ghost use Rattle.turn_relay.specs.Asking.{AnswersRequest, after_known, check_step, keep_step, known_answer, known_in, resting_if};

use crate::answer::RelayAnswer;
use crate::relay::Relay;
use std::alloc::AllocError;
use turn_client_api::TurnClientApi;
use turn_relay_course::course::Phase;
use turn_session_book::answers::{Answer, CallError};
use turn_session_book::keys::Key;
use turn_session_book::replies::ErrorReply;
use turn_stun::instant::Instant;

impl<C: TurnClientApi> Relay<C> {
    /// Requests this key. What was granted and let go is kept again. A request for data is not made while the key rests.
    ///
    /// With a ticket it is requested now, or when the relay is up, and again of the next session if this one ends before it has
    /// answered. An event reports its outcome under that ticket, once. Call `next` then.
    ///
    /// # Errors
    ///
    /// If memory allocation fails. Nothing is requested then.
    pub fn request(
        &mut self,
        key: Key,
        is_for_data: bool,
        now: Instant,
    ) -> Result<RelayAnswer, AllocError>
        ensures { AnswersRequest key is_for_data now self.old self.new result }
    {
        if let Phase::Over(cause) = self.plan.phase() {
            return Ok(RelayAnswer::Over(cause));
        }
        match self.known_answer(key, is_for_data, now) {
            Some(answer) => {
                self.keep_granted(key, answer);
                Ok(answer)
            }
            None => Ok(RelayAnswer::Ticket(self.wanted.request(key)?)),
        }
    }

    /// The answer that the session has without a request. A key that is wanted has none but its ticket.
    fn known_answer(&self, key: Key, is_for_data: bool, now: Instant) -> Option<RelayAnswer>
        ensures { result ≡ known_answer key is_for_data now self.now }
    {
        if self.wanted.is_wanted(key) {
            return None;
        }
        match self.open_live() {
            Some(live) => {
                let answer = live.session().grant_of(key, now);
                known_in(is_for_data, &answer)
            }
            None => None,
        }
    }

    /// What was granted and let go is kept again.
    fn keep_granted(&mut self, key: Key, answer: RelayAnswer)
        ensures { self.new ≡ after_known key answer self.old }
    {
        if matches!(answer, RelayAnswer::Granted) {
            let _kept = self.set_kept(key, true);
        }
    }

    /// Says whether this key is kept, so that it is refreshed, and requested again of each session. It is until the caller says
    /// otherwise.
    ///
    /// # Errors
    ///
    /// `NotGranted` if the session that is used was neither granted nor asked for it, for a data connection, and while the relay
    /// has no address. Nothing changes then.
    pub fn set_kept(&mut self, key: Key, is_kept: bool) -> Result<(), CallError>
        ensures { (result, self.new) ≡ keep_step key is_kept self.old }
    {
        match self.open_place() {
            Some(place) => self.lives.at(place).touch().set_kept(key, is_kept),
            None => Err(CallError::NotGranted),
        }
    }

    /// Checks whether the path to the server carries packets, as `Session::check` does. Tickets of checks are numbered by
    /// themselves, from 1 on in each session.
    ///
    /// `Refused(NoAllocation)` while the relay has no address. Nothing changes then.
    pub fn check(&mut self, now: Instant) -> Answer
        ensures { (result, self.new) ≡ check_step now self.old }
    {
        match self.open_place() {
            Some(place) => self.lives.at(place).touch().check(now),
            None => Answer::Refused(CallError::NoAllocation),
        }
    }
}

/// The answer of the session, if it is one without a request.
fn known_in(is_for_data: bool, answer: &Option<Answer>) -> Option<RelayAnswer>
    ensures { result ≡ known_in is_for_data answer.now }
{
    match answer {
        Some(Answer::Granted) => Some(RelayAnswer::Granted),
        Some(Answer::Resting(until, error)) => resting_if(is_for_data, *until, *error),
        _ => None,
    }
}

/// A request for data is not made while its key rests.
fn resting_if(is_for_data: bool, until: Instant, error: Option<ErrorReply>) -> Option<RelayAnswer>
    ensures { result ≡ resting_if is_for_data until error }
{
    if is_for_data {
        Some(RelayAnswer::Resting(until, error))
    } else {
        None
    }
}

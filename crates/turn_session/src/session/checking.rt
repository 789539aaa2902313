//! Checks of the path that the caller asks for.

ghost use Rattle.std.specs.Prelude.{◌≡◌};
ghost use Rattle.turn_session.specs.Checking.{checked_step, checks_now, told_path};

use crate::session::Session;
use turn_client_api::TurnClientApi;
use turn_session_book::answers::{Answer, CallError};
use turn_stun::instant::Instant;

impl<C: TurnClientApi> Session<C> {
    /// Checks whether the path to the server carries packets, by Binding requests at 0, 0.5 and 1.5 s, or over a stream by one. With a
    /// ticket the check has begun, and `Event::Checked` reports under it whether there was a response within 3.5 s. Callers who ask
    /// before that have the same ticket. Tickets of checks are numbered by themselves. Call `poll` then.
    ///
    /// `Refused(NoAllocation)` while the allocation is requested, and `Ended` of a session that leaves or has ended. Nothing changes
    /// then.
    pub fn check(&mut self, now: Instant) -> Answer
        ensures { (result, self.new) ≡ checked_step now self.old }
    {
        if self.noted.is_open() {
            return self.check_now(now);
        }
        match self.noted.cause() {
            Some(why) => Answer::Ended(why),
            None => Answer::Refused(CallError::NoAllocation),
        }
    }

    /// Begins a check of an open session, unless one is under way.
    fn check_now(&mut self, now: Instant) -> Answer
        ensures { (result, self.new) ≡ checks_now now self.old }
    {
        let ticket = self.next_check;
        let given = self.watch.check(ticket, now);
        if given == ticket {
            self.next_check = ticket.wrapping_add(1);
        }
        Answer::Ticket(given)
    }

    /// Tells the path when something was received last.
    pub(crate) fn tell_path(&mut self)
        ensures kept { self.new.noted ≡ self.old.noted }
        ensures told { self.new ≡ told_path self.old }
    {
        if let Some(at) = self.received {
            self.received = None;
            self.watch.path.received(at);
        }
    }
}

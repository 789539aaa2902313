//! What a session reports to its caller.

ghost use Rattle.std.specs.Prelude.{◌≡◌};
ghost use Rattle.turn_session.specs.Reporting.{checked_event, path_event, reported_step, unsettled_check};

use crate::session::Session;
use turn_client_api::TurnClientApi;
use turn_session_book::events::Event;
use turn_session_life::watch::Checked;

impl<C: TurnClientApi> Session<C> {
    /// The oldest event that the caller has not polled, or none: results of checks and moves first. Call it after each `poll` until it
    /// returns none. When the session leaves or has ended, a check that is under way and each request that has no outcome have theirs,
    /// and `Event::Over` is the last event. Allocates no memory.
    pub fn poll_event(&mut self) -> Option<Event>
        ensures { (result, self.new) ≡ reported_step self.old }
    {
        if let Some(event) = self.path_event() {
            return Some(event);
        }
        self.noted.poll_event()
    }

    /// The result of a check, or a move.
    fn path_event(&mut self) -> Option<Event>
        ensures { (result, self.new) ≡ path_event self.old }
    {
        if let Some(checked) = self.watch.take_result() {
            return Some(checked_event(checked));
        }
        if let Some(checked) = self.unsettled_check() {
            return Some(checked_event(checked));
        }
        match self.watch.take_move() {
            Some(address) => Some(Event::Moved(address)),
            None => None,
        }
    }

    /// The check that is under way in a session that leaves or has ended: it has no response.
    fn unsettled_check(&mut self) -> Option<Checked>
        ensures { (result, self.new) ≡ unsettled_check self.old }
    {
        match self.noted.cause() {
            Some(_why) => self.watch.give_up_check(),
            None => None,
        }
    }
}

/// The event that reports the result of a check.
fn checked_event(checked: Checked) -> Event
    ensures { result ≡ checked_event checked }
{
    Event::Checked(checked.ticket, checked.is_answered, checked.mapped)
}

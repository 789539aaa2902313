//! What a session reports to its caller.

ghost use Rattle.std.specs.Prelude.{◌≡◌};
ghost use Rattle.turn_session_client.specs.Reporting.{reported_end, reported_outcome, reported_step};

use crate::noted::NotedClient;
use turn_client_api::TurnClientApi;
use turn_session_book::answers::Outcome;
use turn_session_book::causes::Why;
use turn_session_book::events::Event;

impl<C: TurnClientApi> NotedClient<C> {
    /// The oldest event that the caller has not polled, or none. Call it after each `poll` until it returns none. When the session
    /// leaves or has ended, each request that has no outcome has that one, and `Event::Over` is the last event. Allocates no memory.
    pub fn poll_event(&mut self) -> Option<Event>
        ensures { (result, self.new) ≡ reported_step self.old }
    {
        if self.life.report_heard() {
            return Some(Event::Heard);
        }
        if let Some(event) = self.notes.book.next_event() {
            return Some(event);
        }
        let why = self.life.cause()?;
        self.next_of_end(why)
    }

    /// The next event of a session that leaves or has ended for this cause.
    fn next_of_end(&mut self, why: Why) -> Option<Event>
        ensures { (result, self.new) ≡ reported_end why self.old }
    {
        if let Some(cause) = self.life.report_ending() {
            return Some(Event::Ending(cause));
        }
        if let Some(event) = self.next_outcome(why) {
            return Some(event);
        }
        match self.life.report_over() {
            Some(cause) => Some(Event::Over(cause)),
            None => None,
        }
    }

    /// The outcome of the oldest request that has none, since the session ends for this cause.
    fn next_outcome(&mut self, why: Why) -> Option<Event>
        ensures { (result, self.new) ≡ reported_outcome why self.old }
    {
        match self.notes.book.settle_first() {
            Some(request) => Some(Event::Outcome(request.ticket, request.key, Outcome::Ended(why))),
            None => None,
        }
    }
}

//! The events of the client are noted.

ghost use Rattle.std.specs.Prelude.{◌≡◌, None, OnErr, OnOk};
ghost use Rattle.turn_session_client.specs.Drain.{DrainsSome, drained, next_event};
ghost use Rattle.turn_session_client.specs.Notes.{noted};

use crate::noted::NotedClient;
use std::alloc::AllocError;
use turn_client_api::{TurnClientApi, TurnEvent};
use turn_stun::instant::Instant;

impl<C: TurnClientApi> NotedClient<C> {
    /// Notes all events of the client, so that none is left between two calls.
    ///
    /// # Errors
    ///
    /// If memory allocation fails. Nothing is lost: what is left is noted by the next call.
    pub(crate) fn drain(&mut self, now: Instant) -> Result<(), AllocError>
        ensures ok { OnOk result (self.new ≡ drained now self.old) }
        ensures some { DrainsSome now self.old self.new }
    {
        while let Some(event) = self.next_event() {
            self.note(event, now)?;
        }
        Ok(())
    }

    /// The event that is noted next, which stays here until it is.
    fn next_event(&mut self) -> Option<TurnEvent>
        ensures { (result, self.new) ≡ next_event self.old }
    {
        if let Some(event) = self.taken {
            return Some(event);
        }
        self.taken = self.client.poll_event();
        self.taken
    }

    /// Notes the event that is noted next.
    fn note(&mut self, event: TurnEvent, now: Instant) -> Result<(), AllocError>
        ensures ok { OnOk result (self.new ≡ record self.old { notes = noted event now self.old.notes; taken = None }) }
        ensures err { OnErr result (self.new ≡ self.old) }
    {
        self.notes.note(event, now)?;
        self.taken = None;
        Ok(())
    }
}

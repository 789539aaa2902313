//! Requests that are made of the client.

ghost use Rattle.std.specs.Prelude.{◌≡◌, ◌≤◌, ◌^◌, IfOk, OnErr, OnOk};
ghost use Rattle.turn_session_client.specs.Polling.{NextWaitsOn, RequestWaits, WaitsOn, next_made, request_made, waiting_made};
ghost use Rattle.turn_session_client.specs.Waiting.{next_to_make};

use crate::constants::MAX_UNSENT;
use crate::keeping::let_go;
use crate::making::{Made, make};
use crate::noted::NotedClient;
use std::alloc::AllocError;
use turn_client_api::TurnClientApi;
use turn_session_book::answers::Outcome;
use turn_session_book::open_requests::{OpenRequest, Progress};
use turn_stun::instant::Instant;
use turn_types::TransportType;

impl<C: TurnClientApi> NotedClient<C> {
    /// Makes the request that is made next, if fewer than eight of the client are queued. Returns whether there is one.
    ///
    /// # Errors
    ///
    /// If memory allocation fails. It waits on then.
    pub(crate) fn make_next(&mut self, now: Instant) -> Result<bool, AllocError>
        requires now_in_range { now ≤ 2 ^ 62 }
        ensures ok { IfOk result (λ is_made. (is_made, self.new) ≡ next_made now self.old) }
        ensures err { OnErr result (NextWaitsOn now self.old self.new) }
    {
        let Some(relays) = self.notes.relays else {
            return Ok(false);
        };
        let Some(request) = self.next_to_make() else {
            return Ok(false);
        };
        self.make_request(request, relays, now)?;
        Ok(true)
    }

    /// The request that is made next, if one can be: the first that waits, so that one which can go on goes first, or else the first
    /// whose permission is to be requested.
    fn next_to_make(&self) -> Option<OpenRequest>
        ensures { result ≡ next_to_make self.now }
    {
        if self.client.queued_requests() >= MAX_UNSENT {
            return None;
        }
        match self.notes.book.first_waiting() {
            Some(request) => Some(request),
            None => self.notes.book.first_unpermitted(),
        }
    }

    /// Makes this request, or that for the permission which it needs.
    ///
    /// # Errors
    ///
    /// If memory allocation fails. It waits on then.
    fn make_request(
        &mut self,
        request: OpenRequest,
        relays: TransportType,
        now: Instant,
    ) -> Result<(), AllocError>
        requires now_in_range { now ≤ 2 ^ 62 }
        ensures ok { OnOk result (self.new ≡ request_made request relays now self.old) }
        ensures err { OnErr result (RequestWaits request relays now self.old self.new) }
    {
        match request.progress {
            Progress::Unpermitted => self.make_permission(request, relays, now),
            _ => self.make_waiting(request, relays, now),
        }
    }

    /// Makes this request, which waits. The client learns if it was let go meanwhile.
    ///
    /// # Errors
    ///
    /// If memory allocation fails. It waits on then.
    fn make_waiting(
        &mut self,
        request: OpenRequest,
        relays: TransportType,
        now: Instant,
    ) -> Result<(), AllocError>
        requires now_in_range { now ≤ 2 ^ 62 }
        ensures ok { OnOk result (self.new ≡ waiting_made request relays now self.old) }
        ensures err { OnErr result (WaitsOn request.key relays now self.old self.new) }
    {
        let key = request.key;
        match make(&mut self.client, relays, key, now) {
            Made::Queued => {
                let_go(&mut self.client, relays, key, request.is_kept);
                self.notes.book.advance(key, Progress::Queued);
                Ok(())
            }
            Made::Refused(error) => self.notes.book.settled(key, Outcome::NotMade(error)),
            Made::NoMemory => Err(AllocError),
        }
    }
}

//! Requests whose peer's IP address is not permitted: that permission is requested first.

ghost use Rattle.std.specs.Prelude.{◌≡◌, ◌≤◌, ◌^◌, IfOk, OnErr, OnOk};
ghost use Rattle.std.specs.List.{position};
ghost use Rattle.turn_session_client.specs.Permitting.{DeniedWaits, PermissionWaits, PermittedWaits, denied_noted, first_permitted};
ghost use Rattle.turn_session_client.specs.Permitting.{is_permitted, permission_made, permission_taken, permitted_noted};

use crate::keeping::let_go;
use crate::making::{Made, make};
use crate::noted::NotedClient;
use std::alloc::AllocError;
use turn_client_api::TurnClientApi;
use turn_session_book::answers::Outcome;
use turn_session_book::keys::{Key, permission_for};
use turn_session_book::open_requests::{OpenRequest, Progress};
use turn_stun::instant::Instant;
use turn_types::TransportType;

impl<C: TurnClientApi> NotedClient<C> {
    /// Notes that the permission for a request was refused, which is its outcome, or goes on with one whose permission is granted.
    /// Returns whether something was done.
    ///
    /// # Errors
    ///
    /// If memory allocation fails. The request waits on then.
    pub(crate) fn note_denied(&mut self, now: Instant) -> Result<bool, AllocError>
        ensures ok { IfOk result (λ is_noted. (is_noted, self.new) ≡ denied_noted now self.old) }
        ensures err { OnErr result (DeniedWaits now self.old self.new) }
    {
        match self.notes.book.first_denied() {
            Some(request) => {
                self.notes.book.denied(request, now)?;
                Ok(true)
            }
            None => self.note_permitted(),
        }
    }

    /// Goes on with the first request that needs a permission which is granted. Returns whether there is one.
    ///
    /// # Errors
    ///
    /// If memory allocation fails. The request waits on then.
    fn note_permitted(&mut self) -> Result<bool, AllocError>
        ensures ok { IfOk result (λ is_noted. (is_noted, self.new) ≡ permitted_noted self.old) }
        ensures err { OnErr result (PermittedWaits self.old self.new) }
    {
        match self.first_permitted() {
            Some(request) => {
                self.take_permission(request.key, permission_for(request.key))?;
                Ok(true)
            }
            None => Ok(false),
        }
    }

    /// The first request that needs a permission which is granted.
    fn first_permitted(&self) -> Option<OpenRequest>
        ensures { result ≡ first_permitted self.now }
    {
        let requests = self.notes.book.requests();
        match self.permitted_place(requests) {
            Some(place) => Some(requests[place]),
            None => None,
        }
    }

    /// The place of the first of these requests that needs a permission which is granted.
    fn permitted_place(&self, requests: &[OpenRequest]) -> Option<usize>
        ensures { result ≡ position (is_permitted self.now) requests.now }
    {
        requests
            .iter()
            .position(|request| self.is_permitted(request))
    }

    /// Whether the request needs a permission, which is granted.
    fn is_permitted(&self, request: &OpenRequest) -> bool
        ensures { result ≡ is_permitted self.now request.now }
    {
        matches!(request.progress, Progress::Unpermitted)
            && self.is_granted(permission_for(request.key))
    }

    /// The permission for this key is granted: a channel has its outcome, and a data connection waits to be requested. A question
    /// is the caller's first.
    ///
    /// # Errors
    ///
    /// If memory allocation fails. Nothing changes then.
    fn take_permission(&mut self, key: Key, permission: Key) -> Result<(), AllocError>
        ensures ok { OnOk result (self.new ≡ permission_taken key permission self.old) }
        ensures err { OnErr result (self.new ≡ self.old) }
    {
        if self.notes.is_asked(permission) {
            return self.notes.adopt(permission);
        }
        match key {
            Key::Connect(_) => {
                self.notes.book.advance(key, Progress::Waiting);
                Ok(())
            }
            _ => self.notes.book.settled(key, Outcome::Granted),
        }
    }

    /// Requests the permission for this request of the client, which learns if it was let go meanwhile.
    ///
    /// # Errors
    ///
    /// If memory allocation fails. The request waits on then.
    pub(crate) fn make_permission(
        &mut self,
        request: OpenRequest,
        relays: TransportType,
        now: Instant,
    ) -> Result<(), AllocError>
        requires now_in_range { now ≤ 2 ^ 62 }
        ensures ok { OnOk result (self.new ≡ permission_made request relays now self.old) }
        ensures err { OnErr result (PermissionWaits request relays now self.old self.new) }
    {
        let permission = permission_for(request.key);
        match make(&mut self.client, relays, permission, now) {
            Made::Queued => {
                let_go(
                    &mut self.client,
                    relays,
                    permission,
                    request.keeps_permission,
                );
                self.notes.book.advance(request.key, Progress::Permitting);
                Ok(())
            }
            Made::Refused(error) => self
                .notes
                .book
                .settled(request.key, Outcome::NotMade(error)),
            Made::NoMemory => Err(AllocError),
        }
    }
}

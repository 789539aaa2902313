//! What happens without an event of the client: with an allocation, of which one of two may expire, or with a data connection.

ghost use Rattle.std.specs.Prelude.{◌≡◌, IfOk, OnErr, OnOk};
ghost use Rattle.turn_session_client.specs.Expiring.{ClosedWaits, ExpiryWaits, closed_noted, closed_settled, expired_in};
ghost use Rattle.turn_session_client.specs.Expiring.{expiry_noted, first_expired, has_allocation};

use crate::noted::NotedClient;
use std::alloc::AllocError;
use turn_client_api::TurnClientApi;
use turn_session_book::answers::Outcome;
use turn_session_book::keys::{Key, family_of};
use turn_session_book::open_requests::OpenRequest;
use turn_stun::instant::Instant;
use turn_types::AddressFamily;

impl<C: TurnClientApi> NotedClient<C> {
    /// Notes that one grant or request has come so far, of which the client reports nothing: it has ended with its allocation,
    /// its data connection was closed, or its permission was refused or granted. Returns whether there was one.
    ///
    /// # Errors
    ///
    /// If memory allocation fails. It is noted by the next call.
    pub(crate) fn note_expiry(&mut self, now: Instant) -> Result<bool, AllocError>
        ensures ok { IfOk result (λ is_noted. (is_noted, self.new) ≡ expiry_noted now self.old) }
        ensures err { OnErr result (ExpiryWaits now self.old self.new) }
    {
        match self.first_expired() {
            Some(key) => {
                self.notes.book.failed(key, None, now)?;
                Ok(true)
            }
            None => self.note_closed(now),
        }
    }

    /// Notes that the data connection of a request was closed before the server had bound it, or what became of the permission that
    /// one needs. Returns whether there was one.
    ///
    /// # Errors
    ///
    /// If memory allocation fails. It is noted by the next call.
    fn note_closed(&mut self, now: Instant) -> Result<bool, AllocError>
        ensures ok { IfOk result (λ is_noted. (is_noted, self.new) ≡ closed_noted now self.old) }
        ensures err { OnErr result (ClosedWaits now self.old self.new) }
    {
        match self.notes.book.first_closed() {
            Some(request) => {
                self.settle_closed(request)?;
                Ok(true)
            }
            None => self.note_denied(now),
        }
    }

    /// The data connection of this request was closed: it is made once more, and the second time that is its outcome.
    ///
    /// # Errors
    ///
    /// If memory allocation fails. Nothing changes then.
    fn settle_closed(&mut self, request: OpenRequest) -> Result<(), AllocError>
        ensures ok { OnOk result (self.new ≡ closed_settled request self.old) }
        ensures err { OnErr result (self.new ≡ self.old) }
    {
        if request.is_repeated {
            return self.notes.book.settled(request.key, Outcome::NotBound);
        }
        self.notes.book.repeat(request.key);
        Ok(())
    }

    /// The first grant or request whose allocation is no longer in use.
    pub(crate) fn first_expired(&self) -> Option<Key>
        ensures { result ≡ first_expired self.now }
    {
        match self.expired_in(AddressFamily::IPV4) {
            Some(key) => Some(key),
            None => self.expired_in(AddressFamily::IPV6),
        }
    }

    /// The first one in the allocation of this family, if that is no longer in use.
    fn expired_in(&self, family: AddressFamily) -> Option<Key>
        ensures { result ≡ expired_in family self.now }
    {
        if self.has_allocation(family) {
            return None;
        }
        self.notes.book.first_in(family)
    }

    /// Whether the client has an allocation of this family in use.
    fn has_allocation(&self, family: AddressFamily) -> bool
        ensures { result ≡ has_allocation family self.now.client }
    {
        self.client
            .relayed_addresses()
            .any(|(_transport, relayed)| family_of(relayed.ip()) == family)
    }
}

//! The rows of a book.

ghost use Rattle.std.specs.Prelude.{◌≡◌, IfOk, IsOk, IsSome, OnErr, OnOk, drop, slice_get};
ghost use Rattle.turn_session_book.specs.Book.{after_mark, first_in, is_kept_after, is_requested};
ghost use Rattle.turn_session_book.specs.Held.{is_held, is_kept_held};
ghost use Rattle.turn_session_book.specs.OpenRequests.{after_request, first_closed, first_denied};
ghost use Rattle.turn_session_book.specs.OpenRequests.{first_unpermitted, first_waiting, keeps, request_for, ticket_for};
ghost use Rattle.turn_session_book.specs.OpenRequests.{with_closed, with_hint, with_opened, with_progress, with_repeated};
ghost use Rattle.turn_session_book.specs.OpenRequests.{without_last, without_oldest};
ghost use Rattle.turn_session_book.specs.Rests.{rest_in_force};

use crate::book::Book;
use crate::events::Event;
use crate::held::HeldGrant;
use crate::keys::Key;
use crate::open_requests::{OpenRequest, Progress};
use crate::replies::ErrorReply;
use crate::rests::Rest;
use std::alloc::AllocError;
use std::net::SocketAddr;
use turn_stun::instant::Instant;
use turn_types::AddressFamily;

impl Book {
    /// The requests that have no outcome yet, in the order in which the caller made them.
    pub fn requests(&self) -> &[OpenRequest]
        ensures { result.now ≡ self.now.requests }
    {
        self.requests.as_slice()
    }

    /// The request for this key that has no outcome yet.
    pub fn request_of(&self, key: Key) -> Option<OpenRequest>
        ensures { result ≡ request_for key self.now.requests }
    {
        self.requests.request_of(key)
    }

    /// Notes a request with this ticket behind the others, unless one for its key is under way. Returns the ticket under which its
    /// outcome is reported: that of the request under way, if there is one.
    ///
    /// There is room for what the server may say to it from now on, so that this can be noted as it comes in.
    ///
    /// # Errors
    ///
    /// If memory allocation fails. Nothing changes then. No memory is needed if a request for the key is under way.
    pub fn add(&mut self, ticket: u32, key: Key, progress: Progress) -> Result<u32, AllocError>
        ensures ticket { IfOk result (λ given. given ≡ ticket_for ticket key self.old.requests) }
        ensures ok { OnOk result (self.new ≡ record self.old { requests = after_request ticket key progress self.old.requests }) }
        ensures err { OnErr result (self.new ≡ self.old) }
        ensures free { IsSome (request_for key self.old.requests) → IsOk result }
    {
        if self.requests.request_of(key).is_none() {
            self.make_room()?;
        }
        self.requests.add(ticket, key, progress)
    }

    /// Makes room for what becomes of all requests and one more: an outcome and a rest of each, a channel with its permission, and one
    /// event more, for the end of a grant that was requested again.
    ///
    /// # Errors
    ///
    /// If memory allocation fails.
    fn make_room(&mut self) -> Result<(), AllocError>
        ensures { self.new ≡ self.old }
    {
        let count = self.requests.as_slice().len().saturating_add(1);
        self.events.reserve(count.saturating_add(1))?;
        self.held.make_room(count.saturating_mul(2))?;
        self.rests.make_room(count)
    }

    /// Forgets the last request: it was not made.
    pub fn withdraw(&mut self)
        ensures { self.new ≡ record self.old { requests = without_last self.old.requests } }
    {
        self.requests.withdraw();
    }

    /// The first request that waits.
    pub fn first_waiting(&self) -> Option<OpenRequest>
        ensures { result ≡ first_waiting self.now.requests }
    {
        self.requests.first_waiting()
    }

    /// What is in an allocation of this family: the first grant, or else the first request that does not wait.
    pub fn first_in(&self, family: AddressFamily) -> Option<Key>
        ensures { result ≡ first_in family self.now }
    {
        if let Some(grant) = self.held.first_held(family) {
            return Some(grant.key);
        }
        match self.requests.first_made(family) {
            Some(request) => Some(request.key),
            None => None,
        }
    }

    /// The request for this key has come so far.
    pub fn advance(&mut self, key: Key, progress: Progress)
        ensures { self.new ≡ record self.old { requests = with_progress key progress self.old.requests } }
    {
        self.requests.advance(key, progress);
    }

    /// The client ignored this error response to the request for this key.
    pub fn hint(&mut self, key: Key, error: ErrorReply)
        ensures { self.new ≡ record self.old { requests = with_hint key error self.old.requests } }
    {
        self.requests.hint(key, error);
    }

    /// Removes the oldest request, which has its outcome: the caller of this call reports it.
    pub fn settle_first(&mut self) -> Option<OpenRequest>
        ensures request { result ≡ slice_get self.old.requests 0 }
        ensures after { self.new ≡ record self.old { requests = without_oldest self.old.requests } }
    {
        self.requests.settle_first()
    }

    /// What was granted and has not ended, in the order in which it was granted.
    pub fn grants(&self) -> &[HeldGrant]
        ensures { result.now ≡ self.now.held }
    {
        self.held.as_slice()
    }

    /// Whether this key was granted, and the caller keeps it.
    pub fn is_kept(&self, key: Key) -> bool
        ensures { result ≡ is_kept_held key self.now.held }
    {
        self.held.is_kept(key)
    }

    /// Whether this key was granted.
    pub fn is_held(&self, key: Key) -> bool
        ensures { result ≡ is_held key self.now.held }
    {
        self.held.is_held(key)
    }

    /// The caller keeps this key, or lets it go, whether it is granted or requested.
    pub fn mark(&mut self, key: Key, is_kept: bool)
        ensures { self.new ≡ after_mark key is_kept self.old }
    {
        self.held.mark(key, is_kept);
        self.requests.keep(key, is_kept);
        self.requests.keep_permission(key, is_kept);
    }

    /// The data connection that the client has requested for this key is open from this local address. If the client was not
    /// asked for it, the peer has requested it, and nothing changes.
    pub fn open(&mut self, key: Key, local: SocketAddr)
        ensures { self.new ≡ record self.old { requests = with_opened key local self.old.requests } }
    {
        self.requests.open(key, local);
    }

    /// The data connection from this local address is closed: so is that of the first request for which it was opened.
    pub fn close(&mut self, local: SocketAddr)
        ensures { self.new ≡ record self.old { requests = with_closed local self.old.requests } }
    {
        self.requests.close(local);
    }

    /// The first request whose data connection is closed.
    pub fn first_closed(&self) -> Option<OpenRequest>
        ensures { result ≡ first_closed self.now.requests }
    {
        self.requests.first_closed()
    }

    /// The request for this key is made once more.
    pub fn repeat(&mut self, key: Key)
        ensures { self.new ≡ record self.old { requests = with_repeated key self.old.requests } }
    {
        self.requests.repeat(key);
    }

    /// The first request whose permission is to be requested, and is not requested for another.
    pub fn first_unpermitted(&self) -> Option<OpenRequest>
        ensures { result ≡ first_unpermitted self.now.requests }
    {
        self.requests.first_unpermitted()
    }

    /// The first request whose permission was refused.
    pub fn first_denied(&self) -> Option<OpenRequest>
        ensures { result ≡ first_denied self.now.requests }
    {
        self.requests.first_denied()
    }

    /// Whether this key was requested for itself, or for a request that awaits it.
    pub fn is_requested(&self, key: Key) -> bool
        ensures { result ≡ is_requested key self.now }
    {
        self.requests.request_of(key).is_some() || self.requests.first_awaiting(key).is_some()
    }

    /// Whether this key is kept once it is granted.
    pub(crate) fn is_kept_after(&self, key: Key) -> bool
        ensures { result ≡ is_kept_after key self.now }
    {
        keeps(
            self.requests.request_of(key),
            self.requests.first_needing(key),
        )
    }

    /// The rest of this key, if it has not ended.
    pub fn rest_of(&self, key: Key, now: Instant) -> Option<Rest>
        ensures { result ≡ rest_in_force key now self.now.rests }
    {
        self.rests.rest_of(key, now)
    }

    /// The oldest event that the caller has not polled.
    pub fn next_event(&mut self) -> Option<Event>
        ensures event { result ≡ slice_get self.old.events 0 }
        ensures after { self.new ≡ record self.old { events = drop 1 self.old.events } }
    {
        self.events.pop_front()
    }
}

/// Whether a grant is kept that was requested by this request, or else for one that needs it.
fn keeps(request: Option<OpenRequest>, needing: Option<OpenRequest>) -> bool
    ensures { result ≡ keeps request needing }
{
    match (request, needing) {
        (Some(request), _) => request.is_kept,
        (None, Some(request)) => request.keeps_permission,
        (None, None) => true,
    }
}

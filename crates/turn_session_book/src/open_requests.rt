//! The requests of the caller that have no outcome yet.

ghost use Rattle.std.specs.Prelude.{◌≡◌, [], IfOk, IsOk, IsSome, OnErr, OnOk, slice_get};
ghost use Rattle.std.specs.List.{position};
ghost use Rattle.turn_session_book.specs.OpenRequests.{after_request, is_for, request_for, ticket_for, without_last};
ghost use Rattle.turn_session_book.specs.OpenRequests.{without_oldest, without_request};

mod advancing;
mod finding;

use crate::keys::Key;
use crate::replies::ErrorReply;
use std::alloc::{AllocError, Global};
use std::marker::Model;
use std::net::SocketAddr;
use turn_stun::instant::Instant;

/// How far a request has come.
#[derive(Clone, Copy, Debug, PartialEq, Eq)]
pub enum Progress {
    /// It waits in the session, since eight requests of the client are queued.
    Waiting,
    /// The client has queued it.
    Queued,
    /// The client has sent it. Without an outcome by this time it has timed out.
    Sent(Instant),
    /// The data connection for it is open from this local address, and the server has not bound it yet (RFC 6062, section 4.3).
    Opened(SocketAddr),
    /// That data connection is closed, and nothing of the client will say so.
    Closed,
    /// The IP address of its peer is not permitted: that permission is to be requested first.
    Unpermitted,
    /// That permission is requested.
    Permitting,
    /// That permission was refused, by the error of the request, or without one its request was not answered.
    Denied,
}

/// A request of the caller that has no outcome yet.
#[derive(Clone, Copy, Debug, PartialEq, Eq)]
pub struct OpenRequest {
    /// The number by which its outcome is reported.
    pub ticket: u32,
    /// What is requested.
    pub key: Key,
    /// How far it has come.
    pub progress: Progress,
    /// Whether the caller keeps what it requests, once that is granted.
    pub is_kept: bool,
    /// Whether the caller keeps the permission that is requested for it.
    pub keeps_permission: bool,
    /// Whether it is made for the second time, since the data connection of the first one was closed before the server had bound
    /// it.
    pub is_repeated: bool,
    /// The last error response to it that the client ignored, or that by which its permission was refused.
    pub error: Option<ErrorReply>,
}

/// The requests that have no outcome yet, in the order in which the caller made them, and one of each key at a time. Contracts
/// describe them by a list.
#[derive(Debug, Drop)]
pub struct OpenRequests {
    requests: Vec<OpenRequest>,
}

impl Model for OpenRequests {
    ghost use Rattle.std.specs.Prelude.{List};
    ghost use Rattle.turn_session_book.specs.Once.{AreRequests};
    ghost use Rattle.turn_session_book.specs.declared.open_requests.OpenRequest.{OpenRequest};

    ghost Value = { List OpenRequest };

    ghost view = { λ r. r.requests.items };

    ghost invariant = { λ r. AreRequests r.requests.items };
}

impl OpenRequests {
    /// No requests.
    pub fn new(alloc: Global) -> OpenRequests
        ensures { result ≡ [] }
    {
        OpenRequests {
            requests: Vec::new(alloc),
        }
    }

    /// The requests, in the order in which the caller made them.
    pub fn as_slice(&self) -> &[OpenRequest]
        ensures { result.now ≡ self.now }
    {
        &self.requests
    }

    /// The request for this key.
    pub fn request_of(&self, key: Key) -> Option<OpenRequest>
        ensures { result ≡ request_for key self.now }
    {
        match self.place_of(key) {
            Some(place) => Some(self.requests[place]),
            None => None,
        }
    }

    /// Notes a request with this ticket behind the others, unless one for its key is under way. Returns the ticket under which its
    /// outcome is reported: that of the request under way, if there is one.
    ///
    /// # Errors
    ///
    /// If memory allocation fails. Nothing changes then. No memory is needed if a request for the key is under way.
    pub fn add(&mut self, ticket: u32, key: Key, progress: Progress) -> Result<u32, AllocError>
        ensures ticket { IfOk result (λ given. given ≡ ticket_for ticket key self.old) }
        ensures ok { OnOk result (self.new ≡ after_request ticket key progress self.old) }
        ensures err { OnErr result (self.new ≡ self.old) }
        ensures free { IsSome (request_for key self.old) → IsOk result }
    {
        if let Some(request) = self.request_of(key) {
            return Ok(request.ticket);
        }
        self.requests.reserve(1)?;
        self.requests.push_reserved(OpenRequest {
            ticket,
            key,
            progress,
            is_kept: true,
            keeps_permission: true,
            is_repeated: false,
            error: None,
        });
        Ok(ticket)
    }

    /// Forgets the last one: it was not made.
    pub fn withdraw(&mut self)
        ensures { self.new ≡ without_last self.old }
    {
        let _last = self.requests.pop();
    }

    /// Removes the request for this key, which has its outcome.
    pub fn settle(&mut self, key: Key) -> Option<OpenRequest>
        ensures request { result ≡ request_for key self.old }
        ensures after { self.new ≡ without_request key self.old }
    {
        match self.place_of(key) {
            Some(place) => Some(self.requests.remove(place)),
            None => None,
        }
    }

    /// Removes the oldest request, which has its outcome.
    pub fn settle_first(&mut self) -> Option<OpenRequest>
        ensures request { result ≡ slice_get self.old 0 }
        ensures after { self.new ≡ without_oldest self.old }
    {
        if self.requests.is_empty() {
            return None;
        }
        let oldest = self.requests[0];
        let _settled = self.settle(oldest.key);
        Some(oldest)
    }

    /// The place of the request for this key.
    fn place_of(&self, key: Key) -> Option<usize>
        ensures { result ≡ position (is_for key) self.now }
    {
        self.requests.iter().position(|request| request.key == key)
    }
}

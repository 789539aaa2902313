//! How far the requests of the caller come.

ghost use Rattle.std.specs.Prelude.{◌≡◌};
ghost use Rattle.std.specs.List.{position};
ghost use Rattle.turn_session_book.specs.OpenRequests.{denied_with, depends_on, hinted, is_opened_at, with_closed, with_denied};
ghost use Rattle.turn_session_book.specs.OpenRequests.{with_hint, with_keeping};
ghost use Rattle.turn_session_book.specs.OpenRequests.{with_opened, with_permission_kept, with_progress, with_repeated};
ghost use Rattle.turn_session_book.specs.OpenRequests.{with_resumed};

use crate::keys::{Key, permission_for};
use crate::open_requests::{OpenRequest, OpenRequests, Progress};
use crate::replies::ErrorReply;
use std::net::SocketAddr;

impl OpenRequests {
    /// The request for this key has come so far.
    pub fn advance(&mut self, key: Key, progress: Progress)
        ensures { self.new ≡ with_progress key progress self.old }
    {
        if let Some(place) = self.place_of(key) {
            let request = self.requests[place];
            self.requests[place] = OpenRequest {
                progress,
                ..request
            };
        }
    }

    /// The caller keeps what the request for this key is for, or lets it go.
    pub fn keep(&mut self, key: Key, is_kept: bool)
        ensures { self.new ≡ with_keeping key is_kept self.old }
    {
        if let Some(place) = self.place_of(key) {
            let request = self.requests[place];
            self.requests[place] = OpenRequest { is_kept, ..request };
        }
    }

    /// The caller keeps this permission, which is requested for another key, or lets it go.
    pub fn keep_permission(&mut self, permission: Key, is_kept: bool)
        ensures { self.new ≡ with_permission_kept permission is_kept self.old }
    {
        if let Some(place) = self.needing_place(permission) {
            let request = self.requests[place];
            self.requests[place] = OpenRequest {
                keeps_permission: is_kept,
                ..request
            };
        }
    }

    /// The data connection that the client has requested for this key is open from this local address.
    pub fn open(&mut self, key: Key, local: SocketAddr)
        ensures { self.new ≡ with_opened key local self.old }
    {
        if self.is_clients(key) {
            self.advance(key, Progress::Opened(local));
        }
    }

    /// The data connection from this local address is closed: so is that of the first request for which it was opened.
    pub fn close(&mut self, local: SocketAddr)
        ensures { self.new ≡ with_closed local self.old }
    {
        if let Some(place) = self.opened_place(local) {
            let request = self.requests[place];
            self.requests[place] = OpenRequest {
                progress: Progress::Closed,
                ..request
            };
        }
    }

    /// The request for this key is made once more.
    pub fn repeat(&mut self, key: Key)
        ensures { self.new ≡ with_repeated key self.old }
    {
        if let Some(place) = self.place_of(key) {
            let request = self.requests[place];
            self.requests[place] = OpenRequest {
                progress: Progress::Unpermitted,
                is_repeated: true,
                ..request
            };
        }
    }

    /// This permission is granted: the request for which it was requested goes on.
    pub fn resume(&mut self, permission: Key)
        ensures { self.new ≡ with_resumed permission self.old }
    {
        if let Some(place) = self.permitting_place(permission) {
            let request = self.requests[place];
            self.requests[place] = OpenRequest {
                progress: Progress::Unpermitted,
                ..request
            };
        }
    }

    /// This permission was refused, by this error, or with `None` its request was not answered in time: so it is for each request
    /// that depends on it.
    pub fn deny(&mut self, permission: Key, error: Option<ErrorReply>)
        ensures { self.new ≡ with_denied permission error self.old }
    {
        deny_all(&mut self.requests, permission, error);
    }

    /// The client ignored this error response to the request for this key. If its permission was refused, nothing changes.
    pub fn hint(&mut self, key: Key, error: ErrorReply)
        ensures { self.new ≡ with_hint key error self.old }
    {
        if let Some(place) = self.place_of(key) {
            self.requests[place] = hinted(self.requests[place], error);
        }
    }

    /// The place of the first request whose data connection is open from this local address, and not bound.
    fn opened_place(&self, local: SocketAddr) -> Option<usize>
        ensures { result ≡ position (is_opened_at local) self.now }
    {
        self.requests
            .iter()
            .position(|request| is_opened_at(local, request))
    }
}

/// Each of these requests that depends on this permission is denied, by this error.
fn deny_all(requests: &mut Vec<OpenRequest>, permission: Key, error: Option<ErrorReply>)
    ensures { requests.new.items ≡ with_denied permission error requests.old.items }
{
    let all = requests.as_mut_slice();
    for request in all.iter_mut() {
        *request = denied_with(*request, permission, error);
    }
}

/// The request, which is denied by this error if it depends on this permission.
fn denied_with(request: OpenRequest, permission: Key, error: Option<ErrorReply>) -> OpenRequest
    ensures { result ≡ denied_with permission error request }
{
    if !depends_on(permission, &request) {
        return request;
    }
    OpenRequest {
        progress: Progress::Denied,
        error,
        ..request
    }
}

/// Whether the request cannot go on without this permission.
fn depends_on(permission: Key, request: &OpenRequest) -> bool
    ensures { result ≡ depends_on permission request.now }
{
    matches!(
        request.progress,
        Progress::Unpermitted | Progress::Permitting
    ) && permission_for(request.key) == permission
}

/// The request with this error, which the client ignored. One that is denied has the error of its permission.
fn hinted(request: OpenRequest, error: ErrorReply) -> OpenRequest
    ensures request { result ≡ hinted error request }
    ensures key { result.key ≡ request.key }
{
    if matches!(request.progress, Progress::Denied) {
        return request;
    }
    OpenRequest {
        error: Some(error),
        ..request
    }
}

/// Whether the data connection of the request is open from this local address, and not bound.
fn is_opened_at(local: SocketAddr, request: &OpenRequest) -> bool
    ensures { result ≡ is_opened_at local request.now }
{
    match request.progress {
        Progress::Opened(other) => other == local,
        _ => false,
    }
}

//! The requests of the caller that have come so far.

ghost use Rattle.std.specs.Prelude.{◌≡◌};
ghost use Rattle.std.specs.List.{position};
ghost use Rattle.turn_session_book.specs.OpenRequests.{awaits, first_awaiting, first_closed, first_denied, first_made};
ghost use Rattle.turn_session_book.specs.OpenRequests.{first_needing, first_unpermitted, first_waiting, is_closed, is_clients};
ghost use Rattle.turn_session_book.specs.OpenRequests.{is_clients_in, is_denied, is_made_in, is_unrequested, is_waiting, needs};

use crate::keys::{Key, is_in, permission_for};
use crate::open_requests::{OpenRequest, OpenRequests, Progress};
use turn_types::AddressFamily;

impl OpenRequests {
    /// Whether the client was asked for this key, and is to report what becomes of the request.
    pub fn is_clients(&self, key: Key) -> bool
        ensures { result ≡ is_clients_in key self.now }
    {
        match self.request_of(key) {
            Some(request) => is_clients(request.progress),
            None => false,
        }
    }

    /// The first request that waits.
    pub fn first_waiting(&self) -> Option<OpenRequest>
        ensures { result ≡ first_waiting self.now }
    {
        match self.waiting_place() {
            Some(place) => Some(self.requests[place]),
            None => None,
        }
    }

    /// The first request in an allocation of this family that does not wait.
    pub fn first_made(&self, family: AddressFamily) -> Option<OpenRequest>
        ensures { result ≡ first_made family self.now }
    {
        match self.made_place(family) {
            Some(place) => Some(self.requests[place]),
            None => None,
        }
    }

    /// The first request whose data connection is closed.
    pub fn first_closed(&self) -> Option<OpenRequest>
        ensures { result ≡ first_closed self.now }
    {
        match self.closed_place() {
            Some(place) => Some(self.requests[place]),
            None => None,
        }
    }

    /// The first request whose permission is to be requested, and is not requested for another.
    pub fn first_unpermitted(&self) -> Option<OpenRequest>
        ensures { result ≡ first_unpermitted self.now }
    {
        match self.unpermitted_place() {
            Some(place) => Some(self.requests[place]),
            None => None,
        }
    }

    /// The first request whose permission was refused.
    pub fn first_denied(&self) -> Option<OpenRequest>
        ensures { result ≡ first_denied self.now }
    {
        match self.denied_place() {
            Some(place) => Some(self.requests[place]),
            None => None,
        }
    }

    /// The first request for which this permission is requested.
    pub fn first_awaiting(&self, permission: Key) -> Option<OpenRequest>
        ensures { result ≡ first_awaiting permission self.now }
    {
        match self.permitting_place(permission) {
            Some(place) => Some(self.requests[place]),
            None => None,
        }
    }

    /// The first request that needs this permission.
    pub fn first_needing(&self, permission: Key) -> Option<OpenRequest>
        ensures { result ≡ first_needing permission self.now }
    {
        match self.needing_place(permission) {
            Some(place) => Some(self.requests[place]),
            None => None,
        }
    }

    /// The place of the first request that waits.
    fn waiting_place(&self) -> Option<usize>
        ensures { result ≡ position (λ r. is_waiting r.progress) self.now }
    {
        self.requests
            .iter()
            .position(|request| matches!(request.progress, Progress::Waiting))
    }

    /// The place of the first request in an allocation of this family that does not wait.
    fn made_place(&self, family: AddressFamily) -> Option<usize>
        ensures { result ≡ position (is_made_in family) self.now }
    {
        self.requests
            .iter()
            .position(|request| is_made_in(family, request))
    }

    /// The place of the first request whose data connection is closed.
    fn closed_place(&self) -> Option<usize>
        ensures { result ≡ position (λ r. is_closed r.progress) self.now }
    {
        self.requests
            .iter()
            .position(|request| matches!(request.progress, Progress::Closed))
    }

    /// The place of the first request whose permission is to be requested, and is not requested for another.
    fn unpermitted_place(&self) -> Option<usize>
        ensures { result ≡ position (is_unrequested self.now) self.now }
    {
        self.requests
            .iter()
            .position(|request| self.is_unrequested(request))
    }

    /// Whether the permission for this request is to be requested, and is not requested for another.
    fn is_unrequested(&self, request: &OpenRequest) -> bool
        ensures { result ≡ is_unrequested self.now request.now }
    {
        matches!(request.progress, Progress::Unpermitted)
            && self.first_awaiting(permission_for(request.key)).is_none()
    }

    /// The place of the first request whose permission was refused.
    fn denied_place(&self) -> Option<usize>
        ensures { result ≡ position (λ r. is_denied r.progress) self.now }
    {
        self.requests
            .iter()
            .position(|request| matches!(request.progress, Progress::Denied))
    }

    /// The place of the first request for which this permission is requested.
    pub(crate) fn permitting_place(&self, permission: Key) -> Option<usize>
        ensures { result ≡ position (awaits permission) self.now }
    {
        self.requests
            .iter()
            .position(|request| awaits(permission, request))
    }

    /// The place of the first request that needs this permission.
    pub(crate) fn needing_place(&self, permission: Key) -> Option<usize>
        ensures { result ≡ position (needs permission) self.now }
    {
        self.requests
            .iter()
            .position(|request| permission_for(request.key) == permission)
    }
}

/// Whether the request is in an allocation of this family, and does not wait.
fn is_made_in(family: AddressFamily, request: &OpenRequest) -> bool
    ensures { result ≡ is_made_in family request.now }
{
    !matches!(request.progress, Progress::Waiting) && is_in(family, request.key)
}

/// Whether this permission is requested for the request.
fn awaits(permission: Key, request: &OpenRequest) -> bool
    ensures { result ≡ awaits permission request.now }
{
    matches!(request.progress, Progress::Permitting) && permission_for(request.key) == permission
}

/// Whether the client has a request that has come so far, and is to report what becomes of it.
fn is_clients(progress: Progress) -> bool
    ensures { result ≡ is_clients progress }
{
    matches!(
        progress,
        Progress::Queued | Progress::Sent(_) | Progress::Opened(_) | Progress::Closed
    )
}

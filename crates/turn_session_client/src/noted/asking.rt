//! Requests of the caller.

ghost use Rattle.std.specs.Prelude.{◌≡◌, ◌≤◌, ◌^◌, true};
ghost use Rattle.turn_session_client.specs.Asking.{Answers, Begins, Requests, added, answer_with, begun, grant_of, is_granted};
ghost use Rattle.turn_session_client.specs.Asking.{known_answer, lacks_permission, makes, taken_over};
ghost use Rattle.turn_session_client.specs.Keeping.{keep_step};
ghost use Rattle.turn_session_client.specs.Waiting.{must_wait};
ghost use Rattle.turn_session_book.specs.OpenRequests.{request_for};

use crate::constants::MAX_UNSENT;
use crate::making::{Made, make};
use crate::noted::NotedClient;
use turn_client_api::TurnClientApi;
use turn_session_book::answers::{Answer, CallError};
use turn_session_book::keys::Key;
use turn_session_book::open_requests::{OpenRequest, Progress};
use turn_session_book::rests::Rest;
use turn_stun::instant::Instant;
use turn_types::TransportType;

impl<C: TurnClientApi> NotedClient<C> {
    /// Requests this key. What was granted and let go is kept again. A request for data is not made while the key rests.
    ///
    /// With a ticket the request has begun, and an event reports its outcome under that ticket, once. It is that of an earlier
    /// request of the same key that is under way. At most eight requests of the client are queued at a time, and the others wait
    /// here, in the order in which they were made. Without memory nothing is requested, nor by a session that leaves or has ended.
    /// What is granted is the caller's, also a permission by which the session has asked whether the server knows the allocation.
    ///
    /// A data connection to a peer that is not permitted, and a channel whose permission has ended, request that permission
    /// first. A data connection that the server closes before it has bound it is requested once more.
    pub fn request(&mut self, key: Key, is_for_data: bool, now: Instant) -> Answer
        requires now_in_range { now ≤ 2 ^ 62 }
        ensures { Requests key is_for_data now result self.old self.new }
    {
        match self.life.cause() {
            Some(why) => Answer::Ended(why),
            None => self.request_now(key, is_for_data, now),
        }
    }

    /// Requests this key in a session that neither leaves nor has ended.
    fn request_now(&mut self, key: Key, is_for_data: bool, now: Instant) -> Answer
        requires now_in_range { now ≤ 2 ^ 62 }
        ensures { let k = (keep_step key true self.old).1 in Answers (known_answer key is_for_data now k) key now result k self.new }
    {
        let _known = self.keep(key, true);
        match self.known_answer(key, is_for_data, now) {
            Some(Answer::Granted) => self.take_over(key),
            Some(answer) => answer,
            None => self.begin(key, now),
        }
    }

    /// Answers a request for this key, which is granted. What the server granted to a question is the caller's from now on, so that its
    /// end is reported.
    fn take_over(&mut self, key: Key) -> Answer
        ensures { Begins result self.old self.new (taken_over key self.old) }
    {
        match self.notes.adopt(key) {
            Ok(()) => Answer::Granted,
            Err(_) => Answer::Refused(CallError::OutOfMemory),
        }
    }

    /// How far this key has come, as a request for data would be answered that needs nothing of the client: `Granted` if it is
    /// active, for a channel with its permission, `Ticket` if it is requested, `Resting` if the server refused it a while ago,
    /// and `Ended` if the session leaves or has ended. With `None` it would be requested.
    pub fn grant_of(&self, key: Key, now: Instant) -> Option<Answer>
        ensures { result ≡ grant_of key now self.now }
    {
        match self.life.cause() {
            Some(why) => Some(Answer::Ended(why)),
            None => self.known_answer(key, true, now),
        }
    }

    /// The answer to a request for this key that needs none of the client.
    fn known_answer(&self, key: Key, is_for_data: bool, now: Instant) -> Option<Answer>
        ensures { result ≡ known_answer key is_for_data now self.now }
    {
        let rest = if is_for_data {
            self.notes.book.rest_of(key, now)
        } else {
            None
        };
        answer_with(self.is_granted(key), self.notes.book.request_of(key), rest)
    }

    /// Whether this key is granted now. A data connection that is open is no grant.
    pub(crate) fn is_granted(&self, key: Key) -> bool
        ensures { result ≡ is_granted key self.now }
    {
        let Some(relays) = self.notes.relays else {
            return false;
        };
        match key {
            Key::Permission(ip) => self.client.have_permission(relays, ip),
            Key::Channel(peer) => {
                self.notes.book.is_held(key) && self.client.have_permission(relays, peer.ip())
            }
            Key::Connect(_) => false,
        }
    }

    /// Begins a request for this key, for which there is none.
    fn begin(&mut self, key: Key, now: Instant) -> Answer
        requires now_in_range { now ≤ 2 ^ 62 }
        requires new { request_for key self.old.notes.book.requests ≡ None }
        ensures { Begins result self.old self.new (begun key now self.old) }
    {
        let Some(relays) = self.notes.relays else {
            return Answer::Refused(CallError::NoAllocation);
        };
        if self.lacks_permission(key, relays) {
            return self.add(key, Progress::Unpermitted);
        }
        if self.must_wait() {
            return self.add(key, Progress::Waiting);
        }
        self.make_first(key, relays, now)
    }

    /// Whether a request for this key, which is not granted, needs a permission first: for a channel that is bound, and for a
    /// data connection to a peer that is not permitted.
    fn lacks_permission(&self, key: Key, relays: TransportType) -> bool
        ensures { result ≡ lacks_permission key relays self.now }
    {
        match (key, relays) {
            (Key::Permission(_), _) => false,
            (Key::Channel(_), _) => self.notes.book.is_held(key),
            (Key::Connect(_), TransportType::Udp) => false,
            (Key::Connect(peer), TransportType::Tcp) => {
                !self.client.have_permission(TransportType::Tcp, peer.ip())
            }
        }
    }

    /// Whether a new request waits: behind others that do, or while eight requests of the client are queued.
    fn must_wait(&self) -> bool
        ensures { result ≡ must_wait self.now }
    {
        self.client.queued_requests() >= MAX_UNSENT || self.notes.book.first_waiting().is_some()
    }

    /// Notes a request under the next ticket.
    fn add(&mut self, key: Key, progress: Progress) -> Answer
        ensures { Begins result self.old self.new (added key progress self.old) }
    {
        let ticket = self.next_ticket;
        match self.notes.book.add(ticket, key, progress) {
            Ok(given) => {
                self.next_ticket = ticket.wrapping_add(1);
                Answer::Ticket(given)
            }
            Err(_) => Answer::Refused(CallError::OutOfMemory),
        }
    }

    /// Requests the key of the client at once.
    fn make_first(&mut self, key: Key, relays: TransportType, now: Instant) -> Answer
        requires now_in_range { now ≤ 2 ^ 62 }
        requires new { request_for key self.old.notes.book.requests ≡ None }
        ensures { Begins result self.old self.new (makes key relays now self.old) }
    {
        let ticket = self.next_ticket;
        if self.notes.book.add(ticket, key, Progress::Queued).is_err() {
            return Answer::Refused(CallError::OutOfMemory);
        }
        match make(&mut self.client, relays, key, now) {
            Made::Queued => {
                self.next_ticket = ticket.wrapping_add(1);
                Answer::Ticket(ticket)
            }
            Made::Refused(error) => {
                self.notes.book.withdraw();
                Answer::Refused(error)
            }
            Made::NoMemory => {
                self.notes.book.withdraw();
                Answer::Refused(CallError::OutOfMemory)
            }
        }
    }
}

/// The answer to a request for a key that is granted or not, with the request under way and the rest that it has.
fn answer_with(is_granted: bool, request: Option<OpenRequest>, rest: Option<Rest>) -> Option<Answer>
    ensures { result ≡ answer_with is_granted request rest }
{
    if is_granted {
        return Some(Answer::Granted);
    }
    if let Some(request) = request {
        return Some(Answer::Ticket(request.ticket));
    }
    match rest {
        Some(rest) => Some(Answer::Resting(rest.until, rest.error)),
        None => None,
    }
}

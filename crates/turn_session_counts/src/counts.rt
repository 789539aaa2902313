//! Counts requests, and measures their round trips.

ghost use Rattle.std.specs.Prelude.{◌≡◌};
ghost use Rattle.std.specs.List.{position};
ghost use Rattle.turn_session_counts.specs.Counts.{answered, has_id, no_requests, remembered, sent, sent_at, without_request};

use crate::counters::Counters;
use arrayvec::ArrayVec;
use std::marker::Model;
use turn_stun::instant::Instant;
use turn_stun::transaction::TransactionId;

/// A request that was sent once, and is not answered yet.
#[derive(Clone, Copy, Debug, PartialEq, Eq)]
pub struct SentRequest {
    /// Its ID.
    pub id: TransactionId,
    /// When it was sent.
    pub at: Instant,
}

impl Default for SentRequest {
    fn default() -> SentRequest {
        SentRequest {
            id: TransactionId::from_bytes([0; 12]),
            at: Instant::ZERO,
        }
    }
}

/// Counts the requests of a client, and measures how long the server takes for an answer. It has the sending times of at most 64
/// requests, those that were sent last of all that were sent once and are not answered. It allocates no memory.
#[derive(Debug, Drop)]
pub struct RequestCounts {
    counters: Counters,
    /// The oldest first.
    unanswered: ArrayVec<SentRequest, 64>,
}

impl Model for RequestCounts {
    ghost use Rattle.turn_session_counts.specs.Counts.{CountsState};

    ghost Value = { CountsState };

    ghost view = { λ c. record { counters = c.counters; unanswered = c.unanswered.items } };
}

impl RequestCounts {
    /// No request was sent.
    pub fn new() -> RequestCounts
        ensures { result ≡ no_requests }
    {
        RequestCounts {
            counters: Counters {
                requests: 0,
                retransmissions: 0,
                round_trip: None,
            },
            unanswered: ArrayVec::new(),
        }
    }

    /// The counters.
    pub fn counters(&self) -> Counters
        ensures { result ≡ self.now.counters }
    {
        self.counters
    }

    /// The request with this ID is sent now. It was sent this often before. One that is sent again is not measured, since nobody knows
    /// which of its packets a response answers (RFC 6298, section 3).
    pub fn sent(&mut self, id: TransactionId, resends: u32, now: Instant)
        ensures { self.new ≡ sent id resends now self.old }
    {
        if resends == 0 {
            self.counters = self.counters.requested();
            self.remember(id, now);
        } else {
            self.counters = self.counters.retransmitted();
            self.forget(id);
        }
    }

    /// A response with this ID was received. The time since its request was sent goes into the mean, if that is known, once.
    pub fn answered(&mut self, id: TransactionId, now: Instant)
        ensures { self.new ≡ answered id now self.old }
    {
        if let Some(at) = self.sent_at(id) {
            let nanos = now.as_nanos().saturating_sub(at.as_nanos());
            self.counters = self.counters.measured(nanos);
            self.forget(id);
        }
    }

    /// Appends a request that is sent now, in place of the oldest if there are 64.
    fn remember(&mut self, id: TransactionId, now: Instant)
        ensures { self.new ≡ remembered id now self.old }
    {
        if self.unanswered.is_full() {
            let _oldest = self.unanswered.remove(0);
        }
        self.unanswered.push(SentRequest { id, at: now });
    }

    /// When the request with this ID was sent.
    fn sent_at(&self, id: TransactionId) -> Option<Instant>
        ensures { result ≡ sent_at id self.now.unanswered }
    {
        self.unanswered
            .as_slice()
            .iter()
            .find(|request| request.id == id)
            .map(|request| request.at)
    }

    /// Forgets the request with this ID.
    fn forget(&mut self, id: TransactionId)
        ensures { self.new ≡ without_request id self.old }
    {
        if let Some(place) = place_of(self.unanswered.as_slice(), id) {
            let _answered = self.unanswered.remove(place);
        }
    }
}

/// The place of the request with this ID.
fn place_of(requests: &[SentRequest], id: TransactionId) -> Option<usize>
    ensures { result ≡ position (has_id id) requests.now }
{
    requests.iter().position(|request| request.id == id)
}

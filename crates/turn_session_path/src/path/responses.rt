//! What was received from the server.

ghost use Rattle.std.specs.Prelude.{◌≡◌};
ghost use Rattle.turn_session_path.specs.PathResponses.{after_received, after_sign, check_with, is_error_request, probe_request, probe_response, respond_step};

use crate::path::{ErrorRequest, Path, PathResponse};
use crate::round::CheckRequest;
use turn_stun::instant::Instant;
use turn_stun::transaction::TransactionId;

impl Path {
    /// A response with this ID was received. If it answers a request of the path, that round is over, and the path carries
    /// packets. Otherwise nothing changes.
    pub fn respond(&mut self, id: TransactionId, now: Instant) -> PathResponse
        ensures { (result, self.new) ≡ respond_step id now self.old }
    {
        if let Some(ticket) = self.check_with(id) {
            self.received(now);
            self.check = None;
            return PathResponse::Check(ticket);
        }
        if self.is_error_request(id) {
            self.received(now);
            return PathResponse::Own;
        }
        self.answer_probe(id, now)
    }

    /// Something else was received from the server, which the client did not ignore: the errors of the socket are forgotten, and
    /// no probe was unanswered.
    pub fn received(&mut self, now: Instant)
        ensures { self.new ≡ after_received now self.old }
    {
        self.forget(now);
        if let Some(prober) = &mut self.prober {
            prober.received(now);
        }
    }

    /// Forgets the errors of the socket, and since when the stream is full.
    fn forget(&mut self, now: Instant)
        ensures { self.new ≡ after_sign now self.old }
    {
        self.errors.received();
        self.error_request = ErrorRequest::Unsent;
        self.full.received(now);
    }

    /// The ticket of the caller's check, if its request has this ID.
    fn check_with(&self, id: TransactionId) -> Option<u32>
        ensures { result ≡ check_with id self.now.check }
    {
        let check = self.check?;
        if id == check.asked.binding {
            Some(check.ticket)
        } else {
            None
        }
    }

    /// Whether the request after an error has this ID.
    fn is_error_request(&self, id: TransactionId) -> bool
        ensures { result ≡ is_error_request id self.now.error_request }
    {
        match self.error_request {
            ErrorRequest::Sent(sent) => id == sent,
            _ => false,
        }
    }

    /// The response to a request of the probe under way.
    fn answer_probe(&mut self, id: TransactionId, now: Instant) -> PathResponse
        ensures { (result, self.new) ≡ probe_response id now self.old }
    {
        let Some(request) = self.probe_request(id) else {
            return PathResponse::Other;
        };
        self.forget(now);
        if let Some(prober) = &mut self.prober {
            prober.answered(request, now);
        }
        PathResponse::Own
    }

    /// The request of the probe under way that has this ID.
    fn probe_request(&self, id: TransactionId) -> Option<CheckRequest>
        ensures { result ≡ probe_request id self.now.prober }
    {
        let prober = self.prober?;
        let asked = prober.asked?;
        asked.request_with(id)
    }
}

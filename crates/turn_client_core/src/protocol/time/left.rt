//! Which queued requests are still to be sent.

ghost use Rattle.std.specs.List.{position};
ghost use Rattle.std.specs.Prelude.{◌≡◌, ◌&&◌, ◌||◌, ◌==◌, is_some, not, slice_get};
ghost use Rattle.turn_agent.specs.Agent.{is_outstanding};
ghost use Rattle.turn_client_api.specs.Grants.{allocations, is_listed};
ghost use Rattle.turn_client_api.specs.Queue.{has_ended, has_request_to_send};
ghost use Rattle.turn_client_api.specs.RequestViews.{queued_request_count};
ghost use Rattle.turn_client_api.specs.Requests.{refresh_method};

use crate::protocol::TurnClientProtocol;
use turn_client_api::Queued;
use turn_stun::message::header::MessageHeader;
use turn_types::message::REFRESH;

impl TurnClientProtocol {
    /// Whether this queued packet is a request that has ended: it awaits no response, or nothing is left that it was
    /// made for. Only one that is timed from when it is sent ends while it is queued.
    pub(crate) fn has_ended(&self, queued: &Queued) -> bool
        ensures { result ≡ has_ended self.now queued.now }
    {
        if !self.config.requests_timed_from_send() || !queued.is_request {
            return false;
        }
        match MessageHeader::from_bytes(queued.packet.payload.as_bytes()) {
            Ok(header) => !self.awaits_response(&header),
            Err(_fault) => false,
        }
    }

    /// Whether the request with this header awaits its response, and something is left that it was made for. A
    /// REFRESH is for all allocations, and the response to an earlier one unlists it.
    fn awaits_response(&self, header: &MessageHeader) -> bool
        ensures { result ≡ (is_outstanding header.now.transaction_id self.now.transactions
            && (is_listed header.now.transaction_id self.now
            || (header.now.message_type.method.value == refresh_method && is_some (slice_get (allocations self.now) 0)))) }
    {
        let id = header.transaction_id;
        self.outbox.agent().is_outstanding(id)
            && (self.ledger.table().is_listed(id)
                || header.message_type.method == REFRESH
                    && self.ledger.table().nth_allocation(0).is_some())
    }

    /// The place of the first queued packet that has not ended.
    pub(crate) fn next_place(&self) -> Option<usize>
        ensures { result ≡ position (λ q. not (has_ended self.now q)) self.now.queue }
    {
        let packets = self.outbox.queue().packets();
        packets.iter().position(|queued| !self.has_ended(queued))
    }

    /// Whether a queued request is still to be sent.
    pub(crate) fn has_request_to_send(&self) -> bool
        ensures { result ≡ has_request_to_send self.now }
    {
        if !self.config.requests_timed_from_send() {
            return self.outbox.queue().has_request();
        }
        let packets = self.outbox.queue().packets();
        packets
            .iter()
            .any(|queued| !self.has_ended(queued) && queued.is_request)
    }

    /// How many requests wait to be sent for the first time.
    pub fn queued_requests(&self) -> usize
        ensures { result ≡ queued_request_count self.now }
    {
        if !self.config.requests_timed_from_send() {
            return self.outbox.queue().requests();
        }
        let packets = self.outbox.queue().packets();
        packets
            .iter()
            .filter(|queued| !self.has_ended(queued) && queued.is_request)
            .count()
    }
}

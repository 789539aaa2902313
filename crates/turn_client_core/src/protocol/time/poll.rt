//! What a client does as time passes (RFC 8656, sections 8 to 12; RFC 6062, section 4.3).

ghost use Rattle.std.specs.Prelude.{◌≡◌, ◌≤◌, ◌^◌};
ghost use Rattle.turn_client_api.specs.Alarm.{IsTimely};
ghost use Rattle.turn_client_laws.specs.LawsGrantAllocations.{GrantsHaveAllocations};
ghost use Rattle.turn_client_laws.specs.LawsOrder.{FitsPhase};
ghost use Rattle.turn_client_api.specs.Poll.{answer_step, timed_out_step, next_offer, is_listed_for_allocation, offer_step, poll_step, silent_step};
ghost use Rattle.turn_client_core.specs.Polled.{is_without_allocation, unallocated};

use crate::protocol::TurnClientProtocol;
use turn_client_api::{DataOffer, Phase, Socket5Tuple, TurnPollRet};
use turn_stun::instant::Instant;
use turn_stun::transaction::TransactionId;

impl TurnClientProtocol {
    /// Handles expired timers and returns what to do next: wait until a time, open or close a data
    /// connection, or nothing more. Allocates no memory.
    pub fn poll(&mut self, now: Instant) -> TurnPollRet
        requires now_in_range { now ≤ 2 ^ 62 }
        ensures answer { result ≡ (poll_step now self.old).0 }
        ensures after { self.new ≡ (poll_step now self.old).1 }
        ensures alarm { FitsPhase self.old → GrantsHaveAllocations self.old → IsTimely result now self.old self.new }
    {
        // First pending events and replies, then an offer, then expired timers.
        if self.has_pending() {
            return TurnPollRet::WaitUntil(now);
        }
        if let Some(offer) = self.next_offer() {
            return self.report_offer(&offer);
        }
        self.poll_time(now)
    }

    /// The next offer of a data connection to report to the caller.
    fn next_offer(&self) -> Option<DataOffer>
        ensures { result ≡ next_offer self.now }
    {
        match self.phase {
            Phase::Allocated => self.ledger.table().next_offer(),
            Phase::New => None,
            Phase::Requesting => None,
            Phase::Authenticating => None,
            Phase::Closed => None,
        }
    }

    /// Reports this offer, the next one, whose connection the caller is to open.
    fn report_offer(&mut self, offer: &DataOffer) -> TurnPollRet
        ensures { (result, self.new) ≡ offer_step offer.now self.old }
    {
        self.ledger.offer_reported(offer);
        TurnPollRet::AllocateTcpSocket {
            id: offer.connection_id,
            socket: Socket5Tuple {
                transport: self.transport(),
                from: self.local_addr(),
                to: self.remote_addr(),
            },
            peer_addr: offer.peer,
        }
    }

    /// Times out at most one request, and handles expiries.
    fn poll_time(&mut self, now: Instant) -> TurnPollRet
        ensures { (result, self.new) ≡ timed_out_step now self.old }
    {
        let given = self.outbox.give_up(now);
        match self.phase {
            Phase::New => return TurnPollRet::WaitUntil(now),
            Phase::Requesting => {
                if given.is_some() {
                    return self.end_unanswered();
                }
            }
            Phase::Authenticating => self.end_unallocated(&given),
            Phase::Allocated => {
                let timed_from_send = self.config.requests_timed_from_send();
                self.ledger.expire_grants(timed_from_send, given, now);
            }
            Phase::Closed => return TurnPollRet::Closed,
        }
        self.answer(&given, now)
    }

    /// Ends a client whose first ALLOCATE timed out: what it requests has failed. The room to report that
    /// was made with the request.
    fn end_unanswered(&mut self) -> TurnPollRet
        requires { self.old.phase ≡ Phase.Requesting }
        ensures { (result, self.new) ≡ silent_step self.old }
    {
        self.ledger.fail_families_first(self.families.as_slice());
        self.families.clear();
        self.close();
        TurnPollRet::Closed
    }

    /// Ends the client, without an event, if the request that timed out is an ALLOCATE.
    fn end_unallocated(&mut self, given: &Option<TransactionId>)
        ensures { self.new ≡ unallocated given.now self.old }
    {
        if let Some(id) = given {
            if self.is_for_allocation(id) {
                self.close();
            }
        }
    }

    /// Whether the request with this ID is an ALLOCATE.
    fn is_for_allocation(&self, id: &TransactionId) -> bool
        ensures { result ≡ is_listed_for_allocation id.now self.now }
    {
        self.ledger.table().purposes_of(*id).is_for_allocation()
    }

    /// What the caller is to do: close a connection, nothing more, or wait.
    fn answer(&mut self, given: &Option<TransactionId>, now: Instant) -> TurnPollRet
        ensures { (result, self.new) ≡ answer_step given.now now self.old }
    {
        if let Some(local_addr) = self.ledger.next_close() {
            return TurnPollRet::TcpClose {
                local_addr,
                remote_addr: self.outbox.remote_addr(),
            };
        }
        if self.is_without_allocation() {
            return TurnPollRet::Closed;
        }
        TurnPollRet::WaitUntil(self.next_wakeup(given.is_some(), now))
    }

    /// Whether the client was granted allocations, and has none left.
    fn is_without_allocation(&self) -> bool
        ensures { result ≡ is_without_allocation self.now }
    {
        self.phase == Phase::Allocated && self.ledger.table().nth_allocation(0).is_none()
    }
}

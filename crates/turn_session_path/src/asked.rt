//! A round of a path check with the transaction IDs of its requests.

ghost use Rattle.std.specs.Prelude.{◌≡◌};
ghost use Rattle.turn_session_path.specs.Asked.{asked_step, asked_with, behind_round, id_for, request_with};

use crate::round::{Asks, CheckRequest, Round, RoundStep};
use turn_agent::NumberSource;
use turn_stun::instant::Instant;
use turn_stun::transaction::TransactionId;
use turn_stun::transport::TransportType;

/// A round, and the IDs of its requests. A request that is sent again has the same ID (RFC 8489, section 6.2.1).
#[derive(Clone, Copy, Debug)]
pub struct Asked {
    /// How far it has come.
    pub round: Round,
    /// The ID of its Binding request.
    pub binding: TransactionId,
    /// The ID of its bare CREATE_PERMISSION.
    pub bare: TransactionId,
}

/// What a round does next.
#[derive(Clone, Copy, Debug, PartialEq, Eq)]
pub enum AskedStep {
    /// It sends this request now, with this ID.
    Send(CheckRequest, TransactionId),
    /// Nothing before this time.
    WaitUntil(Instant),
    /// It had no response in time.
    Unanswered,
}

impl Asked {
    /// A round that begins now, with the next two IDs of the source.
    pub fn new(asks: Asks, ids: &mut NumberSource, now: Instant) -> Asked
        ensures round { result ≡ asked_with asks now ids.old }
        ensures ids { ids.new ≡ behind_round ids.old }
    {
        let binding = ids.draw();
        let bare = ids.draw();
        Asked {
            round: Round::new(asks, now),
            binding,
            bare,
        }
    }

    /// Sends the next request if it is due, or ends the round after the last one.
    pub fn poll(&mut self, transport: TransportType, now: Instant) -> AskedStep
        ensures { (result, self.new) ≡ asked_step transport now self.old }
    {
        match self.round.poll(transport, now) {
            RoundStep::Send(request) => AskedStep::Send(request, self.id_for(request)),
            RoundStep::WaitUntil(time) => AskedStep::WaitUntil(time),
            RoundStep::Unanswered => AskedStep::Unanswered,
        }
    }

    /// Its request with this ID.
    pub fn request_with(&self, id: TransactionId) -> Option<CheckRequest>
        ensures { result ≡ request_with id self.now }
    {
        if id == self.binding {
            return Some(CheckRequest::Binding);
        }
        if id == self.bare {
            return Some(CheckRequest::BarePermission);
        }
        None
    }

    /// The ID of this request.
    fn id_for(&self, request: CheckRequest) -> TransactionId
        ensures { result ≡ id_for request self.now }
    {
        match request {
            CheckRequest::Binding => self.binding,
            CheckRequest::BarePermission => self.bare,
        }
    }
}

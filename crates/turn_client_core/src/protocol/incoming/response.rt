//! Signed replies of the server to outstanding requests (RFC 8656, sections 7.4, 8.3, 10.3 and 12.3;
//! RFC 6062, section 4.3).

ghost use Rattle.std.specs.Prelude.{◌≡◌, ◌≢◌, ◌∷◌, [], IfOk, OnErr, OnOk, true};
ghost use Rattle.turn_agent.specs.Agent.{is_outstanding};
ghost use Rattle.turn_client_api.specs.Effect.{allocate_denied, transaction_ended};
ghost use Rattle.turn_client_api.specs.Payloads.{answered_purposes, outcome_for, response_step};
ghost use Rattle.turn_client_api.specs.Requests.{fresh_id, requested};
ghost use Rattle.turn_client_api.specs.State.{State};
ghost use Rattle.turn_client_core.specs.Effects.{after};
ghost use Rattle.turn_client_core.specs.ProtocolRecv.{IsPart, outcome_in};
ghost use Rattle.turn_client_core.specs.Replies.{asks_ipv6};
ghost use Rattle.turn_client_grants.specs.GrantFilter.{purposes_in};
ghost use Rattle.turn_stun.specs.Message.{id_of};

use crate::answered_purposes::{answered, is_empty};
use crate::effect::{Effect, answer_all};
use crate::protocol::TurnClientProtocol;
use crate::protocol_recv::TurnProtocolRecv;
use crate::reply::has_code;
use smallvec::SmallVec;
use std::alloc::{AllocError, Global};
use turn_client_api::{Phase, Purpose, TurnEvent};
use turn_client_grants::Purposes;
use turn_client_requests::request_for;
use turn_stun::attribute::error_code::ErrorCode;
use turn_stun::instant::Instant;
use turn_stun::message::Message;
use turn_types::AddressFamily;
use turn_types::message::REFRESH;

impl TurnClientProtocol {
    /// Processes the reply to a request of a client with an allocation.
    ///
    /// # Errors
    ///
    /// If memory allocation fails. Nothing changes then. A reply that concerns nothing that its request was
    /// made for only ends its transaction, and allocates none.
    pub(crate) fn respond(
        &mut self,
        message: &Message<'_>,
        is_granted: bool,
        now: Instant,
    ) -> Result<TurnProtocolRecv, AllocError>
        ensures answer { IfOk result (λ outcome. outcome_in message.now outcome ≡ (response_step is_granted message.now now self.old).0) }
        ensures part { IfOk result (IsPart message.now self.old self.new) }
        ensures after { OnOk result (self.new ≡ (response_step is_granted message.now now self.old).1) }
        ensures err { OnErr result (self.new ≡ self.old) }
        ensures wanted { OnErr result (answered_purposes message.now self.old ≢ []) }
    {
        let id = message.transaction_id();
        let purposes = answered(message.method(), &self.ledger.table().purposes_of(id));
        if is_empty(&purposes) {
            self.outbox.end(message.transaction_id());
            return Ok(reported_of(message, &purposes));
        }
        // Each of two purposes may add three events: of a channel and of two permissions. Keeps the room for the
        // failure events of families that are still requested.
        let Some(events) = self.families.len().checked_add(6) else {
            return Err(AllocError);
        };
        self.ledger.reserve(purposes.grants_added(), 0, events, 0)?;
        self.outbox.end(id);
        let effect = answer_all(&mut self.ledger, &purposes, message, is_granted, now);
        // A client serves one caller of many, and is idle most of the time: it holds no room for requests then.
        self.ledger.give_back();
        self.apply_effect(effect);
        Ok(reported_of(message, &purposes))
    }

    /// Applies what a reply changes apart from the grants.
    fn apply_effect(&mut self, effect: Effect)
        ensures { self.new ≡ after effect self.old }
    {
        match effect {
            Effect::Nothing => {}
            Effect::Taken => self.challenges = 0,
            Effect::AllocationsDeleted => {
                self.challenges = 0;
                self.phase = Phase::Closed;
            }
        }
    }

    /// The server denies the allocation. If it does not support one of two families, IPv4 fails, and
    /// IPv6 is requested alone (RFC 8656, section 7.4); else the client ends.
    ///
    /// # Errors
    ///
    /// If memory allocation fails. Nothing changes then.
    pub(crate) fn allocate_denied(
        &mut self,
        message: &Message<'_>,
        now: Instant,
    ) -> Result<(), AllocError>
        requires phase { self.old.phase ≡ Phase.Authenticating }
        requires outstanding { is_outstanding (id_of message.now) self.old.transactions ≡ true }
        ensures ok { OnOk result (self.new ≡ allocate_denied (fresh_id self.old) message.now now (transaction_ended (id_of message.now) self.old)) }
        ensures err { OnErr result (self.new ≡ self.old) }
    {
        if has_code(message, ErrorCode::ADDRESS_FAMILY_NOT_SUPPORTED) && self.families.len() >= 2 {
            return self.ask_ipv6(message, now);
        }
        self.fail_with(message)
    }

    /// Queues a failure event for IPv4, and requests IPv6 alone. The request that the message answers
    /// is no longer outstanding.
    ///
    /// # Errors
    ///
    /// If memory allocation fails. Nothing changes then.
    fn ask_ipv6(&mut self, message: &Message<'_>, now: Instant) -> Result<(), AllocError>
        requires phase { self.old.phase ≡ Phase.Authenticating }
        requires outstanding { is_outstanding (id_of message.now) self.old.transactions ≡ true }
        ensures ok { OnOk result (self.new ≡ asks_ipv6 (fresh_id self.old) now (transaction_ended (id_of message.now) self.old)) }
        ensures err { OnErr result (self.new ≡ self.old) }
    {
        let fresh = self.fresh_id();
        let text = request_for(
            self.alloc,
            &self.auth,
            self.ledger.transport(),
            &[AddressFamily::IPV6],
            &Purpose::ForAllocation,
            fresh,
        )?;
        let from = self.local_addr();
        let waits_from = self.waits_from(now);
        self.ledger.reserve(0, 2, 1, 0)?;
        self.outbox.ask(fresh, text, from, waits_from)?;
        self.outbox.end(message.transaction_id());
        let families = only_ipv6(self.alloc);
        self.families = families;
        self.ledger.unlist_allocates();
        self.ledger
            .push_event(TurnEvent::AllocationCreateFailed(AddressFamily::IPV4));
        self.ledger
            .ask(fresh, &[], &Purposes::one(Purpose::ForAllocation));
        Ok(())
    }
}

/// IPv6 alone. Allocates no memory, since two families are kept in place.
fn only_ipv6(alloc: Global) -> SmallVec<AddressFamily, 2>
    ensures { result.items ≡ AddressFamily.IPV6 ∷ [] }
{
    SmallVec::from_slice(alloc, &[AddressFamily::IPV6]).unwrap()
}

/// The result of a reply: one to a REFRESH is always `Handled`, and another one if its request was made
/// for something of its method.
fn reported_of(message: &Message<'_>, purposes: &Purposes) -> TurnProtocolRecv
    ensures outcome { outcome_in message.now result ≡ outcome_for message.now (purposes_in purposes.now) }
    ensures part { (was s : State) → IsPart message.now was s result }
{
    if purposes.first.is_some() || purposes.second.is_some() || message.method() == REFRESH {
        return TurnProtocolRecv::Handled;
    }
    TurnProtocolRecv::Ignored
}

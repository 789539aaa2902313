//! The server reports a peer that connected to the relayed address (RFC 6062, section 4.4).

ghost use Rattle.std.specs.Net.Socket.{socket_ip};
ghost use Rattle.std.specs.Prelude.{◌≡◌, is_some, IfOk, IsSome, OnErr, OnOk};
ghost use Rattle.turn_client_api.specs.Connections.{attempt_indicated, attempt_requested, accepts_attempt};
ghost use Rattle.turn_client_api.specs.Effect.{with_offer};
ghost use Rattle.turn_client_api.specs.Grants.{find_allocation_to};
ghost use Rattle.turn_client_api.specs.Requests.{refused_reply, replied};
ghost use Rattle.turn_client_core.specs.Attempts.{CanSign, attempt_step};
ghost use Rattle.turn_client_core.specs.ProtocolRecv.{IsPart, outcome_in};
ghost use Rattle.turn_client_requests.specs.Refused.{code_of, reason_of};
ghost use Rattle.turn_stun.specs.Message.{id_of};
ghost use Rattle.turn_stun.specs.declared.transport.TransportType.TheVariants.{Tcp};

use crate::protocol::TurnClientProtocol;
use crate::protocol_recv::TurnProtocolRecv;
use crate::reply::{connection_id_in, peer_in};
use std::alloc::AllocError;
use std::net::SocketAddr;
use turn_client_api::Origin;
use turn_client_requests::{AttemptRefusal, refused_reply};
use turn_stun::message::Message;
use turn_stun::transaction::TransactionId;
use turn_stun::transport::TransportType;

/// How many offers from indications may exist at a time, since indications are not signed (our choice).
const MAX_INDICATED: usize = 64;

impl TurnClientProtocol {
    /// A request of the server is refused at once, or makes an offer to the caller. Then it is answered
    /// when the caller reports what became of that, unless its allocation or the client has ended (our
    /// choice: RFC 6062 has only an indication).
    ///
    /// # Errors
    ///
    /// If memory allocation fails. Nothing changes then.
    pub(crate) fn attempt_requested(&mut self, message: &Message<'_>) -> Result<(), AllocError>
        requires { CanSign self.old.phase }
        ensures ok { OnOk result (self.new ≡ attempt_requested message.now self.old) }
        ensures err { OnErr result (self.new ≡ self.old) }
    {
        let id = message.transaction_id();
        let Some(connection_id) = connection_id_in(message) else {
            return self.refuse_attempt(AttemptRefusal::BadRequest, id);
        };
        let Some(peer) = peer_in(message) else {
            return self.refuse_attempt(AttemptRefusal::BadRequest, id);
        };
        if !self.relays_to(peer) {
            return self.refuse_attempt(AttemptRefusal::BadRequest, id);
        }
        if self.ledger.table().is_connected(peer) {
            return self.refuse_attempt(AttemptRefusal::ConnectionAlreadyExists, id);
        }
        self.offer(connection_id, peer, Origin::ServerRequest(id))
    }

    /// An indication makes an offer to the caller if it is accepted, and is ignored otherwise. Memory
    /// is allocated only for an offer.
    ///
    /// # Errors
    ///
    /// If memory allocation fails. Nothing changes then.
    pub(crate) fn attempt_indicated(
        &mut self,
        message: &Message<'_>,
    ) -> Result<TurnProtocolRecv, AllocError>
        ensures answer { IfOk result (λ outcome. outcome_in message.now outcome ≡ (attempt_step message.now self.old).0) }
        ensures part { IfOk result (IsPart message.now self.old self.new) }
        ensures after { OnOk result (self.new ≡ (attempt_step message.now self.old).1) }
        ensures err { OnErr result (self.new ≡ self.old) }
        ensures wanted { OnErr result (IsSome (attempt_indicated message.now self.old)) }
    {
        let Some(connection_id) = connection_id_in(message) else {
            return Ok(TurnProtocolRecv::Ignored);
        };
        let Some(peer) = peer_in(message) else {
            return Ok(TurnProtocolRecv::Ignored);
        };
        if !self.accepts_attempt(peer) {
            return Ok(TurnProtocolRecv::Ignored);
        }
        self.offer(connection_id, peer, Origin::ServerIndication)?;
        Ok(TurnProtocolRecv::Handled)
    }

    /// Whether an indication that names this peer makes an offer: only for a peer with a permission, as
    /// RFC 6062, section 4.4, requires, and if no other connection to it exists, is offered or is
    /// pending.
    fn accepts_attempt(&self, peer: SocketAddr) -> bool
        ensures { result ≡ accepts_attempt peer self.now }
    {
        if !self.relays_to(peer) {
            return false;
        }
        if !self.is_permitted(peer) {
            return false;
        }
        if self.ledger.table().is_connected(peer) {
            return false;
        }
        if self.ledger.table().is_connecting(peer) {
            return false;
        }
        self.ledger.table().indicated_count() < MAX_INDICATED
    }

    /// Whether an allocation relays over TCP to the IP address of the peer.
    fn relays_to(&self, peer: SocketAddr) -> bool
        ensures { result ≡ is_some (find_allocation_to Tcp (socket_ip peer) self.now) }
    {
        self.ledger
            .find_allocation_to(TransportType::Tcp, peer.ip())
            .is_some()
    }

    /// Offers the caller a data connection to the peer, with the server's ID of it.
    ///
    /// # Errors
    ///
    /// If memory allocation fails. Nothing changes then.
    fn offer(
        &mut self,
        connection_id: u32,
        peer: SocketAddr,
        origin: Origin,
    ) -> Result<(), AllocError>
        ensures ok { OnOk result (self.new ≡ with_offer connection_id peer origin self.old) }
        ensures err { OnErr result (self.new ≡ self.old) }
    {
        // Keeps the room for the failure events of families that are still requested.
        self.ledger.reserve(1, 0, self.families.len(), 0)?;
        self.ledger.offer(connection_id, peer, origin);
        Ok(())
    }

    /// Refuses the server's request with this ID.
    ///
    /// # Errors
    ///
    /// If memory allocation fails. Nothing changes then.
    fn refuse_attempt(
        &mut self,
        refusal: AttemptRefusal,
        id: TransactionId,
    ) -> Result<(), AllocError>
        requires { CanSign self.old.phase }
        ensures ok { OnOk result (self.new ≡ replied (refused_reply (code_of refusal) (reason_of refusal) self.old id) self.old) }
        ensures err { OnErr result (self.new ≡ self.old) }
    {
        let text = refused_reply(self.alloc, &self.auth, refusal, id)?;
        self.outbox.reply(text)
    }
}

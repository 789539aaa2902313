//! Messages that are ignored whatever attributes they contain.

ghost use Rattle.std.specs.Prelude.{◌≡◌, [], is_some, nat_lt, true, IfOk, IsOk, OnErr, OnOk};
ghost use Rattle.turn_client_api.specs.Answers.{is_data_indication};
ghost use Rattle.turn_client_api.specs.Grants.{purposes_of};
ghost use Rattle.turn_client_api.specs.Memory.{message_takes_memory};
ghost use Rattle.turn_client_api.specs.Payloads.{message_step};
ghost use Rattle.turn_client_api.specs.Retry.{retried};
ghost use Rattle.turn_client_core.specs.ProtocolRecv.{IsPart, outcome_in};
ghost use Rattle.turn_client_core.specs.Unread.{indicates_data, is_ignored_unread};

use crate::answered_purposes::retried;
use crate::protocol::TurnClientProtocol;
use crate::protocol_recv::TurnProtocolRecv;
use std::alloc::AllocError;
use turn_client_api::Phase;
use turn_stun::instant::Instant;
use turn_stun::message::Message;
use turn_stun::message::header::{MessageClass, MessageType};
use turn_stun::transaction::TransactionId;
use turn_types::message::{CONNECTION_ATTEMPT, DATA};

impl TurnClientProtocol {
    /// Whether a message with this type and this transaction ID is ignored, and changes nothing, whatever
    /// attributes it contains. They are not read then, since anyone may send a message with thousands of
    /// them.
    pub(crate) fn is_ignored_unread(&self, kind: MessageType, id: TransactionId) -> bool
        ensures { result ≡ is_ignored_unread kind.class kind.method.value id self.now }
    {
        if self.phase != Phase::Allocated {
            return false;
        }
        match kind.class {
            MessageClass::Request => kind.method != CONNECTION_ATTEMPT,
            MessageClass::Indication => kind.method != DATA && kind.method != CONNECTION_ATTEMPT,
            MessageClass::Success => !self.outbox.agent().is_outstanding(id),
            MessageClass::Error => {
                !self.outbox.agent().is_outstanding(id)
                    && !self.asks_again(id)
                    && self.answers_challenges()
            }
        }
    }

    /// Whether a challenge with this ID makes the client request something again.
    fn asks_again(&self, id: TransactionId) -> bool
        ensures { result ≡ is_some (retried (purposes_of id self.now)) }
    {
        retried(&self.ledger.table().purposes_of(id)).is_some()
    }

    /// Whether one more challenge does not end the client.
    fn answers_challenges(&self) -> bool
        ensures { result ≡ nat_lt self.now.challenges self.now.config.max_stale_nonces }
    {
        self.challenges < u32::from(self.config.max_stale_nonces().get())
    }

    /// Whether a message of this type is a Data indication, and the client has an allocation.
    pub(crate) fn is_sent_data(&self, kind: MessageType) -> bool
        ensures { result ≡ indicates_data self.now.phase kind.class kind.method.value }
    {
        if self.phase != Phase::Allocated {
            return false;
        }
        match kind.class {
            MessageClass::Indication => kind.method == DATA,
            MessageClass::Request | MessageClass::Success | MessageClass::Error => false,
        }
    }

    /// Processes a message, unless it is ignored unread.
    ///
    /// # Errors
    ///
    /// If memory allocation fails. Nothing changes then. A Data indication allocates none, nor does any
    /// other message that requires no action.
    pub fn message_unless_ignored(
        &mut self,
        message: &Message<'_>,
        now: Instant,
    ) -> Result<TurnProtocolRecv, AllocError>
        requires before { self.old.phase ≡ Phase.Authenticating → self.old.grants ≡ [] }
        ensures answer { IfOk result (λ outcome. outcome_in message.now outcome ≡ (message_step message.now now self.old).0) }
        ensures part { IfOk result (IsPart message.now self.old self.new) }
        ensures after { OnOk result (self.new ≡ (message_step message.now now self.old).1) }
        ensures err { OnErr result (self.new ≡ self.old) }
        ensures free { is_data_indication message.now ≡ true → IsOk result }
        ensures wanted { OnErr result (message_takes_memory message.now self.old ≡ true) }
    {
        if self.is_ignored_unread(message.message_type(), message.transaction_id()) {
            return Ok(TurnProtocolRecv::Ignored);
        }
        self.message(message, now)
    }
}

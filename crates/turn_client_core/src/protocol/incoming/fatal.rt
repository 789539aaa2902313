//! The end of a client.

ghost use Rattle.std.specs.Prelude.{◌≡◌, [], IfOk, IsOk, OnErr, OnOk};
ghost use Rattle.turn_client_api.specs.Effect.{closed, transaction_ended, fail_all};
ghost use Rattle.turn_client_api.specs.Payloads.{wrong_step};
ghost use Rattle.turn_client_core.specs.ProtocolRecv.{IsPart, outcome_in};
ghost use Rattle.turn_stun.specs.Message.{id_of};

use crate::protocol::TurnClientProtocol;
use crate::protocol_recv::TurnProtocolRecv;
use std::alloc::AllocError;
use turn_client_api::Phase;
use turn_stun::message::Message;

impl TurnClientProtocol {
    /// Processes a message that ends the client: what the client requests fails. If it answers the
    /// first ALLOCATE, that transaction ends too.
    ///
    /// # Errors
    ///
    /// If memory allocation fails. Nothing changes then.
    pub(crate) fn fatal(&mut self, message: &Message<'_>) -> Result<TurnProtocolRecv, AllocError>
        ensures answer { IfOk result (λ outcome. outcome_in message.now outcome ≡ (wrong_step message.now self.old).0) }
        ensures part { IfOk result (IsPart message.now self.old self.new) }
        ensures after { OnOk result (self.new ≡ (wrong_step message.now self.old).1) }
        ensures err { OnErr result (self.new ≡ self.old) }
        ensures free { self.old.families ≡ [] → IsOk result }
    {
        if self.phase == Phase::Requesting {
            self.fail_with(message)?;
            return Ok(TurnProtocolRecv::Handled);
        }
        self.fail()?;
        Ok(TurnProtocolRecv::Handled)
    }

    /// Ends the request that the message answers, queues failure events for what the client requests,
    /// and ends the client.
    ///
    /// # Errors
    ///
    /// If memory allocation fails. Nothing changes then.
    pub(crate) fn fail_with(&mut self, message: &Message<'_>) -> Result<(), AllocError>
        ensures ok { OnOk result (self.new ≡ closed (fail_all (transaction_ended (id_of message.now) self.old))) }
        ensures err { OnErr result (self.new ≡ self.old) }
        ensures free { self.old.families ≡ [] → IsOk result }
    {
        self.fail()?;
        self.outbox.end(message.transaction_id());
        Ok(())
    }

    /// Queues a failure event for each family that is still requested, and ends the client.
    ///
    /// # Errors
    ///
    /// If memory allocation fails. Nothing changes then.
    pub(crate) fn fail(&mut self) -> Result<(), AllocError>
        ensures ok { OnOk result (self.new ≡ closed (fail_all self.old)) }
        ensures err { OnErr result (self.new ≡ self.old) }
        ensures free { self.old.families ≡ [] → IsOk result }
    {
        self.fail_all()?;
        self.close();
        Ok(())
    }
}

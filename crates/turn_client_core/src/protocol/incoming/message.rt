//! A whole message of the server (RFC 8656, sections 7 to 12; RFC 6062, section 4).

ghost use Rattle.std.specs.Prelude.{◌≡◌, ◌==◌, [], IfOk, IsOk, OnErr, OnOk, false, true};
ghost use Rattle.turn_agent.specs.Agent.{is_outstanding};
ghost use Rattle.turn_client_api.specs.Answers.{is_data_indication};
ghost use Rattle.turn_client_api.specs.Judgement.{method_in};
ghost use Rattle.turn_client_api.specs.Memory.{message_takes_memory};
ghost use Rattle.turn_client_api.specs.Payloads.{message_step, signed_step};
ghost use Rattle.turn_client_api.specs.Requests.{connection_attempt_method};
ghost use Rattle.turn_client_core.specs.Attempts.{CanSign, request_step};
ghost use Rattle.turn_client_core.specs.Replies.{is_authenticating};
ghost use Rattle.turn_client_core.specs.Wanted.{ReplyWantsMemory, WantsMemoryIfReply};
ghost use Rattle.turn_client_core.specs.ProtocolRecv.{IsPart, outcome_in};
ghost use Rattle.turn_stun.specs.Message.{id_of};

use crate::protocol::TurnClientProtocol;
use crate::protocol::incoming::judge::Judged;
use crate::protocol_recv::TurnProtocolRecv;
use std::alloc::AllocError;
use turn_client_api::Phase;
use turn_stun::instant::Instant;
use turn_stun::message::Message;
use turn_types::message::CONNECTION_ATTEMPT;

impl TurnClientProtocol {
    /// Processes a message on the control connection, or over UDP a datagram that is one.
    ///
    /// # Errors
    ///
    /// If memory allocation fails. Nothing changes then. A Data indication allocates none, nor does any
    /// other message that requires no action, or a signed reply that concerns nothing.
    pub(crate) fn message(
        &mut self,
        message: &Message<'_>,
        now: Instant,
    ) -> Result<TurnProtocolRecv, AllocError>
        requires before { self.old.phase ≡ Phase.Authenticating → self.old.grants ≡ [] }
        ensures answer { IfOk result (λ outcome. outcome_in message.now outcome ≡ (message_step message.now now self.old).0) }
        ensures part { IfOk result (IsPart message.now self.old self.new) }
        ensures after { OnOk result (self.new ≡ (message_step message.now now self.old).1) }
        ensures err { OnErr result (self.new ≡ self.old) }
        ensures free { is_data_indication message.now ≡ true → IsOk result }
        ensures wanted { OnErr result (message_takes_memory message.now self.old ≡ true) }
        ensures replied { OnErr result (WantsMemoryIfReply message.now self.old) }
    {
        let judged = self.judge(message);
        match judged {
            Judged::Unrelated => Ok(TurnProtocolRecv::Ignored),
            Judged::Challenged(challenge) => self.challenged(message, &challenge, now),
            Judged::Fatal => self.fatal(message),
            Judged::LateResponse => Ok(TurnProtocolRecv::Handled),
            Judged::DataIndication => Ok(self.data_indicated(message.as_bytes())),
            Judged::ConnectionAttempt => self.attempt_indicated(message),
            Judged::SignedRequest => self.requested(message),
            Judged::SignedSuccess => self.succeeded(message, now),
            Judged::SignedError => self.failed(message, now),
        }
    }

    /// Processes a signed request of the server. Only a ConnectionAttempt is for a client, and
    /// allocates memory.
    ///
    /// # Errors
    ///
    /// If memory allocation fails. Nothing changes then.
    fn requested(&mut self, message: &Message<'_>) -> Result<TurnProtocolRecv, AllocError>
        requires { CanSign self.old.phase }
        ensures answer { IfOk result (λ outcome. outcome_in message.now outcome ≡ (request_step message.now self.old).0) }
        ensures part { IfOk result (IsPart message.now self.old self.new) }
        ensures after { OnOk result (self.new ≡ (request_step message.now self.old).1) }
        ensures err { OnErr result (self.new ≡ self.old) }
        ensures wanted { OnErr result ((method_in message.now == connection_attempt_method) ≡ true) }
    {
        if message.method() != CONNECTION_ATTEMPT {
            return Ok(TurnProtocolRecv::Ignored);
        }
        self.attempt_requested(message)?;
        Ok(TurnProtocolRecv::Handled)
    }

    /// Processes a signed success response to an outstanding request.
    ///
    /// # Errors
    ///
    /// If memory allocation fails. Nothing changes then.
    fn succeeded(
        &mut self,
        message: &Message<'_>,
        now: Instant,
    ) -> Result<TurnProtocolRecv, AllocError>
        requires before { self.old.phase ≡ Phase.Authenticating → self.old.grants ≡ [] }
        ensures answer { IfOk result (λ outcome. outcome_in message.now outcome ≡ (signed_step true message.now now self.old).0) }
        ensures part { IfOk result (IsPart message.now self.old self.new) }
        ensures after { OnOk result (self.new ≡ (signed_step true message.now now self.old).1) }
        ensures err { OnErr result (self.new ≡ self.old) }
        ensures wanted { OnErr result (ReplyWantsMemory message.now self.old) }
    {
        if self.is_authenticating() {
            self.allocate_granted(message, now)?;
            return Ok(TurnProtocolRecv::Handled);
        }
        self.respond(message, true, now)
    }

    /// Processes a signed error response to an outstanding request.
    ///
    /// # Errors
    ///
    /// If memory allocation fails. Nothing changes then.
    fn failed(
        &mut self,
        message: &Message<'_>,
        now: Instant,
    ) -> Result<TurnProtocolRecv, AllocError>
        requires { self.old.phase ≡ Phase.Authenticating → is_outstanding (id_of message.now) self.old.transactions ≡ true }
        ensures answer { IfOk result (λ outcome. outcome_in message.now outcome ≡ (signed_step false message.now now self.old).0) }
        ensures part { IfOk result (IsPart message.now self.old self.new) }
        ensures after { OnOk result (self.new ≡ (signed_step false message.now now self.old).1) }
        ensures err { OnErr result (self.new ≡ self.old) }
        ensures wanted { OnErr result (ReplyWantsMemory message.now self.old) }
    {
        if self.is_authenticating() {
            self.allocate_denied(message, now)?;
            return Ok(TurnProtocolRecv::Handled);
        }
        self.respond(message, false, now)
    }

    /// Whether a signed ALLOCATE awaits its response.
    fn is_authenticating(&self) -> bool
        ensures { result ≡ is_authenticating self.now.phase }
    {
        self.phase == Phase::Authenticating
    }
}

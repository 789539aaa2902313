//! A challenge is answered: the request is made again, signed as the server requires (RFC 8489, section
//! 9.2.5).

ghost use Rattle.std.specs.Prelude.{◌≡◌, ◌<◌, ◌≤◌, false, IfOk, IsSome, OnErr, OnOk, Some, true};
ghost use Rattle.turn_agent.specs.Agent.{is_outstanding};
ghost use Rattle.turn_auth.specs.Challenge.{MayTake};
ghost use Rattle.turn_auth.specs.LongTerm.{with_challenge};
ghost use Rattle.turn_client_api.specs.Grants.{purposes_of};
ghost use Rattle.turn_client_api.specs.Judgement.{challenge_in};
ghost use Rattle.turn_client_api.specs.Memory.{challenge_takes_memory};
ghost use Rattle.turn_client_api.specs.Payloads.{challenge_step};
ghost use Rattle.turn_client_api.specs.Retry.{phase_after, retried, state_after_retry};
ghost use Rattle.turn_client_api.specs.State.{State, auth_of};
ghost use Rattle.turn_client_core.specs.Outgoing.{request_queued, with_room};
ghost use Rattle.turn_client_core.specs.ProtocolRecv.{IsPart, outcome_in};
ghost use Rattle.turn_client_grants.specs.Ledger.{SameRoomBut, with_ledger};
ghost use Rattle.turn_client_requests.specs.RequestAttributes.{IsRequestFor};
ghost use Rattle.turn_stun.specs.Message.{id_of};

use crate::answered_purposes::retried;
use crate::outbox::Outbox;
use crate::protocol::TurnClientProtocol;
use crate::protocol_recv::TurnProtocolRecv;
use std::alloc::{AllocError, Global};
use std::net::SocketAddr;
use turn_auth::long_term::LongTermClientAuth;
use turn_auth::received_challenge::ReceivedChallenge;
use turn_auth::server_challenge::ServerChallenge;
use turn_client_api::{Phase, Purpose};
use turn_client_grants::GrantLedger;
use turn_client_requests::request_under;
use turn_stun::data::Data;
use turn_stun::instant::Instant;
use turn_stun::message::Message;
use turn_stun::transaction::TransactionId;
use turn_stun::transport::TransportType;
use turn_types::AddressFamily;

impl TurnClientProtocol {
    /// Answers the challenge, or ends the client if it is one too many. A challenge that concerns no
    /// request over the control connection is ignored unless it is one too many.
    ///
    /// # Errors
    ///
    /// If memory allocation fails. Nothing changes then, and the values of earlier challenges are kept.
    /// A challenge that is ignored allocates none.
    pub(crate) fn challenged(
        &mut self,
        message: &Message<'_>,
        challenge: &ReceivedChallenge<'_>,
        now: Instant,
    ) -> Result<TurnProtocolRecv, AllocError>
        requires { challenge_in self.old message.now ≡ Some challenge.now }
        ensures answer { IfOk result (λ outcome. outcome_in message.now outcome ≡ (challenge_step message.now challenge.now now self.old).0) }
        ensures part { IfOk result (IsPart message.now self.old self.new) }
        ensures after { OnOk result (self.new ≡ (challenge_step message.now challenge.now now self.old).1) }
        ensures err { OnErr result (self.new ≡ self.old) }
        ensures wanted { OnErr result (challenge_takes_memory message.now self.old ≡ true) }
    {
        if self.challenges < u32::from(self.config.max_stale_nonces().get()) {
            return self.answer_challenge(message, challenge, now);
        }
        self.fail()?;
        Ok(TurnProtocolRecv::Handled)
    }

    /// Answers the challenge if its ID is listed for something that is requested over the control
    /// connection. Memory is allocated only then.
    ///
    /// # Errors
    ///
    /// If memory allocation fails. Nothing changes then.
    fn answer_challenge(
        &mut self,
        message: &Message<'_>,
        challenge: &ReceivedChallenge<'_>,
        now: Instant,
    ) -> Result<TurnProtocolRecv, AllocError>
        requires challenge { challenge_in self.old message.now ≡ Some challenge.now }
        requires few { self.old.challenges < self.old.config.max_stale_nonces }
        requires small { self.old.challenges < 65535 }
        ensures answer { IfOk result (λ outcome. outcome_in message.now outcome ≡ (challenge_step message.now challenge.now now self.old).0) }
        ensures part { IfOk result (IsPart message.now self.old self.new) }
        ensures after { OnOk result (self.new ≡ (challenge_step message.now challenge.now now self.old).1) }
        ensures err { OnErr result (self.new ≡ self.old) }
        ensures wanted { OnErr result (IsSome (retried (purposes_of (id_of message.now) self.old))) }
    {
        let id = message.transaction_id();
        let purposes = self.ledger.table().purposes_of(id);
        let Some(purpose) = retried(&purposes) else {
            return Ok(TurnProtocolRecv::Ignored);
        };
        self.ask_again(id, challenge, &purpose, now)?;
        Ok(TurnProtocolRecv::Handled)
    }

    /// Accepts the challenge, and makes the request with this ID again for this purpose. The old request
    /// is no longer outstanding.
    ///
    /// # Errors
    ///
    /// If memory allocation fails. Nothing changes then.
    fn ask_again(
        &mut self,
        id: TransactionId,
        challenge: &ReceivedChallenge<'_>,
        purpose: &Purpose,
        now: Instant,
    ) -> Result<(), AllocError>
        requires fits { MayTake (auth_of self.old) challenge.now }
        requires few { self.old.challenges < self.old.config.max_stale_nonces }
        requires small { self.old.challenges < 65535 }
        requires asked { retried (purposes_of id self.old) ≡ Some purpose.now }
        ensures ok { OnOk result (self.new ≡ state_after_retry self.old id purpose.now challenge.now now) }
        ensures err { OnErr result (self.new ≡ self.old) }
    {
        let fresh = self.fresh_id();
        let signed = request_again(
            self.alloc,
            &self.auth,
            self.ledger.transport(),
            self.families.as_slice(),
            challenge,
            purpose,
            fresh,
        )?;
        let from = self.local_addr();
        let waits_from = self.waits_from(now);
        let challenge = queue_again(
            &mut self.ledger,
            &mut self.outbox,
            fresh,
            signed,
            from,
            waits_from,
        )?;
        self.outbox.end(id);
        self.ledger.ask_again(id, fresh);
        self.auth.accept(challenge);
        self.phase = after_challenge(self.phase);
        self.challenges += 1;
        Ok(())
    }
}

/// The challenge for the client to hold, and the request with this ID for the purpose, signed as it requires.
///
/// # Errors
///
/// `AllocError` if memory allocation fails.
pub(crate) fn request_again(
    alloc: Global,
    auth: &LongTermClientAuth,
    transport: TransportType,
    families: &[AddressFamily],
    challenge: &ReceivedChallenge<'_>,
    purpose: &Purpose,
    id: TransactionId,
) -> Result<(ServerChallenge, Data), AllocError>
    requires { IsSome auth.now.credentials }
    ensures exact { IfOk result (λ signed. signed.0 ≡ challenge.now) }
    ensures text { IfOk result (λ signed. IsRequestFor (with_challenge challenge.now auth.now) transport families.now purpose.now id signed.1) }
{
    let accepted = challenge.copied(alloc)?;
    let text = request_under(alloc, auth, &accepted, transport, families, purpose, id)?;
    Ok((accepted, text))
}

/// Makes room for two listings, and queues a signed request with this ID, the next one, to be sent from
/// this local address, and to wait for its response from that time on. Returns the challenge under which
/// it is signed.
///
/// # Errors
///
/// `AllocError` if memory allocation fails. Only the room may change then.
pub(crate) fn queue_again(
    ledger: &mut GrantLedger,
    outbox: &mut Outbox,
    id: TransactionId,
    signed: (ServerChallenge, Data),
    from: SocketAddr,
    waits_from: Instant,
) -> Result<ServerChallenge, AllocError>
    requires { is_outstanding id outbox.old.transactions ≡ false }
    ensures challenge { IfOk result (λ challenge. challenge ≡ signed.0) }
    ensures same { (s : State) → with_ledger ledger.new s ≡ with_ledger ledger.old s }
    ensures listing_room { OnOk result (2 ≤ ledger.new.listing_room) }
    ensures room { SameRoomBut 0 0 ledger.old ledger.new }
    ensures ok { OnOk result (outbox.new ≡ with_room outbox.new.room (request_queued id from signed.1 waits_from outbox.old)) }
    ensures err { OnErr result (outbox.new ≡ with_room outbox.new.room outbox.old) }
{
    let (challenge, text) = signed;
    ledger.reserve(0, 2, 0, 0)?;
    outbox.ask(id, text, from, waits_from)?;
    Ok(challenge)
}

/// The phase after the answer to a challenge: the first ALLOCATE is signed then.
fn after_challenge(phase: Phase) -> Phase
    ensures { result ≡ phase_after phase }
{
    match phase {
        Phase::Requesting => Phase::Authenticating,
        Phase::New => Phase::New,
        Phase::Authenticating => Phase::Authenticating,
        Phase::Allocated => Phase::Allocated,
        Phase::Closed => Phase::Closed,
    }
}

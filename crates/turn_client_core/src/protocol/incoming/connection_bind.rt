//! A data connection is bound, or its binding fails (RFC 6062, section 4.3).

ghost use Rattle.std.specs.Prelude.{◌≡◌, ℕ, find, true, IfOk, OnErr, OnOk, Some};
ghost use Rattle.turn_auth.specs.Challenge.{MayTake};
ghost use Rattle.turn_client_api.specs.Connections.{bind_again, bind_answered, bind_step, bound, connection_at, not_bound};
ghost use Rattle.turn_client_api.specs.Effect.{transaction_ended};
ghost use Rattle.turn_client_api.specs.Grants.{purposes_of};
ghost use Rattle.turn_client_api.specs.Judgement.{bind_judgement, is_bind_of};
ghost use Rattle.turn_client_api.specs.Memory.{bind_takes_memory, keeps_connection};
ghost use Rattle.turn_client_api.specs.State.{auth_of};
ghost use Rattle.turn_client_core.specs.Apart.{with_streams_of};
ghost use Rattle.turn_client_laws.specs.StreamEffects.{binds_if, binds_to};
ghost use Rattle.turn_stun.specs.Message.{id_of};

use crate::protocol::TurnClientProtocol;
use crate::protocol::incoming::challenge::{queue_again, request_again};
use crate::protocol::incoming::judge::Judged;
use std::alloc::AllocError;
use std::net::SocketAddr;
use turn_auth::received_challenge::ReceivedChallenge;
use turn_client_api::{DataConnection, Purpose};
use turn_stun::instant::Instant;
use turn_stun::message::Message;
use turn_stun::transaction::TransactionId;
use turn_types::message::CONNECTION_BIND;

impl TurnClientProtocol {
    /// Processes a message on the data connection from this local address, and returns the peer to which the
    /// server binds it, if it does: what follows on its stream is that peer's data. If there is no such
    /// connection, the message has another method than CONNECTION_BIND, or the client has ended, nothing
    /// changes.
    ///
    /// # Errors
    ///
    /// If memory allocation fails, to bind the connection or to request that again. Nothing changes
    /// then.
    pub fn bind_step(
        &mut self,
        local: SocketAddr,
        message: &Message<'_>,
        now: Instant,
    ) -> Result<Option<SocketAddr>, AllocError>
        ensures ok { OnOk result (self.new ≡ with_streams_of self.old (bind_step local message.now now self.old)) }
        ensures peer { IfOk result (λ peer. peer ≡ binds_to local message.now self.old) }
        ensures err { OnErr result (self.new ≡ self.old) }
        ensures wanted { OnErr result (bind_takes_memory local message.now self.old ≡ true) }
    {
        if !self.is_allocated() {
            return Ok(None);
        }
        let Some(connection) = self.ledger.table().connection_at(local) else {
            return Ok(None);
        };
        if message.method() != CONNECTION_BIND {
            return Ok(None);
        }
        self.bind_answered(&connection, message, now)
    }

    /// Processes a message on a data connection that waits to be bound, and returns its peer if the message
    /// binds it.
    ///
    /// # Errors
    ///
    /// If memory allocation fails, to bind it or to request that again. Nothing changes then.
    fn bind_answered(
        &mut self,
        connection: &DataConnection,
        message: &Message<'_>,
        now: Instant,
    ) -> Result<Option<SocketAddr>, AllocError>
        requires there { connection_at connection.now.local self.old ≡ Some connection.now }
        ensures ok { OnOk result (self.new ≡ with_streams_of self.old (bind_answered connection.now message.now now self.old)) }
        ensures peer { IfOk result (λ peer. peer ≡ binds_if connection.now (bind_judgement self.old connection.now.local message.now)) }
        ensures err { OnErr result (self.new ≡ self.old) }
        ensures wanted { OnErr result (keeps_connection (bind_judgement self.old connection.now.local message.now) ≡ true) }
    {
        match self.judge_bind(connection.local, message) {
            Judged::Challenged(challenge) => {
                self.bind_again(connection, message.transaction_id(), &challenge, now)?;
                Ok(None)
            }
            Judged::SignedSuccess => {
                self.bound(connection, message)?;
                Ok(Some(connection.peer))
            }
            Judged::SignedError => {
                self.bind_refused(connection, message);
                Ok(None)
            }
            _ => {
                self.ledger.not_bound(connection);
                Ok(None)
            }
        }
    }

    /// The server bound the connection with this message. Its stream is left to the caller.
    ///
    /// # Errors
    ///
    /// If memory allocation fails. Nothing changes then.
    fn bound(
        &mut self,
        connection: &DataConnection,
        message: &Message<'_>,
    ) -> Result<(), AllocError>
        ensures ok { OnOk result (self.new ≡ with_streams_of self.old (bound connection.now (transaction_ended (id_of message.now) self.old))) }
        ensures err { OnErr result (self.new ≡ self.old) }
    {
        // Keeps the room for the failure events of families that are still requested.
        let Some(events) = self.families.len().checked_add(1) else {
            return Err(AllocError);
        };
        self.ledger.reserve(0, 0, events, 0)?;
        self.outbox.end(message.transaction_id());
        self.ledger.bound(connection);
        Ok(())
    }

    /// The server did not bind the connection, as this message says. Allocates no memory.
    fn bind_refused(&mut self, connection: &DataConnection, message: &Message<'_>)
        requires { connection_at connection.now.local self.old ≡ Some connection.now }
        ensures { self.new ≡ not_bound connection.now (transaction_ended (id_of message.now) self.old) }
    {
        // A signed error ends the transaction too (our choice): the request was answered.
        self.outbox.end(message.transaction_id());
        self.ledger.not_bound(connection);
    }

    /// Accepts the challenge to the request with this ID, and requests the binding of the connection again,
    /// if the request was for that. The old request stays outstanding, and the challenge is not
    /// counted: each concerns one connection, not the client (our choice).
    ///
    /// # Errors
    ///
    /// If memory allocation fails. Nothing changes then.
    fn bind_again(
        &mut self,
        connection: &DataConnection,
        id: TransactionId,
        challenge: &ReceivedChallenge<'_>,
        now: Instant,
    ) -> Result<(), AllocError>
        requires { MayTake (auth_of self.old) challenge.now }
        ensures ok { OnOk result (self.new ≡ bind_again connection.now id challenge.now now self.old) }
        ensures err { OnErr result (self.new ≡ self.old) }
    {
        let Some(purpose) = self.ledger.table().bind_purpose(id, connection.local) else {
            return Ok(());
        };
        self.ask_bind(connection, challenge, &purpose, now)
    }

    /// Accepts the challenge, and makes the request for this purpose again: to bind the connection.
    ///
    /// # Errors
    ///
    /// If memory allocation fails. Nothing changes then.
    fn ask_bind(
        &mut self,
        connection: &DataConnection,
        challenge: &ReceivedChallenge<'_>,
        purpose: &Purpose,
        now: Instant,
    ) -> Result<(), AllocError>
        requires fits { MayTake (auth_of self.old) challenge.now }
        ensures ok { (id : ℕ) → find (is_bind_of connection.now.local) (purposes_of id self.old) ≡ Some purpose.now
            → OnOk result (self.new ≡ bind_again connection.now id challenge.now now self.old) }
        ensures err { OnErr result (self.new ≡ self.old) }
    {
        let fresh = self.fresh_id();
        let from = self.sent_from(purpose);
        let signed = request_again(
            self.alloc,
            &self.auth,
            self.ledger.transport(),
            self.families.as_slice(),
            challenge,
            purpose,
            fresh,
        )?;
        let waits_from = self.waits_from(now);
        let challenge = queue_again(
            &mut self.ledger,
            &mut self.outbox,
            fresh,
            signed,
            from,
            waits_from,
        )?;
        self.ledger
            .bind_again(connection.local, fresh, *purpose, now);
        self.auth.accept(challenge);
        Ok(())
    }
}

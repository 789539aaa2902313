//! What a message is on a data connection that waits to be bound (RFC 6062, section 4.3).

ghost use Rattle.std.specs.List.{list_any};
ghost use Rattle.std.specs.Prelude.{◌≡◌, ◌&&◌};
ghost use Rattle.turn_agent.specs.Agent.{is_response};
ghost use Rattle.turn_client_api.specs.Grants.{purposes_of};
ghost use Rattle.turn_client_api.specs.Judgement.{bind_judgement, class_in, is_bind_of};
ghost use Rattle.turn_client_core.specs.Judged.{judgement_in};
ghost use Rattle.turn_stun.specs.Message.{id_of};

use crate::protocol::TurnClientProtocol;
use crate::protocol::incoming::judge::Judged;
use std::net::SocketAddr;
use turn_auth::Verdict;
use turn_stun::message::Message;

impl TurnClientProtocol {
    /// What the message is to the data connection from this local address, which waits to be bound:
    /// only a signed success response to its CONNECTION_BIND binds it. Allocates no memory, and
    /// computes no digest for a message that answers no such request.
    #[tactic(auto, using(crate::proofs::AuthLemmas::signs_as))]
    pub(crate) fn judge_bind<'a>(&self, local: SocketAddr, message: &Message<'a>) -> Judged<'a>
        ensures { judgement_in result ≡ bind_judgement self.now local message.now }
    {
        if !self.answers_bind(local, message) {
            return Judged::Fatal;
        }
        match self.auth.judge(message) {
            Verdict::Signed(_) => self.signed_or(message, Judged::Fatal),
            Verdict::Challenge(challenge) => Judged::Challenged(challenge),
            Verdict::Refused { .. } => Judged::Fatal,
        }
    }

    /// Whether the message is a response to a request to bind the data connection from this local
    /// address.
    fn answers_bind(&self, local: SocketAddr, message: &Message<'_>) -> bool
        ensures { result ≡ (is_response (class_in message.now) && list_any (is_bind_of local) (purposes_of (id_of message.now) self.now)) }
    {
        message.is_response()
            && self
                .ledger
                .table()
                .bind_purpose(message.transaction_id(), local)
                .is_some()
    }
}

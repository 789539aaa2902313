//! What a message of the server is to a client (RFC 8489, sections 6.3 and 9.2.5; RFC 8656, section 11).

ghost use Rattle.std.specs.Prelude.{◌≡◌};
ghost use Rattle.turn_client_api.specs.Judgement.{allocated_judgement, answers_allocate, answers_one, authenticating_judgement, challenge_in, challenged_or};
ghost use Rattle.turn_client_api.specs.Judgement.{indication_judgement, judgement_of, requesting_judgement};
ghost use Rattle.turn_client_core.specs.Judged.{judgement_in, signed_judgement};
ghost use Rattle.turn_stun.specs.Message.{type_of};
ghost use Rattle.turn_stun.specs.MessageType.{class_of};

use crate::protocol::TurnClientProtocol;
use turn_auth::{ReceivedChallenge, Verdict};
use turn_client_api::Phase;
use turn_stun::message::Message;
use turn_stun::message::header::MessageClass;
use turn_types::message::{CONNECTION_ATTEMPT, DATA};

/// What a message is to a client.
#[derive(Drop)]
pub(crate) enum Judged<'a> {
    /// It is not for the client, or contains nothing that the client can trust.
    Unrelated,
    /// A challenge: the server requires another signature. What it contains is read once, here.
    Challenged(ReceivedChallenge<'a>),
    /// It ends the client, or the data connection that it came over.
    Fatal,
    /// A signed reply to a request that is no longer outstanding.
    LateResponse,
    /// A Data indication.
    DataIndication,
    /// A ConnectionAttempt that is an indication.
    ConnectionAttempt,
    /// A signed request.
    SignedRequest,
    /// A signed success response to an outstanding request.
    SignedSuccess,
    /// A signed error response to an outstanding request.
    SignedError,
}

impl TurnClientProtocol {
    /// What the message is in the phase of the client. Allocates no memory, and computes no digest for
    /// a response that concerns no request. The attributes are walked at most twice: for the contents
    /// of a challenge, and for the integrity or the algorithms that a first challenge offers.
    pub(crate) fn judge<'a>(&self, message: &Message<'a>) -> Judged<'a>
        ensures { judgement_in result ≡ judgement_of self.now message.now }
    {
        match self.phase {
            Phase::New => Judged::Unrelated,
            Phase::Requesting => self.judge_requesting(message),
            Phase::Authenticating => self.judge_authenticating(message),
            Phase::Allocated => self.judge_allocated(message),
            Phase::Closed => Judged::Unrelated,
        }
    }

    /// What the message is to a client whose first ALLOCATE is outstanding.
    fn judge_requesting<'a>(&self, message: &Message<'a>) -> Judged<'a>
        ensures { judgement_in result ≡ requesting_judgement self.now message.now }
    {
        if !self.answers_one(message) {
            return Judged::Unrelated;
        }
        self.challenged_or(message, Judged::Fatal)
    }

    /// What the message is to a client whose signed ALLOCATE is outstanding.
    #[tactic(auto, using(crate::proofs::AuthLemmas::signs_as))]
    fn judge_authenticating<'a>(&self, message: &Message<'a>) -> Judged<'a>
        ensures { judgement_in result ≡ authenticating_judgement self.now message.now }
    {
        if !self.answers_allocate(message) {
            return Judged::Unrelated;
        }
        match self.auth.judge(message) {
            Verdict::Signed(_) => self.signed_or(message, Judged::LateResponse),
            Verdict::Challenge(challenge) => Judged::Challenged(challenge),
            Verdict::Refused { integrity } => {
                if integrity {
                    Judged::Fatal
                } else {
                    Judged::Unrelated
                }
            }
        }
    }

    /// What the message is to a client with an allocation.
    #[tactic(auto, using(crate::proofs::AuthLemmas::signs_as))]
    fn judge_allocated<'a>(&self, message: &Message<'a>) -> Judged<'a>
        ensures { judgement_in result ≡ allocated_judgement self.now message.now }
    {
        match message.class() {
            MessageClass::Indication => indication(message),
            MessageClass::Request => match self.auth.judge(message) {
                Verdict::Signed(_) => Judged::SignedRequest,
                Verdict::Challenge(_) => Judged::Unrelated,
                Verdict::Refused { .. } => Judged::Unrelated,
            },
            MessageClass::Success => self.judge_success(message),
            MessageClass::Error => self.judge_error(message),
        }
    }

    /// What a success response is to a client with an allocation.
    #[tactic(auto, using(crate::proofs::AuthLemmas::signs_as))]
    fn judge_success<'a>(&self, message: &Message<'a>) -> Judged<'a>
        requires { class_of (type_of message.now) ≡ MessageClass.Success }
        ensures { judgement_in result ≡ allocated_judgement self.now message.now }
    {
        if !self.outbox.agent().is_outstanding(message.transaction_id()) {
            return Judged::Unrelated;
        }
        match self.auth.judge(message) {
            Verdict::Signed(_) => Judged::SignedSuccess,
            Verdict::Challenge(_) => Judged::Unrelated,
            Verdict::Refused { .. } => Judged::Unrelated,
        }
    }

    /// What an error response is to a client with an allocation.
    #[tactic(auto, using(crate::proofs::AuthLemmas::signs_as))]
    fn judge_error<'a>(&self, message: &Message<'a>) -> Judged<'a>
        requires { class_of (type_of message.now) ≡ MessageClass.Error }
        ensures { judgement_in result ≡ allocated_judgement self.now message.now }
    {
        if !self.outbox.agent().is_outstanding(message.transaction_id()) {
            return self.challenged_or(message, Judged::Unrelated);
        }
        match self.auth.judge(message) {
            Verdict::Signed(_) => Judged::SignedError,
            Verdict::Challenge(challenge) => Judged::Challenged(challenge),
            Verdict::Refused { .. } => Judged::Unrelated,
        }
    }

    /// What a signed message is by its class, if its request is outstanding, or else `otherwise`.
    pub(crate) fn signed_or<'a>(&self, message: &Message<'_>, otherwise: Judged<'a>) -> Judged<'a>
        ensures { judgement_in result ≡ signed_judgement message.now self.now (judgement_in otherwise.entry) }
    {
        if !self.outbox.agent().is_outstanding(message.transaction_id()) {
            return otherwise;
        }
        match message.class() {
            MessageClass::Request => Judged::SignedRequest,
            MessageClass::Indication => Judged::Unrelated,
            MessageClass::Success => Judged::SignedSuccess,
            MessageClass::Error => Judged::SignedError,
        }
    }

    /// Whether the message is a response to an outstanding request.
    fn answers_one(&self, message: &Message<'_>) -> bool
        ensures { result ≡ answers_one self.now message.now }
    {
        message.is_response() && self.outbox.agent().is_outstanding(message.transaction_id())
    }

    /// Whether the message is a response to an ALLOCATE.
    fn answers_allocate(&self, message: &Message<'_>) -> bool
        ensures { result ≡ answers_allocate self.now message.now }
    {
        message.is_response()
            && self
                .ledger
                .table()
                .purposes_of(message.transaction_id())
                .is_for_allocation()
    }

    /// The challenge in the message, or else `otherwise`. Computes no digest.
    fn challenged_or<'a>(&self, message: &Message<'a>, otherwise: Judged<'a>) -> Judged<'a>
        ensures { judgement_in result ≡ challenged_or (judgement_in otherwise.entry) (challenge_in self.now message.now) }
    {
        match self.auth.read_challenge(message) {
            Some(challenge) => Judged::Challenged(challenge),
            None => otherwise,
        }
    }
}

/// What an indication is to a client with an allocation.
fn indication<'a>(message: &Message<'a>) -> Judged<'a>
    ensures { judgement_in result ≡ indication_judgement message.now }
{
    let method = message.method();
    if method == DATA {
        return Judged::DataIndication;
    }
    if method == CONNECTION_ATTEMPT {
        return Judged::ConnectionAttempt;
    }
    Judged::Unrelated
}

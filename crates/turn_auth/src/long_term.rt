//! The client's side of the long-term credential mechanism (RFC 8489, section 9.2).

ghost use Rattle.std.specs.Prelude.{◌≡◌, ◌≤◌, length, true, [], ◌∷◌, Some, None, is_some, option_map, ◌↔◌, IsTrue, IsSome, IsNone, IsSomeAnd, IfOk, IfSome};
ghost use Rattle.std.specs.Prelude.{OnOk, OnErr};
ghost use Rattle.turn_auth.specs.LongTerm.{Challenge, with_challenge, with_algorithm};
ghost use Rattle.turn_auth.specs.Challenge.{IsChallenge, MayTake, challenge_of};
ghost use Rattle.turn_auth.specs.Validation.{IsResendRequest, IsSigned, IsValidated, validation_of};
ghost use Rattle.turn_auth.specs.Verdict.{challenge_read, validation_in};
ghost use Rattle.turn_auth.specs.Signature.{is_unsigned, signature_len, signed_len, signed_text};
ghost use Rattle.turn_stun.specs.Message.{type_of, id_of, attributes_of};
ghost use Rattle.turn_stun.specs.declared.message.header.MessageClass.{MessageClass};
ghost use Rattle.turn_stun.specs.declared.message.header.MessageClass.TheVariants.{Request, Success, Error};

use crate::challenge::{Denial, supports};
use crate::credentials::TurnCredentials;
use crate::feature::Feature;
use crate::held::Held;
use crate::integrity::IntegrityAlgorithm;
use crate::received_challenge::ReceivedChallenge;
use crate::server_challenge::ServerChallenge;
use crate::signature::sign;
use crate::validation::{Validation, Verdict};
use smallvec::SmallVec;
use std::alloc::{AllocError, Global};
use std::fmt;
use std::marker::Model;
use turn_stun::message::Message;
use turn_stun::message::header::MessageClass;
use turn_stun::message::write::MessageWriteVec;

/// A client that signs its requests with a user name and a password, and judges what it receives (RFC 8489,
/// section 9.2).
///
/// Contracts see its configuration, and what it holds since a challenge: a realm and an algorithm,
/// which never change then, and a nonce. Debug prints no password and no key.
#[derive(Drop)]
pub struct LongTermClientAuth {
    alloc: Global,
    credentials: Option<TurnCredentials>,
    supported: SmallVec<IntegrityAlgorithm, 2>,
    anonymous_username: Feature,
    held: Option<Held>,
}

impl Model for LongTermClientAuth {
    ghost use Rattle.turn_auth.specs.LongTerm.{ClientAuth};

    ghost Value = { ClientAuth };

    ghost use Rattle.turn_auth.specs.Kept.{auth_view, IsSound};

    ghost view = { auth_view };

    ghost invariant = { IsSound };
}

impl LongTermClientAuth {
    /// A client with no credentials, which holds nothing: SHA-1 is configured, and `Feature::Auto` for the
    /// user name.
    pub fn new(alloc: Global) -> LongTermClientAuth
        ensures { result ≡ record {
          credentials = None;
          supported = IntegrityAlgorithm.Sha1 ∷ [];
          anonymous_username = Feature.Auto;
          held = None;
        } }
    {
        LongTermClientAuth {
            alloc,
            credentials: None,
            supported: SmallVec::from_slice(alloc, &[IntegrityAlgorithm::Sha1]).unwrap(),
            anonymous_username: Feature::Auto,
            held: None,
        }
    }

    /// Sets the credentials. A key that is kept is made anew.
    pub fn set_credentials(&mut self, credentials: TurnCredentials)
        ensures { self.new ≡ record self.old { credentials = Some credentials } }
    {
        if let Some(held) = &mut self.held {
            held.key = held.challenge.key(&credentials);
        }
        self.credentials = Some(credentials);
    }

    /// The credentials that were set.
    pub fn credentials(&self) -> Option<&TurnCredentials>
        ensures { option_map (λ credentials. credentials.now) result ≡ self.now.credentials }
    {
        self.credentials.as_ref()
    }

    /// Makes this algorithm the only one that a challenge may select.
    pub fn set_supported_integrity(&mut self, algorithm: IntegrityAlgorithm)
        ensures { self.new ≡ record self.old { supported = algorithm ∷ [] } }
    {
        self.supported = SmallVec::from_slice(self.alloc, &[algorithm]).unwrap();
    }

    /// Adds an algorithm that a challenge may select, if it is not among them yet.
    pub fn add_supported_integrity(&mut self, algorithm: IntegrityAlgorithm)
        ensures { self.new ≡ record self.old { supported = with_algorithm self.old.supported algorithm } }
    {
        if !supports(self.supported.as_slice(), algorithm) {
            self.supported.push_reserved(algorithm);
        }
    }

    /// Sets whether requests hide the user name.
    pub fn set_anonymous_username(&mut self, anonymous_username: Feature)
        ensures { self.new ≡ record self.old { anonymous_username = anonymous_username } }
    {
        self.anonymous_username = anonymous_username;
    }

    /// Whether the message is a challenge, is signed under what the client holds, or is refused. Allocates
    /// no memory, and copies nothing of the message.
    ///
    /// A challenge is judged before any integrity attribute (our choice: the first one cannot be
    /// signed, RFC 8489, section 9.2.5).
    #[tactic(auto, using(crate::proofs::ChallengeLemmas::challenge_of_is))]
    pub fn validate_incoming_message(&self, message: &Message<'_>) -> Validation
        ensures exact { result ≡ validation_of self.now message.now }

        // `ResendRequest` means a challenge, and what is valid is signed and no challenge.
        ensures resend { IsResendRequest result ↔ IsSome (challenge_of self.now message.now) }
        ensures validated { IsValidated result ↔ (IsNone (challenge_of self.now message.now) × IsSigned self.now message.now) }

        // The function that computes a challenge agrees with the definition of one.
        ensures challenge { (challenge : Challenge) → (challenge_of self.now message.now ≡ Some challenge) ↔ IsChallenge self.now message.now challenge }
    {
        self.judge(message).validation()
    }

    /// The same judgement, with the challenge that was read: it is read once, for who answers it.
    pub fn judge<'a>(&self, message: &Message<'a>) -> Verdict<'a>
        ensures exact { validation_in result ≡ validation_of self.now message.now }
        ensures challenge { challenge_read result ≡ challenge_of self.now message.now }
    {
        if let Some(challenge) = self.read_challenge(message) {
            return Verdict::Challenge(challenge);
        }
        match &self.held {
            Some(held) => held.judge(message),
            None => Verdict::Refused { integrity: false },
        }
    }

    /// Whether the message is a challenge. Computes no digest and allocates no memory.
    pub fn is_challenge(&self, message: &Message<'_>) -> bool
        ensures { result ≡ is_some (challenge_of self.now message.now) }
    {
        self.read_challenge(message).is_some()
    }

    /// The challenge in the message, borrowed from it, or `None` if it is none. Computes no digest and
    /// allocates no memory.
    pub fn read_challenge<'a>(&self, message: &Message<'a>) -> Option<ReceivedChallenge<'a>>
        ensures exact { result ≡ challenge_of self.now message.now }
        ensures fits { IfSome result (λ challenge. MayTake self.now challenge) }
    {
        if self.credentials.is_none() {
            return None;
        }
        let denial = Denial::in_message(message)?;
        match &self.held {
            None => {
                ReceivedChallenge::first(self.alloc, &denial, self.supported.as_slice(), message)
            }
            Some(held) => ReceivedChallenge::later(self.alloc, &denial, &held.challenge),
        }
    }

    /// Accepts a challenge: its nonce, and if nothing is held yet its realm and its algorithm, which never
    /// change then.
    ///
    /// # Errors
    ///
    /// If memory allocation fails. All is then as before.
    pub fn take_challenge(&mut self, message: &Message<'_>) -> Result<(), AllocError>
        requires { IsSome (challenge_of self.old message.now) }
        ensures ok { OnOk result (self.new ≡ record self.old { held = challenge_of self.old message.now }) }
        ensures kept { IfSome self.old.held (λ old. IsSomeAnd self.new.held (λ new. (new.realm ≡ old.realm) × (new.algorithm ≡ old.algorithm))) }
        ensures err { OnErr result (self.new ≡ self.old) }
    {
        let Some(challenge) = self.challenge_in(message)? else {
            unreachable!();
        };
        self.accept(challenge);
        Ok(())
    }

    /// The challenge in the message, or `None` if it is none. The client holds nothing of it before it
    /// accepts it: a request that is signed under it first can fail and leave the client unchanged.
    ///
    /// # Errors
    ///
    /// If memory allocation fails.
    pub fn challenge_in(&self, message: &Message<'_>) -> Result<Option<ServerChallenge>, AllocError>
        ensures exact { IfOk result (λ found. found ≡ challenge_of self.now message.now) }
        ensures fits { IfOk result (λ found. IfSome found (λ challenge. MayTake self.now challenge)) }
    {
        match self.read_challenge(message) {
            Some(challenge) => Ok(Some(challenge.copied(self.alloc)?)),
            None => Ok(None),
        }
    }

    /// Accepts a challenge, as [`LongTermClientAuth::take_challenge`] does. Allocates no memory.
    pub fn accept(&mut self, challenge: ServerChallenge)
        requires { MayTake self.old challenge }
        ensures taken { self.new ≡ with_challenge challenge self.old }
        ensures kept { IfSome self.old.held (λ old. (challenge.realm ≡ old.realm) × (challenge.algorithm ≡ old.algorithm)) }
    {
        let Some(credentials) = &self.credentials else {
            unreachable!();
        };
        match &mut self.held {
            Some(held) => held.challenge = challenge,
            None => {
                self.held = Some(Held {
                    key: challenge.key(credentials),
                    challenge,
                });
            }
        }
    }

    /// Whether a realm is held, without which nothing can be signed.
    pub fn has_realm(&self) -> bool
        ensures { IsTrue result ↔ IsSome self.now.held }
    {
        self.held.is_some()
    }

    /// Signs the message: to a request it adds the user, the realm, the nonce, with SHA-256 the password
    /// algorithms, and the integrity, in this order; to any other message the integrity alone (RFC 8489,
    /// section 9.2.4). The bytes before it stay, but for the length in the header. For a message with the
    /// room that `message_signature_bytes` and `reply_signature_bytes` return, no memory is allocated.
    ///
    /// # Errors
    ///
    /// If memory allocation fails. The message is then as before.
    pub fn sign_outgoing_message(&self, message: &mut MessageWriteVec) -> Result<(), AllocError>
        requires held { IsSome self.now.held }
        requires unsigned { is_unsigned (attributes_of message.old) ≡ true }
        requires room { signed_len self.now message.old ≤ 65552 }
        ensures text { OnOk result (message.new ≡ signed_text self.now message.old) }
        ensures signed { OnOk result (IsSigned self.now message.new) }
        ensures len { OnOk result (length message.new ≡ signed_len self.now message.old) }
        ensures same_type { OnOk result (type_of message.new ≡ type_of message.old) }
        ensures same_id { OnOk result (id_of message.new ≡ id_of message.old) }
        ensures err { OnErr result (message.new ≡ message.old) }
    {
        let (Some(credentials), Some(held)) = (&self.credentials, &self.held) else {
            unreachable!();
        };
        sign(
            message,
            self.anonymous_username,
            credentials,
            &held.challenge,
            &held.key,
        )
    }

    /// Signs the message as the client would once it accepted the challenge.
    ///
    /// # Errors
    ///
    /// If memory allocation fails. The message is then as before.
    pub fn sign_under(
        &self,
        challenge: &ServerChallenge,
        message: &mut MessageWriteVec,
    ) -> Result<(), AllocError>
        requires known { IsSome self.now.credentials }
        requires unsigned { is_unsigned (attributes_of message.old) ≡ true }
        requires room { signed_len (with_challenge challenge.now self.now) message.old ≤ 65552 }
        ensures text { OnOk result (message.new ≡ signed_text (with_challenge challenge.now self.now) message.old) }
        ensures signed { OnOk result (IsSigned (with_challenge challenge.now self.now) message.new) }
        ensures len { OnOk result (length message.new ≡ signed_len (with_challenge challenge.now self.now) message.old) }
        ensures same_type { OnOk result (type_of message.new ≡ type_of message.old) }
        ensures same_id { OnOk result (id_of message.new ≡ id_of message.old) }
        ensures err { OnErr result (message.new ≡ message.old) }
    {
        let Some(credentials) = &self.credentials else {
            unreachable!();
        };
        let key = challenge.key(credentials);
        sign(
            message,
            self.anonymous_username,
            credentials,
            challenge,
            &key,
        )
    }

    /// How many bytes signing adds to a request, and 0 while no realm is held.
    pub fn message_signature_bytes(&self) -> usize
        ensures value { result ≡ signature_len self.now Request }
        ensures short { (class : MessageClass) → signature_len self.now class ≤ 2160 }
    {
        match (&self.credentials, &self.held) {
            (Some(credentials), Some(held)) => {
                let anonymous = self.anonymous_username;
                let class = MessageClass::Request;
                held.challenge.signature_len(credentials, anonymous, class)
            }
            _ => 0,
        }
    }

    /// How many bytes signing adds to a response, and 0 while no realm is held.
    pub fn reply_signature_bytes(&self) -> usize
        ensures success { result ≡ signature_len self.now Success }
        ensures error { result ≡ signature_len self.now Error }
        ensures short { result ≤ 36 }
    {
        match (&self.credentials, &self.held) {
            (Some(_), Some(held)) => held.challenge.integrity_attribute_len(),
            _ => 0,
        }
    }

    /// How many bytes signing under the challenge adds to a request, and 0 without credentials.
    pub fn signature_bytes_under(&self, challenge: &ServerChallenge) -> usize
        ensures value { result ≡ signature_len (with_challenge challenge.now self.now) Request }
        ensures short { (class : MessageClass) → signature_len (with_challenge challenge.now self.now) class ≤ 2160 }
    {
        match &self.credentials {
            Some(credentials) => {
                let class = MessageClass::Request;
                challenge.signature_len(credentials, self.anonymous_username, class)
            }
            None => 0,
        }
    }
}

/// The user name, the configuration, the realm and the nonce, and neither password nor key.
impl fmt::Debug for LongTermClientAuth {
    fn fmt<W: fmt::Write>(&self, f: &mut fmt::Formatter<W>) -> fmt::Result {
        f.debug_struct("LongTermClientAuth")
            .field("credentials", &self.credentials)
            .field("supported", &self.supported)
            .field("anonymous_username", &self.anonymous_username)
            .field("held", &self.held)
            .finish_non_exhaustive()
    }
}

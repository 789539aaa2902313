//! The contents of a server's challenge for a client (RFC 8489, sections 9.2.4 and 9.2.5).

ghost use Rattle.std.specs.Prelude.{◌≡◌, ◌≤◌, ◌<◌, ◌+◌, ◌^◌, ℕ, List, length, is_some, true, Some};
ghost use Rattle.turn_stun.specs.Message.{attributes_from, padded_len};
ghost use Rattle.turn_stun.specs.declared.message.header.MessageClass.{MessageClass};
ghost use Rattle.turn_stun.specs.declared.message.header.MessageClass.TheVariants.{Request};
ghost use Rattle.turn_auth.specs.Signature.{algorithm_len, signature_len_by, user_addition};
ghost use Rattle.turn_auth.specs.Integrity.{integrity_len};
ghost use Rattle.turn_auth.specs.Kept.{IsKeyOf};

use crate::credentials::TurnCredentials;
use crate::feature::Feature;
use crate::integrity::IntegrityAlgorithm;
use crate::key::SigningKey;
use smallvec::SmallVec;
use std::fmt;
use std::marker::Model;
use turn_stun::message::header::MessageClass;

/// A challenge as a client holds it (RFC 8489, section 9.2.5): its realm, its nonce, the selected
/// algorithm, and with SHA-256 the PASSWORD-ALGORITHMS from which it was selected.
///
/// Only [`ReceivedChallenge::copied`](crate::received_challenge::ReceivedChallenge::copied) makes one. It
/// borrows nothing of the message.
#[derive(Drop)]
pub struct ServerChallenge {
    pub(crate) realm: Vec<u8>,
    pub(crate) nonce: Vec<u8>,
    pub(crate) algorithm: IntegrityAlgorithm,
    pub(crate) password_algorithms: SmallVec<u8, 64>,
}

impl Model for ServerChallenge {
    ghost use Rattle.turn_auth.specs.LongTerm.{Challenge};

    ghost Value = { Challenge };

    ghost use Rattle.turn_auth.specs.Kept.{challenge_view, IsWritable};

    ghost view = { challenge_view };

    ghost invariant = { λ challenge. IsWritable (challenge_view challenge) };
}

impl ServerChallenge {
    /// The bytes of the realm, 1 to 763 of them.
    pub(crate) fn realm(&self) -> &[u8]
        ensures bytes { result.now ≡ self.now.realm }
        ensures some { 1 ≤ length result.now }
        ensures short { length result.now ≤ 763 }
    {
        self.realm.as_slice()
    }

    /// The bytes of the nonce, 1 to 763 of them.
    pub(crate) fn nonce(&self) -> &[u8]
        ensures bytes { result.now ≡ self.now.nonce }
        ensures some { 1 ≤ length result.now }
        ensures short { length result.now ≤ 763 }
    {
        self.nonce.as_slice()
    }

    /// The algorithm to sign with.
    pub(crate) fn algorithm(&self) -> IntegrityAlgorithm
        ensures { result ≡ self.now.algorithm }
    {
        self.algorithm
    }

    /// The value of the PASSWORD-ALGORITHMS to send back, at most 64 bytes. With SHA-1 it is empty.
    pub(crate) fn password_algorithms(&self) -> &[u8]
        ensures bytes { result.now ≡ self.now.password_algorithms }
        ensures whole { is_some (attributes_from 0 0 result.now) ≡ true }
        ensures short { length result.now ≤ 64 }
    {
        self.password_algorithms.as_slice()
    }

    /// The key of the user in the realm.
    pub(crate) fn key(&self, credentials: &TurnCredentials) -> SigningKey
        ensures { IsKeyOf credentials.now self.now result }
    {
        SigningKey::new(credentials, self.realm.as_slice(), self.algorithm)
    }

    /// How many bytes signing adds to a message of that class: to one that is no request, only the
    /// integrity.
    pub(crate) fn signature_len(
        &self,
        credentials: &TurnCredentials,
        anonymous: Feature,
        class: MessageClass,
    ) -> usize
        ensures value { result ≡ signature_len_by (Some credentials.now) (Some self.now) anonymous class }
        ensures short { (class : MessageClass) → signature_len_by (Some credentials.now) (Some self.now) anonymous class ≤ 2160 }
    {
        let in_request = self.request_signature_len(credentials, anonymous);
        match class {
            MessageClass::Request => in_request,
            MessageClass::Indication | MessageClass::Success | MessageClass::Error => {
                self.integrity_attribute_len()
            }
        }
    }

    /// How many bytes the integrity attribute takes.
    pub(crate) fn integrity_attribute_len(&self) -> usize
        ensures value { result ≡ 4 + integrity_len self.now.algorithm }
        ensures short { result ≤ 36 }
    {
        match self.algorithm {
            IntegrityAlgorithm::Sha1 => 24,
            IntegrityAlgorithm::Sha256 => 36,
        }
    }

    fn request_signature_len(&self, credentials: &TurnCredentials, anonymous: Feature) -> usize
        ensures value { result ≡ signature_len_by (Some credentials.now) (Some self.now) anonymous Request }
        ensures short { (class : MessageClass) → signature_len_by (Some credentials.now) (Some self.now) anonymous class ≤ 2160 }
    {
        written_len(user_len(credentials, anonymous))
            + written_len(self.realm().len())
            + written_len(self.nonce().len())
            + self.algorithm_len()
    }

    /// How many bytes the algorithms and the integrity take after these.
    fn algorithm_len(&self) -> usize
        ensures value { result ≡ algorithm_len self.now.algorithm self.now.password_algorithms }
        ensures short { result ≤ 112 }
    {
        match self.algorithm {
            IntegrityAlgorithm::Sha1 => 24,
            IntegrityAlgorithm::Sha256 => written_len(self.password_algorithms.len()) + 8 + 36,
        }
    }
}

impl fmt::Debug for ServerChallenge {
    fn fmt<W: fmt::Write>(&self, f: &mut fmt::Formatter<W>) -> fmt::Result {
        f.debug_struct("ServerChallenge")
            .field("realm", &self.realm)
            .field("nonce", &self.nonce)
            .field("algorithm", &self.algorithm)
            .finish_non_exhaustive()
    }
}

/// How many bytes name the user, or replace the name.
fn user_len(credentials: &TurnCredentials, anonymous: Feature) -> usize
    ensures value { (realm : List ℕ) → length (user_addition anonymous credentials.now realm).value ≡ result }
    ensures short { result ≤ 508 }
{
    match anonymous {
        Feature::Required => 32,
        Feature::Auto | Feature::Disabled => credentials.user().len(),
    }
}

/// How many bytes an attribute with a value of `len` bytes takes.
fn written_len(len: usize) -> usize
    requires { len < 2 ^ 16 }
    ensures { result ≡ 4 + padded_len len }
{
    4 + (len + 3) / 4 * 4
}

//! Keys of long-term credentials (RFC 8489, sections 9.2.2 and 18.5.1).

ghost use Rattle.std.specs.Prelude.{◌≡◌, ℕ, List};
ghost use Rattle.turn_auth.specs.Key.{key_of, userhash};
ghost use Rattle.turn_auth.specs.Keyed.{HoldsKey, algorithm_of};
ghost use Rattle.turn_auth.specs.Integrity.{seen_integrity};

use crate::credentials::TurnCredentials;
use crate::hmac::{HmacSha1, HmacSha256};
use crate::integrity::{IntegrityAlgorithm, sha1_holds, sha256_holds};
use md5::{Digest as _, Md5};
use sha2::{Digest as _, Sha256};
use turn_stun::message::Message;

/// A key, ready to sign: the HMAC of the empty text under it.
#[derive(Drop)]
pub(crate) enum SigningKey {
    /// Under an MD5 key.
    Sha1(HmacSha1),
    /// Under a SHA-256 key.
    Sha256(HmacSha256),
}

impl SigningKey {
    /// The key of the user in the realm.
    pub(crate) fn new(
        credentials: &TurnCredentials,
        realm: &[u8],
        algorithm: IntegrityAlgorithm,
    ) -> SigningKey
        ensures algorithm { algorithm_of result ≡ algorithm }
        ensures key { HoldsKey result (key_of credentials.now realm.now algorithm) }
    {
        match algorithm {
            IntegrityAlgorithm::Sha1 => {
                SigningKey::Sha1(HmacSha1::new(&md5_key(credentials, realm)))
            }
            IntegrityAlgorithm::Sha256 => {
                SigningKey::Sha256(HmacSha256::new(&sha256_key(credentials, realm)))
            }
        }
    }

    /// The algorithm that the key is for.
    pub(crate) fn algorithm(&self) -> IntegrityAlgorithm
        ensures { result ≡ algorithm_of self.now }
    {
        match self {
            SigningKey::Sha1(_) => IntegrityAlgorithm::Sha1,
            SigningKey::Sha256(_) => IntegrityAlgorithm::Sha256,
        }
    }

    /// Whether the first seen integrity attribute of the algorithm is valid under the key, or `None` if
    /// none is seen. It walks the attributes once.
    pub(crate) fn verifies(&self, message: &Message<'_>) -> Option<bool>
        ensures { (key : List ℕ) → HoldsKey self.now key → result ≡ seen_integrity message.now (algorithm_of self.now) key }
    {
        match self {
            SigningKey::Sha1(mac) => sha1_holds(mac, message),
            SigningKey::Sha256(mac) => sha256_holds(mac, message),
        }
    }
}

/// The MD5 key of the user in the realm (RFC 8489, section 18.5.1.1).
fn md5_key(credentials: &TurnCredentials, realm: &[u8]) -> [u8; 16]
    ensures { result ≡ key_of credentials.now realm.now IntegrityAlgorithm.Sha1 }
{
    let mut hasher = Md5::new();
    hasher.update(credentials.user());
    hasher.update(b":");
    hasher.update(realm);
    hasher.update(b":");
    hasher.update(credentials.password());
    hasher.finalize()
}

/// The SHA-256 key of the user in the realm (RFC 8489, section 18.5.1.2).
fn sha256_key(credentials: &TurnCredentials, realm: &[u8]) -> [u8; 32]
    ensures { result ≡ key_of credentials.now realm.now IntegrityAlgorithm.Sha256 }
{
    let mut hasher = Sha256::new();
    hasher.update(credentials.user());
    hasher.update(b":");
    hasher.update(realm);
    hasher.update(b":");
    hasher.update(credentials.password());
    hasher.finalize()
}

/// What replaces the user and the realm if the user name is hidden (RFC 8489, section 14.4).
pub(crate) fn userhash(credentials: &TurnCredentials, realm: &[u8]) -> [u8; 32]
    ensures { result ≡ userhash credentials.now realm.now }
{
    let mut hash = Sha256::new();
    hash.update(credentials.user());
    hash.update(b":");
    hash.update(realm);
    hash.finalize()
}

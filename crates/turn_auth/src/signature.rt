//! What signing adds to a message (RFC 8489, sections 9.2.4, 14.5 and 14.6).

ghost use Rattle.std.specs.Prelude.{◌≡◌, ◌+◌, ◌≤◌, ℕ, List, length, OnOk, OnErr, Some, true, is_some, [], ◌∷◌};
ghost use Rattle.turn_stun.specs.Message.{attributes_from, type_of, id_of, attributes_of};
ghost use Rattle.turn_stun.specs.MessageType.{class_of};
ghost use Rattle.turn_stun.specs.Writer.{Extends};
ghost use Rattle.turn_auth.specs.Signature.{AddsAll, additions_for, signed_by, signature_len_by, additions_len, written_len, is_unsigned};
ghost use Rattle.turn_auth.specs.Signature.{request_additions, user_addition, algorithm_additions, with_integrity};
ghost use Rattle.turn_auth.specs.Integrity.{IntegrityHolds, integrity_len};
ghost use Rattle.turn_auth.specs.Keyed.{HoldsKey, HoldsSha1, HoldsSha256, algorithm_of};
ghost use Rattle.turn_auth.specs.Validation.{held_key};
ghost use Rattle.turn_auth.specs.Kept.{IsKeyOf};
ghost use Rattle.turn_auth.specs.declared.integrity.IntegrityAlgorithm.TheVariants.{Sha256};

use crate::credentials::TurnCredentials;
use crate::feature::Feature;
use crate::hmac::{HmacSha1, HmacSha256};
use crate::integrity::{IntegrityAlgorithm, sha1_value, sha256_value};
use crate::key::{SigningKey, userhash};
use crate::server_challenge::ServerChallenge;
use crate::write::add;
use std::alloc::AllocError;
use turn_stun::attribute::nonce::Nonce;
use turn_stun::attribute::password_algorithms::PasswordAlgorithms;
use turn_stun::attribute::realm::Realm;
use turn_stun::attribute::userhash::Userhash;
use turn_stun::attribute::username::Username;
use turn_stun::attribute::{AttributeType, RawAttribute};
use turn_stun::message::header::MessageClass;
use turn_stun::message::write::MessageWriteVec;

/// Signs the message in place. Memory is allocated once, before anything is added, if the message has no
/// room for its signature. On an error it is as before.
pub(crate) fn sign(
    message: &mut MessageWriteVec,
    anonymous: Feature,
    credentials: &TurnCredentials,
    challenge: &ServerChallenge,
    key: &SigningKey,
) -> Result<(), AllocError>
    requires key { IsKeyOf credentials.now challenge.now key.now }
    requires unsigned { is_unsigned (attributes_of message.old) ≡ true }
    requires room { length message.old + signature_len_by (Some credentials.now) (Some challenge.now) anonymous (class_of (type_of message.old)) ≤ 65552 }
    ensures text { OnOk result (message.new ≡ signed_by (Some credentials.now) (Some challenge.now) anonymous message.old) }
    ensures holds { OnOk result (IntegrityHolds message.new challenge.now.algorithm (held_key credentials.now challenge.now)) }
    ensures len { OnOk result (length message.new
        ≡ length message.old + signature_len_by (Some credentials.now) (Some challenge.now) anonymous (class_of (type_of message.old))) }
    ensures same_type { OnOk result (type_of message.new ≡ type_of message.old) }
    ensures same_id { OnOk result (id_of message.new ≡ id_of message.old) }
    ensures err { OnErr result (message.new ≡ message.old) }
{
    let before = message.as_bytes().len();
    let class = message.message_type().class;
    // All memory first (our choice), so that a failure leaves the message as it was.
    message.reserve(challenge.signature_len(credentials, anonymous, class))?;
    let added = add_signature(message, anonymous, credentials, challenge, key);
    if added.is_err() {
        message.truncate(before);
    }
    added
}

/// Adds the attributes of a signature. On an error some of them may follow the old bytes.
fn add_signature(
    message: &mut MessageWriteVec,
    anonymous: Feature,
    credentials: &TurnCredentials,
    challenge: &ServerChallenge,
    key: &SigningKey,
) -> Result<(), AllocError>
    requires key { IsKeyOf credentials.now challenge.now key.now }
    requires unsigned { is_unsigned (attributes_of message.old) ≡ true }
    requires room { length message.old + signature_len_by (Some credentials.now) (Some challenge.now) anonymous (class_of (type_of message.old)) ≤ 65552 }
    ensures text { OnOk result (message.new ≡ signed_by (Some credentials.now) (Some challenge.now) anonymous message.old) }
    ensures holds { OnOk result (IntegrityHolds message.new challenge.now.algorithm (held_key credentials.now challenge.now)) }
    ensures len { OnOk result (length message.new
        ≡ length message.old + signature_len_by (Some credentials.now) (Some challenge.now) anonymous (class_of (type_of message.old))) }
    ensures same_type { OnOk result (type_of message.new ≡ type_of message.old) }
    ensures same_id { OnOk result (id_of message.new ≡ id_of message.old) }
    ensures kept { Extends message.old message.new }
{
    add_attributes(message, anonymous, credentials, challenge)?;
    add_integrity(message, key)
}

/// Adds the attributes before the integrity: none in a response (RFC 8489, section 9.2.4).
fn add_attributes(
    message: &mut MessageWriteVec,
    anonymous: Feature,
    credentials: &TurnCredentials,
    challenge: &ServerChallenge,
) -> Result<(), AllocError>
    requires room { length message.old + additions_len (additions_for (class_of (type_of message.old)) anonymous credentials.now challenge.now) ≤ 65552 }
    ensures all { OnOk result (AddsAll message.old message.new (additions_for (class_of (type_of message.old)) anonymous credentials.now challenge.now)) }
    ensures kept { Extends message.old message.new }
{
    let _ = message.as_bytes();
    match message.message_type().class {
        MessageClass::Request => add_request_attributes(message, anonymous, credentials, challenge),
        _ => Ok(()),
    }
}

/// Adds the attributes of a request before the integrity: the user, the realm, the nonce, and with SHA-256
/// how the key is made.
pub(crate) fn add_request_attributes(
    message: &mut MessageWriteVec,
    anonymous: Feature,
    credentials: &TurnCredentials,
    challenge: &ServerChallenge,
) -> Result<(), AllocError>
    requires room { length message.old + additions_len (request_additions anonymous credentials.now challenge.now) ≤ 65552 }
    ensures all { OnOk result (AddsAll message.old message.new (request_additions anonymous credentials.now challenge.now)) }
    ensures kept { Extends message.old message.new }
{
    // The order is our choice: RFC 8489 leaves it open, except that the integrity comes last.
    add_user(message, anonymous, credentials, challenge.realm())?;
    add(message, &Realm::new(challenge.realm()))?;
    add(message, &Nonce::new(challenge.nonce()))?;
    match challenge.algorithm() {
        IntegrityAlgorithm::Sha1 => Ok(()),
        IntegrityAlgorithm::Sha256 => {
            add_algorithms(message, challenge.password_algorithms())?;
            Ok(())
        }
    }
}

/// Adds the user: the user name, or its hash in its place.
fn add_user(
    message: &mut MessageWriteVec,
    anonymous: Feature,
    credentials: &TurnCredentials,
    realm: &[u8],
) -> Result<(), AllocError>
    requires room { length message.old + written_len (user_addition anonymous credentials.now realm.now).value ≤ 65552 }
    ensures all { OnOk result (AddsAll message.old message.new (user_addition anonymous credentials.now realm.now ∷ [])) }
    ensures kept { Extends message.old message.new }
{
    match anonymous {
        Feature::Required => {
            add(message, &Userhash::new(userhash(credentials, realm)))?;
            Ok(())
        }
        Feature::Auto | Feature::Disabled => {
            add(message, &Username::new(credentials.user()))?;
            Ok(())
        }
    }
}

/// Adds the algorithms that the server offered, as they were received, and the one of the key.
fn add_algorithms(message: &mut MessageWriteVec, offered: &[u8]) -> Result<(), AllocError>
    requires whole { is_some (attributes_from 0 0 offered.now) ≡ true }
    requires room { length message.old + additions_len (algorithm_additions Sha256 offered.now) ≤ 65552 }
    ensures all { OnOk result (AddsAll message.old message.new (algorithm_additions Sha256 offered.now)) }
    ensures kept { Extends message.old message.new }
{
    add(message, &PasswordAlgorithms::from_bytes(offered).unwrap())?;
    let sha256 = RawAttribute {
        attribute_type: AttributeType::PASSWORD_ALGORITHM,
        value: &[0, 2, 0, 0],
    };
    add(message, &sha256)?;
    Ok(())
}

/// Adds the integrity attribute, for which there is room.
pub(crate) fn add_integrity(
    message: &mut MessageWriteVec,
    key: &SigningKey,
) -> Result<(), AllocError>
    requires room { length message.old + (4 + integrity_len (algorithm_of key.now)) ≤ 65552 }
    requires unsigned { is_unsigned (attributes_of message.old) ≡ true }
    ensures text { (k : List ℕ) → HoldsKey key.now k → OnOk result (message.new ≡ with_integrity (algorithm_of key.now) k message.old) }
    ensures len { OnOk result (length message.new ≡ length message.old + (4 + integrity_len (algorithm_of key.now))) }
    ensures holds { (k : List ℕ) → HoldsKey key.now k → OnOk result (IntegrityHolds message.new (algorithm_of key.now) k) }
    ensures same_type { OnOk result (type_of message.new ≡ type_of message.old) }
    ensures same_id { OnOk result (id_of message.new ≡ id_of message.old) }
    ensures kept { Extends message.old message.new }
{
    match key {
        SigningKey::Sha1(mac) => add_sha1(message, mac),
        SigningKey::Sha256(mac) => add_sha256(message, mac),
    }
}

/// Adds a MESSAGE-INTEGRITY, for which there is room.
fn add_sha1(message: &mut MessageWriteVec, mac: &HmacSha1) -> Result<(), AllocError>
    requires room { length message.old + 24 ≤ 65552 }
    requires unsigned { is_unsigned (attributes_of message.old) ≡ true }
    ensures text { (k : List ℕ) → HoldsSha1 mac.now k → OnOk result (message.new ≡ with_integrity IntegrityAlgorithm.Sha1 k message.old) }
    ensures len { OnOk result (length message.new ≡ length message.old + 24) }
    ensures holds { (k : List ℕ) → HoldsSha1 mac.now k → OnOk result (IntegrityHolds message.new IntegrityAlgorithm.Sha1 k) }
    ensures same_type { OnOk result (type_of message.new ≡ type_of message.old) }
    ensures same_id { OnOk result (id_of message.new ≡ id_of message.old) }
    ensures kept { Extends message.old message.new }
{
    let bytes = message.as_bytes();
    let value = sha1_value(mac, bytes, bytes.len());
    let integrity = RawAttribute {
        attribute_type: AttributeType::MESSAGE_INTEGRITY,
        value: &value,
    };
    add(message, &integrity)?;
    Ok(())
}

/// Adds a MESSAGE-INTEGRITY-SHA256, for which there is room.
fn add_sha256(message: &mut MessageWriteVec, mac: &HmacSha256) -> Result<(), AllocError>
    requires room { length message.old + 36 ≤ 65552 }
    requires unsigned { is_unsigned (attributes_of message.old) ≡ true }
    ensures text { (k : List ℕ) → HoldsSha256 mac.now k → OnOk result (message.new ≡ with_integrity IntegrityAlgorithm.Sha256 k message.old) }
    ensures len { OnOk result (length message.new ≡ length message.old + 36) }
    ensures holds { (k : List ℕ) → HoldsSha256 mac.now k → OnOk result (IntegrityHolds message.new IntegrityAlgorithm.Sha256 k) }
    ensures same_type { OnOk result (type_of message.new ≡ type_of message.old) }
    ensures same_id { OnOk result (id_of message.new ≡ id_of message.old) }
    ensures kept { Extends message.old message.new }
{
    let bytes = message.as_bytes();
    let value = sha256_value(mac, bytes, bytes.len());
    let integrity = RawAttribute {
        attribute_type: AttributeType::MESSAGE_INTEGRITY_SHA256,
        value: &value,
    };
    add(message, &integrity)?;
    Ok(())
}

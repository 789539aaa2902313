//! MESSAGE-INTEGRITY and MESSAGE-INTEGRITY-SHA256 (RFC 8489, sections 14.5 and 14.6).

ghost use Rattle.std.specs.Prelude.{◌≡◌, ◌≤◌, ◌<◌, ◌+◌, ◌^◌, ℕ, List, length};
ghost use Rattle.std.specs.Str.{bytes_eq};
ghost use Rattle.sha1.specs.Sha1.{sha1};
ghost use Rattle.sha2.specs.Sha256.{sha256};
ghost use Rattle.turn_auth.specs.Hmac.{hmac};
ghost use Rattle.turn_auth.specs.Keyed.{HoldsSha1, HoldsSha256};
ghost use Rattle.turn_auth.specs.Integrity.{covered_text, integrity_kind, seen_integrity};

use crate::hmac::{HmacSha1, HmacSha256};
use turn_stun::attribute::AttributeType;
use turn_stun::message::Message;

/// The algorithm of message integrity: the digest of the HMAC, which decides the attribute that carries it
/// and how the key is made.
#[derive(Clone, Copy, Debug, Default, PartialEq, Eq)]
pub enum IntegrityAlgorithm {
    /// MESSAGE-INTEGRITY: an HMAC-SHA1 of 20 bytes, under an MD5 key.
    #[default]
    Sha1,
    /// MESSAGE-INTEGRITY-SHA256: an HMAC-SHA256 of 32 bytes, under a SHA-256 key.
    Sha256,
}

impl IntegrityAlgorithm {
    /// The attribute that carries the HMAC.
    pub fn attribute_type(self) -> AttributeType
        ensures { result.value ≡ integrity_kind self }
    {
        match self {
            IntegrityAlgorithm::Sha1 => AttributeType::MESSAGE_INTEGRITY,
            IntegrityAlgorithm::Sha256 => AttributeType::MESSAGE_INTEGRITY_SHA256,
        }
    }
}

/// The value of a MESSAGE-INTEGRITY at this offset of a message. No byte of it is copied.
pub(crate) fn sha1_value(mac: &HmacSha1, bytes: &[u8], offset: usize) -> [u8; 20]
    requires header { 20 ≤ offset }
    requires within { offset ≤ length bytes.now }
    requires short { offset + 4 < 2 ^ 16 }
    ensures { (key : List ℕ) → HoldsSha1 mac.now key → result ≡ hmac sha1 key (covered_text IntegrityAlgorithm.Sha1 offset bytes.now) }
{
    let [high, low] = ((offset + 4) as u16).to_be_bytes();
    mac.code(&[bytes[0], bytes[1], high, low], &bytes[4..offset])
}

/// The value of a MESSAGE-INTEGRITY-SHA256 at this offset of a message. No byte of it is copied.
pub(crate) fn sha256_value(mac: &HmacSha256, bytes: &[u8], offset: usize) -> [u8; 32]
    requires header { 20 ≤ offset }
    requires within { offset ≤ length bytes.now }
    requires short { offset + 16 < 2 ^ 16 }
    ensures { (key : List ℕ) → HoldsSha256 mac.now key → result ≡ hmac sha256 key (covered_text IntegrityAlgorithm.Sha256 offset bytes.now) }
{
    let [high, low] = ((offset + 16) as u16).to_be_bytes();
    mac.code(&[bytes[0], bytes[1], high, low], &bytes[4..offset])
}

/// Whether the first seen MESSAGE-INTEGRITY is valid under the key, or `None` if none is seen.
pub(crate) fn sha1_holds(mac: &HmacSha1, message: &Message<'_>) -> Option<bool>
    ensures { (key : List ℕ) → HoldsSha1 mac.now key → result ≡ seen_integrity message.now IntegrityAlgorithm.Sha1 key }
{
    let Some((offset, raw)) = message.raw_attribute(AttributeType::MESSAGE_INTEGRITY) else {
        return None;
    };
    // A value of another length is decided first: one at the very end of the longest message would lie past
    // the offsets that a length field can express.
    if raw.value.len() != 20 {
        return Some(false);
    }
    let bytes = message.as_bytes();
    Some(same_bytes(raw.value, sha1_value(mac, bytes, offset).as_slice()))
}

/// Whether the first seen MESSAGE-INTEGRITY-SHA256 is valid under the key, or `None` if none is seen.
pub(crate) fn sha256_holds(mac: &HmacSha256, message: &Message<'_>) -> Option<bool>
    ensures { (key : List ℕ) → HoldsSha256 mac.now key → result ≡ seen_integrity message.now IntegrityAlgorithm.Sha256 key }
{
    let Some((offset, raw)) = message.raw_attribute(AttributeType::MESSAGE_INTEGRITY_SHA256) else {
        return None;
    };
    // Truncated values are not accepted (our choice; section 14.6 allows them if both sides agree).
    if raw.value.len() != 32 {
        return Some(false);
    }
    let bytes = message.as_bytes();
    Some(same_bytes(raw.value, sha256_value(mac, bytes, offset).as_slice()))
}

/// Whether both have the same bytes. All of them are compared, whatever the first ones are, so that the time of an
/// answer says little of where a wrong integrity differs.
fn same_bytes(found: &[u8], want: &[u8]) -> bool
    ensures { result ≡ bytes_eq found.now want.now }
{
    match (found, want) {
        ([one, found @ ..], [other, want @ ..]) => (one == other) & same_bytes(found, want),
        ([], []) => true,
        _ => false,
    }
}

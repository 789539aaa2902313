//! Which bytes are a message.

ghost use Rattle.std.specs.Prelude.{◌≡◌, ℕ, ◌+◌, ◌*◌, ◌^◌, ◌<◌, ◌≤◌, length, drop, slice_index, is_some};
ghost use Rattle.turn_stun.specs.Number.{u16_at, u32_at};
ghost use Rattle.turn_stun.specs.Message.{fault_of, id_of, is_stun_header, attributes_from};

use crate::attribute::RawAttribute;
use crate::error::ParseError;
use crate::transaction::TransactionId;

/// The first fault that keeps the bytes from being a message.
#[tactic(auto, unfolding(crate::specs::Message::fault_of))]
pub(crate) fn fault_in(bytes: &[u8]) -> Option<ParseError>
    ensures { result ≡ fault_of bytes.now }
{
    if bytes.len() < 20 {
        return Some(ParseError::Short);
    }
    if !has_stun_header(bytes) {
        return Some(ParseError::NotStun);
    }
    if 20 + usize::from(u16_at(bytes, 2)) != bytes.len() {
        return Some(ParseError::Length);
    }
    if !are_attributes(&bytes[20..]) {
        return Some(ParseError::Attribute);
    }
    None
}

/// Whether the header begins as one of STUN does (RFC 8489, section 5).
pub(crate) fn has_stun_header(bytes: &[u8]) -> bool
    requires { 20 ≤ length bytes.now }
    ensures { result ≡ is_stun_header bytes.now }
{
    let cookie = u32::from_be_bytes([bytes[4], bytes[5], bytes[6], bytes[7]]);
    u16_at(bytes, 0) < 0x4000 && cookie == 0x2112_a442 && u16_at(bytes, 2) % 4 == 0
}

/// The two bytes from `at` on, as a number.
pub(crate) fn u16_at(bytes: &[u8], at: usize) -> u16
    requires { at + 1 < length bytes.now }
    ensures { result ≡ u16_at bytes.now at }
{
    u16::from_be_bytes([bytes[at], bytes[at + 1]])
}

/// The transaction ID in a header.
pub(crate) fn id_at(bytes: &[u8]) -> TransactionId
    requires { 20 ≤ length bytes.now }
    ensures { result ≡ id_of bytes.now }
{
    let mut id = [0; 12];
    id.copy_from_slice(&bytes[8..20]);
    TransactionId::from_bytes(id)
}

/// Whether the bytes are attributes, one after the other, none of which runs past the end.
pub(crate) fn are_attributes(bytes: &[u8]) -> bool
    ensures { (at : ℕ) → is_some (attributes_from 0 at bytes.now) ≡ result }
{
    let mut rest = bytes;
    while !rest.is_empty() {
        let Some(attribute) = RawAttribute::from_bytes(rest) else {
            return false;
        };
        rest = &rest[attribute.size()..];
    }
    true
}

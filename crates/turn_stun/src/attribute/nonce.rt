//! NONCE (RFC 8489, section 14.10).

ghost use Rattle.std.specs.Prelude.{◌≡◌, ◌≤◌, length};
ghost use Rattle.turn_stun.specs.Values.{nonce_of};

use crate::attribute::AttributeType;
use crate::attribute::typed::{AttributeFromRaw, AttributeWrite};
use crate::transaction::TransactionId;
use std::alloc::AllocError;
use std::marker::Model;

/// The bytes that the server expects in the next request (RFC 8489, section 14.10): 1 to 763 bytes, which
/// are not interpreted. Contracts see it as these bytes.
#[derive(Debug, Drop)]
pub struct Nonce<'a> {
    bytes: &'a [u8],
}

impl<'a> Model for Nonce<'a> {
    ghost use Rattle.std.specs.Prelude.{ℕ, List, ◌≤◌, length};

    ghost Value = { List ℕ };

    ghost view = { λ nonce. nonce.bytes.now };

    ghost invariant = { λ nonce. (1 ≤ length nonce.bytes.now) × (length nonce.bytes.now ≤ 763) };
}

impl<'a> Nonce<'a> {
    /// The nonce with these bytes.
    pub fn new(bytes: &'a [u8]) -> Nonce<'a>
        requires some { 1 ≤ length bytes.now }
        requires short { length bytes.now ≤ 763 }
        ensures { result ≡ bytes.now }
    {
        Nonce { bytes }
    }

    /// The bytes of the nonce, 1 to 763 of them.
    pub fn as_bytes(&self) -> &'a [u8]
        ensures bytes { result.now ≡ self.now }
        ensures some { 1 ≤ length result.now }
        ensures short { length result.now ≤ 763 }
    {
        self.bytes
    }
}

impl<'a> AttributeFromRaw<'a> for Nonce<'a> {
    ghost kind = { 0x0015 };

    ghost decodes = { λ value id found. found ≡ nonce_of value };

    fn attribute_type() -> AttributeType
        ensures { result.value ≡ 0x0015 }
    {
        AttributeType::NONCE
    }

    fn from_value(value: &'a [u8], _id: TransactionId) -> Option<Nonce<'a>> {
        // An empty one is malformed (our choice): nothing can be signed with it.
        if value.is_empty() || value.len() > 763 {
            return None;
        }
        Some(Nonce { bytes: value })
    }
}

impl AttributeWrite for Nonce<'_> {
    ghost written_kind = { λ _. 0x0015 };

    ghost encoded = { λ nonce id. nonce };

    fn get_type(&self) -> AttributeType {
        AttributeType::NONCE
    }

    fn value_len(&self) -> usize {
        self.bytes.len()
    }

    fn write_value(&self, _id: TransactionId, out: &mut Vec<u8>) -> Result<(), AllocError> {
        out.extend_from_slice(self.bytes)
    }
}

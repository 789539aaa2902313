//! USERNAME (RFC 8489, section 14.3).

ghost use Rattle.std.specs.Prelude.{◌≡◌, ◌≤◌, length};
ghost use Rattle.turn_stun.specs.Values.{username_of};

use crate::attribute::AttributeType;
use crate::attribute::typed::{AttributeFromRaw, AttributeWrite};
use crate::transaction::TransactionId;
use std::alloc::AllocError;
use std::marker::Model;

/// The user who makes a request (RFC 8489, section 14.3): 1 to 508 bytes, which are not interpreted.
/// Contracts see it as these bytes.
#[derive(Debug, Drop)]
pub struct Username<'a> {
    bytes: &'a [u8],
}

impl<'a> Model for Username<'a> {
    ghost use Rattle.std.specs.Prelude.{ℕ, List, ◌≤◌, length};

    ghost Value = { List ℕ };

    ghost view = { λ username. username.bytes.now };

    ghost invariant = { λ username. (1 ≤ length username.bytes.now) × (length username.bytes.now ≤ 508) };
}

impl<'a> Username<'a> {
    /// The user name with these bytes.
    pub fn new(bytes: &'a [u8]) -> Username<'a>
        requires some { 1 ≤ length bytes.now }
        requires short { length bytes.now ≤ 508 }
        ensures { result ≡ bytes.now }
    {
        Username { bytes }
    }

    /// The bytes of the user name, 1 to 508 of them.
    pub fn as_bytes(&self) -> &'a [u8]
        ensures bytes { result.now ≡ self.now }
        ensures some { 1 ≤ length result.now }
        ensures short { length result.now ≤ 508 }
    {
        self.bytes
    }
}

impl<'a> AttributeFromRaw<'a> for Username<'a> {
    ghost kind = { 0x0006 };

    ghost decodes = { λ value id found. found ≡ username_of value };

    fn attribute_type() -> AttributeType
        ensures { result.value ≡ 0x0006 }
    {
        AttributeType::USERNAME
    }

    fn from_value(value: &'a [u8], _id: TransactionId) -> Option<Username<'a>> {
        if value.is_empty() || value.len() > 508 {
            return None;
        }
        Some(Username { bytes: value })
    }
}

impl AttributeWrite for Username<'_> {
    ghost written_kind = { λ _. 0x0006 };

    ghost encoded = { λ username id. username };

    fn get_type(&self) -> AttributeType {
        AttributeType::USERNAME
    }

    fn value_len(&self) -> usize {
        self.bytes.len()
    }

    fn write_value(&self, _id: TransactionId, out: &mut Vec<u8>) -> Result<(), AllocError> {
        out.extend_from_slice(self.bytes)
    }
}

//! REALM (RFC 8489, section 14.9).

ghost use Rattle.std.specs.Prelude.{◌≡◌, ◌≤◌, length};
ghost use Rattle.turn_stun.specs.Values.{realm_of};

use crate::attribute::AttributeType;
use crate::attribute::typed::{AttributeFromRaw, AttributeWrite};
use crate::transaction::TransactionId;
use std::alloc::AllocError;
use std::marker::Model;

/// The protection space in which a user and a password are valid (RFC 8489, section 14.9): 1 to 763
/// bytes, which are not interpreted. Contracts see it as these bytes.
#[derive(Debug, Drop)]
pub struct Realm<'a> {
    bytes: &'a [u8],
}

impl<'a> Model for Realm<'a> {
    ghost use Rattle.std.specs.Prelude.{ℕ, List, ◌≤◌, length};

    ghost Value = { List ℕ };

    ghost view = { λ realm. realm.bytes.now };

    ghost invariant = { λ realm. (1 ≤ length realm.bytes.now) × (length realm.bytes.now ≤ 763) };
}

impl<'a> Realm<'a> {
    /// The realm with these bytes.
    pub fn new(bytes: &'a [u8]) -> Realm<'a>
        requires some { 1 ≤ length bytes.now }
        requires short { length bytes.now ≤ 763 }
        ensures { result ≡ bytes.now }
    {
        Realm { bytes }
    }

    /// The bytes of the realm, 1 to 763 of them.
    pub fn as_bytes(&self) -> &'a [u8]
        ensures bytes { result.now ≡ self.now }
        ensures some { 1 ≤ length result.now }
        ensures short { length result.now ≤ 763 }
    {
        self.bytes
    }
}

impl<'a> AttributeFromRaw<'a> for Realm<'a> {
    ghost kind = { 0x0014 };

    ghost decodes = { λ value id found. found ≡ realm_of value };

    fn attribute_type() -> AttributeType
        ensures { result.value ≡ 0x0014 }
    {
        AttributeType::REALM
    }

    fn from_value(value: &'a [u8], _id: TransactionId) -> Option<Realm<'a>> {
        // An empty one is malformed (our choice): nothing can be signed with it.
        if value.is_empty() || value.len() > 763 {
            return None;
        }
        Some(Realm { bytes: value })
    }
}

impl AttributeWrite for Realm<'_> {
    ghost written_kind = { λ _. 0x0014 };

    ghost encoded = { λ realm id. realm };

    fn get_type(&self) -> AttributeType {
        AttributeType::REALM
    }

    fn value_len(&self) -> usize {
        self.bytes.len()
    }

    fn write_value(&self, _id: TransactionId, out: &mut Vec<u8>) -> Result<(), AllocError> {
        out.extend_from_slice(self.bytes)
    }
}

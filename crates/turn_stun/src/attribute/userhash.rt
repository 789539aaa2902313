//! USERHASH (RFC 8489, section 14.4).

ghost use Rattle.std.specs.Prelude.{◌≡◌, length};
ghost use Rattle.turn_stun.specs.Values.{userhash_of};

use crate::attribute::AttributeType;
use crate::attribute::typed::{AttributeFromRaw, AttributeWrite};
use crate::transaction::TransactionId;
use std::alloc::AllocError;
use std::marker::Model;

/// The user who makes a request, as the SHA-256 of user and realm (RFC 8489, section 14.4): 32 bytes.
/// Contracts see it as these bytes.
#[derive(Clone, Copy, Debug, PartialEq, Eq)]
pub struct Userhash {
    hash: [u8; 32],
}

impl Model for Userhash {
    ghost use Rattle.std.specs.Prelude.{◌≡◌, ℕ, List, length};

    ghost Value = { List ℕ };

    ghost view = { λ user. user.hash };

    ghost invariant = { λ user. length user.hash ≡ 32 };

    ghost inverse = { λ hash. record { hash = hash } };
}

impl Userhash {
    /// The attribute with this hash.
    pub fn new(hash: [u8; 32]) -> Userhash
        ensures { result ≡ hash }
    {
        Userhash { hash }
    }

    /// The hash.
    pub fn hash(&self) -> &[u8; 32]
        ensures { result.now ≡ self.now }
    {
        &self.hash
    }
}

impl<'a> AttributeFromRaw<'a> for Userhash {
    ghost kind = { 0x001e };

    ghost decodes = { λ value id found. found ≡ userhash_of value };

    fn attribute_type() -> AttributeType
        ensures { result.value ≡ 0x001e }
    {
        AttributeType::USERHASH
    }

    fn from_value(value: &'a [u8], _id: TransactionId) -> Option<Userhash> {
        if value.len() != 32 {
            return None;
        }
        let mut hash = [0; 32];
        hash.copy_from_slice(value);
        Some(Userhash { hash })
    }
}

impl AttributeWrite for Userhash {
    ghost written_kind = { λ _. 0x001e };

    ghost encoded = { λ user id. user };

    fn get_type(&self) -> AttributeType {
        AttributeType::USERHASH
    }

    fn value_len(&self) -> usize {
        let hash = &self.hash;
        hash.len()
    }

    fn write_value(&self, _id: TransactionId, out: &mut Vec<u8>) -> Result<(), AllocError> {
        out.extend_from_slice(&self.hash)
    }
}

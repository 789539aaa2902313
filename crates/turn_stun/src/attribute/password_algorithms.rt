//! PASSWORD-ALGORITHMS (RFC 8489, section 14.11).

ghost use Rattle.std.specs.Prelude.{◌≡◌, length, is_some, true};
ghost use Rattle.std.specs.List.{list_any};
ghost use Rattle.turn_stun.specs.Message.{attributes_from};
ghost use Rattle.turn_stun.specs.Values.{password_algorithms_of, algorithm_number, entries_of, is_bare_entry};

use crate::attribute::AttributeType;
use crate::attribute::typed::{AttributeFromRaw, AttributeWrite};
use crate::attribute::walk::AttributeWalk;
use crate::message::parse::are_attributes;
use crate::transaction::TransactionId;
use std::alloc::AllocError;
use std::marker::Model;

/// How a key is made of a user, a realm and a password (RFC 8489, section 18.5).
#[derive(Clone, Copy, Debug, PartialEq, Eq)]
pub enum PasswordAlgorithm {
    /// MD5.
    Md5,
    /// SHA-256.
    Sha256,
}

impl PasswordAlgorithm {
    /// The number of the algorithm.
    pub fn number(self) -> u16
        ensures { result ≡ algorithm_number self }
    {
        match self {
            PasswordAlgorithm::Md5 => 1,
            PasswordAlgorithm::Sha256 => 2,
        }
    }
}

/// The algorithms that a server allows (RFC 8489, section 14.11): entries of a number and
/// parameters, each padded to a multiple of four bytes. Contracts see it as the bytes of the value.
///
/// Unknown algorithms are skipped, and so are entries with parameters, which neither of the known ones
/// has (our choice): a server may offer more than the client knows.
#[derive(Debug, Drop)]
pub struct PasswordAlgorithms<'a> {
    bytes: &'a [u8],
}

impl<'a> Model for PasswordAlgorithms<'a> {
    ghost use Rattle.std.specs.Prelude.{◌≡◌, ℕ, List, is_some, true};
    ghost use Rattle.turn_stun.specs.Message.{attributes_from};

    ghost Value = { List ℕ };

    ghost view = { λ algorithms. algorithms.bytes.now };

    ghost invariant = { λ algorithms. is_some (attributes_from 0 0 algorithms.bytes.now) ≡ true };
}

impl<'a> PasswordAlgorithms<'a> {
    /// The value with these bytes, or `None` if they are no list of whole entries. The empty list is one.
    pub fn from_bytes(bytes: &'a [u8]) -> Option<PasswordAlgorithms<'a>>
        ensures { result ≡ password_algorithms_of bytes.now }
    {
        if are_attributes(bytes) {
            Some(PasswordAlgorithms { bytes })
        } else {
            None
        }
    }

    /// The bytes of the value.
    pub fn as_bytes(&self) -> &'a [u8]
        ensures { result.now ≡ self.now }
    {
        self.bytes
    }

    /// Whether the algorithm is listed, without parameters.
    pub fn contains(&self, algorithm: PasswordAlgorithm) -> bool
        ensures { result ≡ list_any (is_bare_entry (algorithm_number algorithm)) (entries_of self.now) }
    {
        let number = algorithm.number();
        for (_, entry) in AttributeWalk::new(self.bytes, 0) {
            if entry.attribute_type.value == number && entry.value.is_empty() {
                return true;
            }
        }
        false
    }
}

impl<'a> AttributeFromRaw<'a> for PasswordAlgorithms<'a> {
    ghost kind = { 0x8002 };

    ghost decodes = { λ value id found. found ≡ password_algorithms_of value };

    fn attribute_type() -> AttributeType
        ensures { result.value ≡ 0x8002 }
    {
        AttributeType::PASSWORD_ALGORITHMS
    }

    fn from_value(value: &'a [u8], _id: TransactionId) -> Option<PasswordAlgorithms<'a>> {
        PasswordAlgorithms::from_bytes(value)
    }
}

impl AttributeWrite for PasswordAlgorithms<'_> {
    ghost written_kind = { λ _. 0x8002 };

    ghost encoded = { λ algorithms id. algorithms };

    fn get_type(&self) -> AttributeType {
        AttributeType::PASSWORD_ALGORITHMS
    }

    fn value_len(&self) -> usize {
        self.bytes.len()
    }

    fn write_value(&self, _id: TransactionId, out: &mut Vec<u8>) -> Result<(), AllocError> {
        out.extend_from_slice(self.bytes)
    }
}

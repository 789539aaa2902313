//! Attributes: what a message carries after its header (RFC 8489, section 14).

ghost use Rattle.std.specs.Prelude.{◌≡◌, ◌+◌, ◌^◌, ◌<◌, ◌≤◌, ◌↔◌, length, take, drop, IsTrue, IfNone, OnSome, IfSome};
ghost use Rattle.turn_stun.specs.Number.{u16_at};
ghost use Rattle.turn_stun.specs.Message.{attribute_size, padded_len};

pub mod error_code;
pub mod nonce;
pub mod password_algorithms;
pub mod realm;
pub mod typed;
pub mod userhash;
pub mod username;
pub(crate) mod walk;
pub mod xor_address;

use crate::attribute::typed::AttributeWrite;
use crate::transaction::TransactionId;
use std::alloc::AllocError;

/// The type of an attribute: a number of sixteen bits (RFC 8489, section 18.3).
#[derive(Clone, Copy, Debug, PartialEq, Eq)]
pub struct AttributeType {
    /// The number of the type.
    pub value: u16,
}

impl AttributeType {
    /// USERNAME (RFC 8489, section 14.3).
    pub const USERNAME: AttributeType = AttributeType { value: 0x0006 };
    /// MESSAGE-INTEGRITY (section 14.5).
    pub const MESSAGE_INTEGRITY: AttributeType = AttributeType { value: 0x0008 };
    /// ERROR-CODE (section 14.8).
    pub const ERROR_CODE: AttributeType = AttributeType { value: 0x0009 };
    /// REALM (section 14.9).
    pub const REALM: AttributeType = AttributeType { value: 0x0014 };
    /// NONCE (section 14.10).
    pub const NONCE: AttributeType = AttributeType { value: 0x0015 };
    /// MESSAGE-INTEGRITY-SHA256 (section 14.6).
    pub const MESSAGE_INTEGRITY_SHA256: AttributeType = AttributeType { value: 0x001c };
    /// PASSWORD-ALGORITHM (section 14.12).
    pub const PASSWORD_ALGORITHM: AttributeType = AttributeType { value: 0x001d };
    /// USERHASH (section 14.4).
    pub const USERHASH: AttributeType = AttributeType { value: 0x001e };
    /// PASSWORD-ALGORITHMS (section 14.11).
    pub const PASSWORD_ALGORITHMS: AttributeType = AttributeType { value: 0x8002 };
    /// FINGERPRINT (section 14.7).
    pub const FINGERPRINT: AttributeType = AttributeType { value: 0x8028 };

    /// Whether a receiver has to know the type to use the message (RFC 8489, section 14): the types below
    /// 0x8000.
    pub fn is_comprehension_required(self) -> bool
        ensures { IsTrue result ↔ (self.value < 0x8000) }
    {
        self.value < 0x8000
    }
}

/// An attribute as it is in a message: its type, and its value without padding.
#[derive(Clone, Copy, Debug)]
pub struct RawAttribute<'a> {
    /// The type.
    pub attribute_type: AttributeType,
    /// The bytes of the value, whose meaning depends on the type.
    pub value: &'a [u8],
}

impl<'a> RawAttribute<'a> {
    /// The attribute at the start of the bytes, or `None` if it runs past their end. Bytes after it are
    /// unread, and so is its padding (RFC 8489, section 14).
    pub fn from_bytes(bytes: &'a [u8]) -> Option<RawAttribute<'a>>
        ensures cut { IfNone result (length bytes.now < attribute_size bytes.now) }
        ensures whole { OnSome result (attribute_size bytes.now ≤ length bytes.now) }
        ensures kind { IfSome result (λ raw. raw.attribute_type.value ≡ u16_at bytes.now 0) }
        ensures value { IfSome result (λ raw. raw.value.now ≡ take (u16_at bytes.now 2) (drop 4 bytes.now)) }
        ensures len { IfSome result (λ raw. length raw.value.now ≡ u16_at bytes.now 2) }
        ensures short { IfSome result (λ raw. length raw.value.now < 2 ^ 16) }
    {
        if bytes.len() < 4 {
            return None;
        }
        let value_len = usize::from(u16::from_be_bytes([bytes[2], bytes[3]]));
        if bytes.len() < 4 + padded_len(value_len) {
            return None;
        }
        Some(RawAttribute::at_front(bytes))
    }

    /// The attribute at the start of bytes that hold the whole of it.
    pub(crate) fn at_front(bytes: &'a [u8]) -> RawAttribute<'a>
        requires { attribute_size bytes.now ≤ length bytes.now }
        ensures kind { result.attribute_type.value ≡ u16_at bytes.now 0 }
        ensures value { result.value.now ≡ take (u16_at bytes.now 2) (drop 4 bytes.now) }
        ensures len { length result.value.now ≡ u16_at bytes.now 2 }
        ensures short { length result.value.now < 2 ^ 16 }
    {
        let value_len = usize::from(u16::from_be_bytes([bytes[2], bytes[3]]));
        RawAttribute {
            attribute_type: AttributeType {
                value: u16::from_be_bytes([bytes[0], bytes[1]]),
            },
            value: &bytes[4..4 + value_len],
        }
    }

    /// How many bytes the attribute takes in a message, its header and padding included.
    pub fn size(&self) -> usize
        requires { length self.now.value.now < 2 ^ 16 }
        ensures { result ≡ 4 + padded_len (length self.now.value.now) }
    {
        4 + padded_len(self.value.len())
    }
}

/// An attribute of any type is written unchanged.
impl AttributeWrite for RawAttribute<'_> {
    ghost written_kind = { λ raw. raw.attribute_type.value };

    ghost encoded = { λ raw id. raw.value.now };

    fn get_type(&self) -> AttributeType {
        self.attribute_type
    }

    fn value_len(&self) -> usize {
        self.value.len()
    }

    fn write_value(&self, _id: TransactionId, out: &mut Vec<u8>) -> Result<(), AllocError> {
        out.extend_from_slice(self.value)
    }
}

/// The least multiple of four that is not below `len`.
pub(crate) fn padded_len(len: usize) -> usize
    requires { len < 2 ^ 16 }
    ensures { result ≡ padded_len len }
{
    (len + 3) / 4 * 4
}

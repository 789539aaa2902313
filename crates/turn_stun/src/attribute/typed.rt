//! What makes a Rust type an attribute.

ghost use Rattle.std.specs.Prelude.{◌≡◌, ℕ, ◌++◌, List, length, take, Option, OnOk, OnErr};

use crate::attribute::AttributeType;
use crate::transaction::TransactionId;
use std::alloc::AllocError;

/// An attribute that is read from a message. It may borrow the message's bytes.
pub trait AttributeFromRaw<'a>: Sized {
    // The number of the attribute's type.
    ghost kind: { ℕ };

    // The attribute that a value decodes to under a transaction ID, with `None` for a malformed one.
    ghost decodes: { List ℕ → ℕ → Option Self → Type 0 };

    /// The type of the attribute.
    fn attribute_type() -> AttributeType
        ensures { result.value ≡ kind };

    /// The attribute with this value, or `None` if the value is malformed. Some values are XORed with the
    /// transaction ID of their message (RFC 8489, section 14.2).
    fn from_value(value: &'a [u8], id: TransactionId) -> Option<Self>
        ensures { decodes value.now id result };
}

/// An attribute that can be added to a message.
pub trait AttributeWrite {
    // The number of the attribute's type.
    ghost written_kind: { Self → ℕ };

    // The bytes of its value, without padding, under a transaction ID.
    ghost encoded: { Self → ℕ → List ℕ };

    /// The type of the attribute.
    fn get_type(&self) -> AttributeType
        ensures { result.value ≡ written_kind self.now };

    /// How many bytes the value has, without padding.
    fn value_len(&self) -> usize
        ensures { (id : ℕ) → length (encoded self.now id) ≡ result };

    /// Appends the bytes of the value, without padding. On an error `out` may have gained some of
    /// them.
    fn write_value(&self, id: TransactionId, out: &mut Vec<u8>) -> Result<(), AllocError>
        ensures ok { OnOk result (out.new.items ≡ out.old.items ++ encoded self.now id) }
        ensures err { OnErr result (take (length out.old.items) out.new.items ≡ out.old.items) };
}

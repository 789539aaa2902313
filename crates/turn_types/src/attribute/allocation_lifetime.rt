//! LIFETIME (RFC 8656, section 18.2).

ghost use Rattle.std.specs.Prelude.{◌≡◌, Some, IfSome};
ghost use Rattle.turn_types.specs.Values.{number_of, number_value};

use crate::attribute::value::u32_of;
use std::alloc::AllocError;
use std::marker::Model;
use turn_stun::attribute::AttributeType;
use turn_stun::attribute::typed::{AttributeFromRaw, AttributeWrite};
use turn_stun::transaction::TransactionId;

/// How long a server keeps an allocation, in seconds, unless it is refreshed (RFC 8656, section 18.2). A
/// client deletes an allocation with 0. Contracts see it as the seconds.
#[derive(Clone, Copy, Debug, PartialEq, Eq)]
pub struct Lifetime {
    seconds: u32,
}

impl Model for Lifetime {
    ghost use Rattle.std.specs.Prelude.{ℕ};

    ghost Value = { ℕ };

    ghost view = { λ lifetime. lifetime.seconds };

    ghost inverse = { λ seconds. record { seconds = seconds } };
}

impl Lifetime {
    /// The type of the attribute.
    pub const TYPE: AttributeType = AttributeType { value: 0x000d };

    /// The attribute with this lifetime in seconds.
    pub fn new(seconds: u32) -> Lifetime
        ensures seconds { result ≡ seconds }
        ensures again { number_of (number_value result) ≡ Some seconds }
    {
        Lifetime { seconds }
    }

    /// The lifetime, in seconds.
    pub fn seconds(&self) -> u32
        ensures { result ≡ self.now }
    {
        self.seconds
    }
}

impl<'a> AttributeFromRaw<'a> for Lifetime {
    ghost kind = { 0x000d };

    ghost decodes = { λ value id found. found ≡ number_of value };

    fn attribute_type() -> AttributeType
        ensures { result.value ≡ 0x000d }
    {
        Lifetime::TYPE
    }

    fn from_value(value: &'a [u8], _id: TransactionId) -> Option<Lifetime>
        ensures found { result ≡ number_of value.now }
        // It is written again unchanged.
        ensures again { IfSome result (λ seconds. number_value seconds ≡ value.now) }
    {
        let seconds = u32_of(value)?;
        Some(Lifetime { seconds })
    }
}

impl AttributeWrite for Lifetime {
    ghost written_kind = { λ _. 0x000d };

    ghost encoded = { λ seconds id. number_value seconds };

    fn get_type(&self) -> AttributeType {
        Lifetime::TYPE
    }

    fn value_len(&self) -> usize {
        4
    }

    fn write_value(&self, _id: TransactionId, out: &mut Vec<u8>) -> Result<(), AllocError> {
        out.extend_from_slice(&self.seconds.to_be_bytes())
    }
}

//! ADDITIONAL-ADDRESS-FAMILY (RFC 8656, section 18.11).

ghost use Rattle.std.specs.Prelude.{◌≡◌, Some, IfSome};
ghost use Rattle.turn_types.specs.Values.{decoded_family, family_value};

use crate::attribute::value::leading_byte;
use crate::family::AddressFamily;
use std::alloc::AllocError;
use std::marker::Model;
use turn_stun::attribute::AttributeType;
use turn_stun::attribute::typed::{AttributeFromRaw, AttributeWrite};
use turn_stun::transaction::TransactionId;

/// The family of which a client requests an address in addition to the IPv4 one (RFC 8656, section
/// 18.11). Contracts see it as the family.
///
/// Both families are read and written: the client has to know that it may not request a second IPv4
/// address.
#[derive(Clone, Copy, Debug, PartialEq, Eq)]
pub struct AdditionalAddressFamily {
    family: AddressFamily,
}

impl Model for AdditionalAddressFamily {
    ghost use Rattle.turn_types.specs.declared.family.AddressFamily.{AddressFamily};

    ghost Value = { AddressFamily };

    ghost view = { λ asked. asked.family };

    ghost inverse = { λ family. record { family = family } };
}

impl AdditionalAddressFamily {
    /// The type of the attribute.
    pub const TYPE: AttributeType = AttributeType { value: 0x8000 };

    /// The attribute that requests this family.
    pub fn new(family: AddressFamily) -> AdditionalAddressFamily
        ensures family { result ≡ family }
        ensures again { decoded_family (family_value result) ≡ Some family }
    {
        AdditionalAddressFamily { family }
    }

    /// The requested family.
    pub fn family(&self) -> AddressFamily
        ensures { result ≡ self.now }
    {
        self.family
    }
}

impl<'a> AttributeFromRaw<'a> for AdditionalAddressFamily {
    ghost kind = { 0x8000 };

    ghost decodes = { λ value id found. found ≡ decoded_family value };

    fn attribute_type() -> AttributeType
        ensures { result.value ≡ 0x8000 }
    {
        AdditionalAddressFamily::TYPE
    }

    fn from_value(value: &'a [u8], _id: TransactionId) -> Option<AdditionalAddressFamily>
        ensures found { result ≡ decoded_family value.now }
        // It is written again unchanged.
        ensures again { IfSome result (λ family. family_value family ≡ value.now) }
    {
        let family = AddressFamily::from_number(leading_byte(value)?)?;
        Some(AdditionalAddressFamily { family })
    }
}

impl AttributeWrite for AdditionalAddressFamily {
    ghost written_kind = { λ _. 0x8000 };

    ghost encoded = { λ family id. family_value family };

    fn get_type(&self) -> AttributeType {
        AdditionalAddressFamily::TYPE
    }

    fn value_len(&self) -> usize {
        4
    }

    fn write_value(&self, _id: TransactionId, out: &mut Vec<u8>) -> Result<(), AllocError> {
        out.extend_from_slice(&[self.family.number(), 0, 0, 0])
    }
}

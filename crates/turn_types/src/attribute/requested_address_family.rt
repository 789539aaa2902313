//! REQUESTED-ADDRESS-FAMILY (RFC 8656, section 18.6).

ghost use Rattle.std.specs.Prelude.{◌≡◌, Some, IfSome};
ghost use Rattle.turn_types.specs.Values.{decoded_family, family_value};

use crate::attribute::value::leading_byte;
use crate::family::AddressFamily;
use std::alloc::AllocError;
use std::marker::Model;
use turn_stun::attribute::AttributeType;
use turn_stun::attribute::typed::{AttributeFromRaw, AttributeWrite};
use turn_stun::transaction::TransactionId;

/// The one family of which a client requests an address (RFC 8656, section 18.6). Contracts see it as the
/// family.
#[derive(Clone, Copy, Debug, PartialEq, Eq)]
pub struct RequestedAddressFamily {
    family: AddressFamily,
}

impl Model for RequestedAddressFamily {
    ghost use Rattle.turn_types.specs.declared.family.AddressFamily.{AddressFamily};

    ghost Value = { AddressFamily };

    ghost view = { λ asked. asked.family };

    ghost inverse = { λ family. record { family = family } };
}

impl RequestedAddressFamily {
    /// The type of the attribute.
    pub const TYPE: AttributeType = AttributeType { value: 0x0017 };

    /// The attribute that requests this family.
    pub fn new(family: AddressFamily) -> RequestedAddressFamily
        ensures family { result ≡ family }
        ensures again { decoded_family (family_value result) ≡ Some family }
    {
        RequestedAddressFamily { family }
    }

    /// The requested family.
    pub fn family(&self) -> AddressFamily
        ensures { result ≡ self.now }
    {
        self.family
    }
}

impl<'a> AttributeFromRaw<'a> for RequestedAddressFamily {
    ghost kind = { 0x0017 };

    ghost decodes = { λ value id found. found ≡ decoded_family value };

    fn attribute_type() -> AttributeType
        ensures { result.value ≡ 0x0017 }
    {
        RequestedAddressFamily::TYPE
    }

    fn from_value(value: &'a [u8], _id: TransactionId) -> Option<RequestedAddressFamily>
        ensures found { result ≡ decoded_family value.now }
        // It is written again unchanged.
        ensures again { IfSome result (λ family. family_value family ≡ value.now) }
    {
        let family = AddressFamily::from_number(leading_byte(value)?)?;
        Some(RequestedAddressFamily { family })
    }
}

impl AttributeWrite for RequestedAddressFamily {
    ghost written_kind = { λ _. 0x0017 };

    ghost encoded = { λ family id. family_value family };

    fn get_type(&self) -> AttributeType {
        RequestedAddressFamily::TYPE
    }

    fn value_len(&self) -> usize {
        4
    }

    fn write_value(&self, _id: TransactionId, out: &mut Vec<u8>) -> Result<(), AllocError> {
        out.extend_from_slice(&[self.family.number(), 0, 0, 0])
    }
}

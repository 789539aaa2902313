//! ICMP (RFC 8656, section 18.13).

ghost use Rattle.std.specs.Prelude.{◌≡◌, ◌∷◌, drop, Some, IfSome};

use std::alloc::AllocError;
use turn_stun::attribute::AttributeType;
use turn_stun::attribute::typed::{AttributeFromRaw, AttributeWrite};
use turn_stun::transaction::TransactionId;

/// An ICMP error that a server received for data that it had sent to a peer (RFC 8656, section 18.13).
///
/// The type and the code take a byte each (our choice).
#[derive(Clone, Copy, Debug, PartialEq, Eq)]
pub struct Icmp {
    /// The type of the ICMP message.
    pub icmp_type: u8,
    /// The code of the ICMP message.
    pub code: u8,
    /// The four bytes after the ICMP header, the first the most significant: for "packet too big", the
    /// greatest size that passes.
    pub data: u32,
}

impl Icmp {
    ghost use Rattle.turn_types.specs.Icmp.{icmp_of, icmp_value};

    /// The type of the attribute.
    pub const TYPE: AttributeType = AttributeType { value: 0x8004 };

    /// The error with these parts.
    pub fn new(icmp_type: u8, code: u8, data: u32) -> Icmp
        ensures icmp_type { result.icmp_type ≡ icmp_type }
        ensures code { result.code ≡ code }
        ensures payload { result.«data» ≡ «data» }
        ensures again { icmp_of (icmp_value result) ≡ Some result }
    {
        Icmp {
            icmp_type,
            code,
            data,
        }
    }
}

impl<'a> AttributeFromRaw<'a> for Icmp {
    ghost use Rattle.turn_types.specs.Icmp.{icmp_of, icmp_value};

    ghost kind = { 0x8004 };

    ghost decodes = { λ value id found. found ≡ icmp_of value };

    fn attribute_type() -> AttributeType
        ensures { result.value ≡ 0x8004 }
    {
        Icmp::TYPE
    }

    fn from_value(value: &'a [u8], _id: TransactionId) -> Option<Icmp>
        ensures found { result ≡ icmp_of value.now }
        // It is written again unchanged, except the unread bytes.
        ensures again { IfSome result (λ icmp. icmp_value icmp ≡ 0 ∷ 0 ∷ drop 2 value.now) }
    {
        match *value {
            // The first two bytes are reserved, and so unread.
            [_, _, icmp_type, code, a, b, c, d] => Some(Icmp {
                icmp_type,
                code,
                data: u32::from_be_bytes([a, b, c, d]),
            }),
            _ => None,
        }
    }
}

impl AttributeWrite for Icmp {
    ghost use Rattle.turn_types.specs.Icmp.{icmp_value};

    ghost written_kind = { λ _. 0x8004 };

    ghost encoded = { λ icmp id. icmp_value icmp };

    fn get_type(&self) -> AttributeType {
        Icmp::TYPE
    }

    fn value_len(&self) -> usize {
        8
    }

    fn write_value(&self, _id: TransactionId, out: &mut Vec<u8>) -> Result<(), AllocError> {
        let [a, b, c, d] = self.data.to_be_bytes();
        out.extend_from_slice(&[0, 0, self.icmp_type, self.code, a, b, c, d])
    }
}

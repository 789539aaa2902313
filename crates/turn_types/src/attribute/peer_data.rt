//! DATA (RFC 8656, section 18.4).

ghost use Rattle.std.specs.Prelude.{◌≡◌, Some};

use std::alloc::AllocError;
use std::marker::Model;
use turn_stun::attribute::AttributeType;
use turn_stun::attribute::typed::{AttributeFromRaw, AttributeWrite};
use turn_stun::transaction::TransactionId;

/// Data to or from a peer (RFC 8656, section 18.4): any bytes. Contracts see it as these bytes.
#[derive(Debug, Drop)]
pub struct Data<'a> {
    bytes: &'a [u8],
}

impl<'a> Model for Data<'a> {
    ghost use Rattle.std.specs.Prelude.{ℕ, List};

    ghost Value = { List ℕ };

    ghost view = { λ carried. carried.bytes.now };
}

impl<'a> Data<'a> {
    /// The type of the attribute.
    pub const TYPE: AttributeType = AttributeType { value: 0x0013 };

    /// The attribute that carries these bytes. A message has no room for more than 65,528 of them.
    pub fn new(bytes: &'a [u8]) -> Data<'a>
        ensures { result ≡ bytes.now }
    {
        Data { bytes }
    }

    /// The bytes.
    pub fn data(&self) -> &'a [u8]
        ensures { result.now ≡ self.now }
    {
        self.bytes
    }
}

impl<'a> AttributeFromRaw<'a> for Data<'a> {
    ghost kind = { 0x0013 };

    ghost decodes = { λ value id found. found ≡ Some value };

    fn attribute_type() -> AttributeType
        ensures { result.value ≡ 0x0013 }
    {
        Data::TYPE
    }

    fn from_value(value: &'a [u8], _id: TransactionId) -> Option<Data<'a>> {
        Some(Data { bytes: value })
    }
}

impl AttributeWrite for Data<'_> {
    ghost written_kind = { λ _. 0x0013 };

    ghost encoded = { λ bytes id. bytes };

    fn get_type(&self) -> AttributeType {
        Data::TYPE
    }

    fn value_len(&self) -> usize {
        self.bytes.len()
    }

    fn write_value(&self, _id: TransactionId, out: &mut Vec<u8>) -> Result<(), AllocError> {
        out.extend_from_slice(self.bytes)
    }
}

//! CONNECTION-ID (RFC 6062, section 6.2.1).

ghost use Rattle.std.specs.Prelude.{◌≡◌, Some, IfSome};
ghost use Rattle.turn_types.specs.Values.{number_of, number_value};

use crate::attribute::value::u32_of;
use std::alloc::AllocError;
use std::marker::Model;
use turn_stun::attribute::AttributeType;
use turn_stun::attribute::typed::{AttributeFromRaw, AttributeWrite};
use turn_stun::transaction::TransactionId;

/// The number that identifies a connection between the server and a peer (RFC 6062, section 6.2.1).
/// Contracts see it as this number.
#[derive(Clone, Copy, Debug, PartialEq, Eq)]
pub struct ConnectionId {
    id: u32,
}

impl Model for ConnectionId {
    ghost use Rattle.std.specs.Prelude.{ℕ};

    ghost Value = { ℕ };

    ghost view = { λ connection. connection.id };

    ghost inverse = { λ id. record { id = id } };
}

impl ConnectionId {
    /// The type of the attribute.
    pub const TYPE: AttributeType = AttributeType { value: 0x002a };

    /// The attribute with this number.
    pub fn new(id: u32) -> ConnectionId
        ensures id { result ≡ id }
        ensures again { number_of (number_value result) ≡ Some id }
    {
        ConnectionId { id }
    }

    /// The number of the connection, which the server chose.
    pub fn id(&self) -> u32
        ensures { result ≡ self.now }
    {
        self.id
    }
}

impl<'a> AttributeFromRaw<'a> for ConnectionId {
    ghost kind = { 0x002a };

    ghost decodes = { λ value id found. found ≡ number_of value };

    fn attribute_type() -> AttributeType
        ensures { result.value ≡ 0x002a }
    {
        ConnectionId::TYPE
    }

    fn from_value(value: &'a [u8], _id: TransactionId) -> Option<ConnectionId>
        ensures found { result ≡ number_of value.now }
        // It is written again unchanged.
        ensures again { IfSome result (λ connection. number_value connection ≡ value.now) }
    {
        let id = u32_of(value)?;
        Some(ConnectionId { id })
    }
}

impl AttributeWrite for ConnectionId {
    ghost written_kind = { λ _. 0x002a };

    ghost encoded = { λ number id. number_value number };

    fn get_type(&self) -> AttributeType {
        ConnectionId::TYPE
    }

    fn value_len(&self) -> usize {
        4
    }

    fn write_value(&self, _id: TransactionId, out: &mut Vec<u8>) -> Result<(), AllocError> {
        out.extend_from_slice(&self.id.to_be_bytes())
    }
}

//! CHANNEL-NUMBER (RFC 8656, section 18.1).

ghost use Rattle.std.specs.Prelude.{◌≡◌, [], ◌∷◌, ◌++◌, take, Some, IfSome};
ghost use Rattle.turn_types.specs.Values.{channel_number_of, channel_number_value};

use std::alloc::AllocError;
use std::marker::Model;
use turn_stun::attribute::AttributeType;
use turn_stun::attribute::typed::{AttributeFromRaw, AttributeWrite};
use turn_stun::transaction::TransactionId;

/// The number of the channel that a client requests (RFC 8656, section 18.1). Contracts see it as this
/// number.
///
/// Any number of sixteen bits is read and written: the client has to know which ones it may request.
#[derive(Clone, Copy, Debug, PartialEq, Eq)]
pub struct ChannelNumber {
    number: u16,
}

impl Model for ChannelNumber {
    ghost use Rattle.std.specs.Prelude.{ℕ};

    ghost Value = { ℕ };

    ghost view = { λ channel. channel.number };

    ghost inverse = { λ number. record { number = number } };
}

impl ChannelNumber {
    /// The type of the attribute.
    pub const TYPE: AttributeType = AttributeType { value: 0x000c };

    /// The attribute with this number.
    pub fn new(number: u16) -> ChannelNumber
        ensures number { result ≡ number }
        ensures again { channel_number_of (channel_number_value result) ≡ Some number }
    {
        ChannelNumber { number }
    }

    /// The number of the channel.
    pub fn number(&self) -> u16
        ensures { result ≡ self.now }
    {
        self.number
    }
}

impl<'a> AttributeFromRaw<'a> for ChannelNumber {
    ghost kind = { 0x000c };

    ghost decodes = { λ value id found. found ≡ channel_number_of value };

    fn attribute_type() -> AttributeType
        ensures { result.value ≡ 0x000c }
    {
        ChannelNumber::TYPE
    }

    fn from_value(value: &'a [u8], _id: TransactionId) -> Option<ChannelNumber>
        ensures found { result ≡ channel_number_of value.now }
        // It is written again unchanged, except the unread bytes.
        ensures again { IfSome result (λ number. channel_number_value number ≡ take 2 value.now ++ 0 ∷ 0 ∷ []) }
    {
        match *value {
            // RFC 8656, section 18.1: the bytes after the number are ignored.
            [high, low, _, _] => Some(ChannelNumber::new(u16::from_be_bytes([high, low]))),
            _ => None,
        }
    }
}

impl AttributeWrite for ChannelNumber {
    ghost written_kind = { λ _. 0x000c };

    ghost encoded = { λ number id. channel_number_value number };

    fn get_type(&self) -> AttributeType {
        ChannelNumber::TYPE
    }

    fn value_len(&self) -> usize {
        4
    }

    fn write_value(&self, _id: TransactionId, out: &mut Vec<u8>) -> Result<(), AllocError> {
        let [high, low] = self.number.to_be_bytes();
        out.extend_from_slice(&[high, low, 0, 0])
    }
}

//! The header of a message (RFC 8489, section 5).

ghost use Rattle.std.specs.Prelude.{◌≡◌, ◌+◌, ◌*◌, ◌/◌, ◌%◌, ◌^◌, ◌<◌, ◌↔◌, length, IsTrue, IfOk, IfErr, IsOk, Some, None};
ghost use Rattle.turn_stun.specs.Message.{header_fault_of, type_of, length_of, id_of};
ghost use Rattle.turn_stun.specs.MessageType.{type_number, method_of, class_of, IsResponse};

use crate::error::ParseError;
use crate::message::method::Method;
use crate::message::parse::{has_stun_header, id_at, u16_at};
use crate::transaction::TransactionId;

/// What a message is for.
#[derive(Clone, Copy, Debug, PartialEq, Eq)]
pub enum MessageClass {
    /// A request, which awaits a response.
    Request,
    /// An indication, which awaits none.
    Indication,
    /// A success response, which grants a request.
    Success,
    /// An error response, which refuses a request.
    Error,
}

/// The method and class of a message: the first two bytes of its header.
#[derive(Clone, Copy, Debug, PartialEq, Eq)]
pub struct MessageType {
    /// The method of the request, indication or response.
    pub method: Method,
    /// Which of these it is.
    pub class: MessageClass,
}

impl MessageType {
    /// The type with this 14-bit number, in which the two bits of the class are between those of the
    /// method.
    pub fn from_number(number: u16) -> MessageType
        requires { number < 2 ^ 14 }
        ensures method { result.method.value ≡ method_of number }
        ensures class { result.class ≡ class_of number }
        ensures number { type_number result.method.value result.class ≡ number }
    {
        let class = match (number / 0x10 % 2, number / 0x100 % 2) {
            (0, 0) => MessageClass::Request,
            (_, 0) => MessageClass::Indication,
            (0, _) => MessageClass::Success,
            (_, _) => MessageClass::Error,
        };
        let value = number % 0x10 + number / 0x20 % 8 * 0x10 + number / 0x200 * 0x80;
        MessageType {
            method: Method { value },
            class,
        }
    }

    /// The 14-bit number of the type.
    pub fn to_number(self) -> u16
        ensures value { result ≡ type_number self.method.value self.class }
        ensures range { result < 2 ^ 14 }
        ensures method { method_of result ≡ self.method.value }
        ensures class { class_of result ≡ self.class }
    {
        let method = self.method.value;
        let class = match self.class {
            MessageClass::Request => 0,
            MessageClass::Indication => 0x10,
            MessageClass::Success => 0x100,
            MessageClass::Error => 0x110,
        };
        method % 0x10 + method / 0x10 % 8 * 0x20 + method / 0x80 * 0x200 + class
    }
}

impl MessageClass {
    /// Whether it answers a request: a success or an error.
    pub fn is_response(self) -> bool
        ensures { IsTrue result ↔ IsResponse self }
    {
        matches!(self, MessageClass::Success | MessageClass::Error)
    }
}

/// The header of a message (RFC 8489, section 5), whatever follows it.
#[derive(Clone, Copy, Debug, PartialEq, Eq)]
pub struct MessageHeader {
    /// The method and the class.
    pub message_type: MessageType,
    /// How many bytes of attributes follow the header: a multiple of four.
    pub data_length: u16,
    /// The transaction ID.
    pub transaction_id: TransactionId,
}

impl MessageHeader {
    /// The bytes of a header.
    pub const LENGTH: usize = 20;

    /// The header at the start of the bytes. Bytes after it are unread.
    ///
    /// # Errors
    ///
    /// `Short` if there are fewer than 20 bytes, else `NotStun` if the first two bits are not zero, the
    /// cookie is another, or the length is no multiple of four.
    pub fn from_bytes(bytes: &[u8]) -> Result<MessageHeader, ParseError>
        ensures found { IsOk result ↔ (header_fault_of bytes.now ≡ None) }
        ensures method { IfOk result (λ header. header.message_type.method.value ≡ method_of (type_of bytes.now)) }
        ensures class { IfOk result (λ header. header.message_type.class ≡ class_of (type_of bytes.now)) }
        ensures length { IfOk result (λ header. header.data_length ≡ length_of bytes.now) }
        ensures id { IfOk result (λ header. header.transaction_id ≡ id_of bytes.now) }
        ensures fault { IfErr result (λ fault. header_fault_of bytes.now ≡ Some fault) }
    {
        if bytes.len() < MessageHeader::LENGTH {
            return Err(ParseError::Short);
        }
        if !has_stun_header(bytes) {
            return Err(ParseError::NotStun);
        }
        Ok(MessageHeader {
            message_type: MessageType::from_number(u16_at(bytes, 0)),
            data_length: u16_at(bytes, 2),
            transaction_id: id_at(bytes),
        })
    }
}

//! Messages: parsing, and look-ups of attributes (RFC 8489, sections 5 and 14).

ghost use Rattle.std.specs.Prelude.{◌≡◌, ℕ, ◌+◌, ◌≤◌, ◌↔◌, List, length, All, IsTrue, IsOk, IsSome, IfOk, IfErr, IfSome, MatchOption, MatchResult, Some, None};
ghost use Rattle.std.specs.List.{AllByRecursion};
ghost use Rattle.std.specs.Option.{option_map};
ghost use Rattle.turn_stun.specs.Message.{Attribute, HoldsValue, IsMessage, IsWithin, fault_of, type_of, id_of, attributes_of};
ghost use Rattle.turn_stun.specs.MessageType.{method_of, class_of, IsResponse};
ghost use Rattle.turn_stun.specs.Attributes.{seen_of, first_of, nth_of};
ghost use Rattle.turn_stun.specs.Iterator.{attributes_left, placed};

pub mod attributes;
pub mod header;
pub mod method;
pub(crate) mod parse;
mod seen;
mod text;
pub mod write;

use crate::attribute::typed::AttributeFromRaw;
use crate::attribute::{AttributeType, RawAttribute};
use crate::error::{AttributeError, ParseError};
use crate::message::attributes::MessageAttributesIter;
use crate::message::header::{MessageClass, MessageType};
use crate::message::method::Method;
use crate::message::parse::{fault_in, id_at, u16_at};
use crate::transaction::TransactionId;
use std::marker::Model;

/// A STUN message: its bytes, which were checked to be one.
///
/// Contracts see it as its bytes. All look-ups skip attributes that follow an integrity attribute and are
/// to be ignored (RFC 8489, sections 14.5 and 14.6), allocate no memory and copy nothing.
#[derive(Debug, Drop)]
pub struct Message<'a> {
    bytes: &'a [u8],
}

impl<'a> Model for Message<'a> {
    ghost use Rattle.std.specs.Prelude.{ℕ, List};
    ghost use Rattle.turn_stun.specs.Message.{IsFaultless};

    ghost Value = { List ℕ };

    ghost view = { λ message. message.bytes.now };

    ghost invariant = { λ message. IsFaultless message.bytes.now };
}

impl<'a> Message<'a> {
    /// The message that the bytes are, all of them, by the grammar of RFC 8489, sections 5 and 14, or the
    /// first reason why they are none.
    ///
    /// # Errors
    ///
    /// The first of `Short`, `NotStun`, `Length` and `Attribute` that holds: `ParseError` says when.
    pub fn from_bytes(bytes: &'a [u8]) -> Result<Message<'a>, ParseError>
        // What is accepted is a message.
        ensures found { IfOk result (λ message. (message ≡ bytes.now) × IsMessage bytes.now (type_of bytes.now) (id_of bytes.now) (attributes_of bytes.now)) }
        // What is a message is accepted, and has no other type, transaction ID or attributes.
        ensures only { (type id : ℕ) (attributes : List Attribute) → IsMessage bytes.now type id attributes
            → IsOk result × (attributes_of bytes.now ≡ attributes) }
        // Which error it is.
        ensures fault { IfErr result (λ fault. fault_of bytes.now ≡ Some fault) }
    {
        match fault_in(bytes) {
            Some(fault) => Err(fault),
            None => Ok(Message { bytes }),
        }
    }

    /// The bytes of the message.
    pub fn as_bytes(&self) -> &'a [u8]
        ensures bytes { result.now ≡ self.now }
        ensures message { IsMessage self.now (type_of self.now) (id_of self.now) (attributes_of self.now) }
    {
        self.bytes
    }

    /// The method of the request, indication or response.
    pub fn method(&self) -> Method
        ensures { result.value ≡ method_of (type_of self.now) }
    {
        self.message_type().method
    }

    /// Whether it is a request, an indication, a success or an error.
    pub fn class(&self) -> MessageClass
        ensures { result ≡ class_of (type_of self.now) }
    {
        self.message_type().class
    }

    /// The method and the class.
    pub fn message_type(&self) -> MessageType
        ensures method { result.method.value ≡ method_of (type_of self.now) }
        ensures class { result.class ≡ class_of (type_of self.now) }
    {
        MessageType::from_number(u16_at(self.bytes, 0))
    }

    /// The transaction ID, which is the same in a response and its request.
    pub fn transaction_id(&self) -> TransactionId
        ensures { result ≡ id_of self.now }
    {
        id_at(self.bytes)
    }

    /// Whether the message is a success or an error.
    pub fn is_response(&self) -> bool
        ensures { IsTrue result ↔ IsResponse (class_of (type_of self.now)) }
    {
        self.class().is_response()
    }

    /// Whether this is the message's class.
    pub fn has_class(&self, class: MessageClass) -> bool
        ensures { IsTrue result ↔ (class_of (type_of self.now) ≡ class) }
    {
        self.class() == class
    }

    /// Whether this is the message's method.
    pub fn has_method(&self, method: Method) -> bool
        ensures { IsTrue result ↔ (method_of (type_of self.now) ≡ method.value) }
    {
        self.method() == method
    }

    /// The seen attributes with their offsets, in the order of the message.
    pub fn iter_attributes(&self) -> MessageAttributesIter<'a>
        ensures seen { attributes_left result ≡ seen_of self.now }
        ensures within { AllByRecursion (IsWithin 20 (length self.now)) (seen_of self.now) }
        ensures values { AllByRecursion (HoldsValue self.now) (seen_of self.now) }
    {
        MessageAttributesIter::new(&self.bytes[20..], 20)
    }

    /// The first seen attribute of the type, with its offset.
    pub fn raw_attribute(&self, attribute_type: AttributeType) -> Option<(usize, RawAttribute<'a>)>
        ensures first { option_map placed result ≡ first_of attribute_type.value (seen_of self.now) }
        ensures within { IfSome result (λ found. IsWithin 20 (length self.now) (placed found)) }
    {
        for (offset, raw) in self.iter_attributes() {
            if raw.attribute_type == attribute_type {
                return Some((offset, raw));
            }
        }
        None
    }

    /// Whether an attribute of the type is seen.
    pub fn has_attribute(&self, attribute_type: AttributeType) -> bool
        ensures { IsTrue result ↔ IsSome (first_of attribute_type.value (seen_of self.now)) }
    {
        self.raw_attribute(attribute_type).is_some()
    }

    /// The first seen attribute of the type `A`, which borrows the message's bytes.
    ///
    /// # Errors
    ///
    /// `Absent` if no attribute of the type is seen, `Malformed` if the first one has a value that the
    /// type does not allow.
    pub fn attribute<A: AttributeFromRaw<'a>>(&self) -> Result<A, AttributeError>
        ensures { MatchOption (first_of A.kind (seen_of self.now))
            (result ≡ Err AttributeError.Absent)
            (λ first. MatchResult result
            (λ attribute. A.decodes first.value (id_of self.now) (Some attribute))
            (λ error. (error ≡ AttributeError.Malformed) × A.decodes first.value (id_of self.now) None)) }
    {
        match self.raw_attribute(A::attribute_type()) {
            Some((_, raw)) => self.decode(raw),
            None => Err(AttributeError::Absent),
        }
    }

    /// The seen attribute of the type `A` that follows `n` other seen ones of the type.
    ///
    /// # Errors
    ///
    /// `Absent` if there are not so many, `Malformed` if that one has a value that the type does not
    /// allow.
    pub fn nth_attribute<A: AttributeFromRaw<'a>>(&self, n: usize) -> Result<A, AttributeError>
        ensures { MatchOption (nth_of A.kind n (seen_of self.now))
            (result ≡ Err AttributeError.Absent)
            (λ nth. MatchResult result
            (λ attribute. A.decodes nth.value (id_of self.now) (Some attribute))
            (λ error. (error ≡ AttributeError.Malformed) × A.decodes nth.value (id_of self.now) None)) }
    {
        match self.nth_raw_attribute(A::attribute_type(), n) {
            Some((_, raw)) => self.decode(raw),
            None => Err(AttributeError::Absent),
        }
    }

    fn nth_raw_attribute(
        &self,
        attribute_type: AttributeType,
        n: usize,
    ) -> Option<(usize, RawAttribute<'a>)>
        ensures { option_map placed result ≡ nth_of attribute_type.value n (seen_of self.now) }
    {
        let mut before = n;
        for (offset, raw) in self.iter_attributes() {
            if raw.attribute_type == attribute_type {
                if before == 0 {
                    return Some((offset, raw));
                }
                before -= 1;
            }
        }
        None
    }

    fn decode<A: AttributeFromRaw<'a>>(&self, raw: RawAttribute<'a>) -> Result<A, AttributeError>
        ensures { MatchResult result
            (λ attribute. A.decodes raw.entry.value.now (id_of self.now) (Some attribute))
            (λ error. (error ≡ AttributeError.Malformed) × A.decodes raw.entry.value.now (id_of self.now) None) }
    {
        A::from_value(raw.value, self.transaction_id()).ok_or(AttributeError::Malformed)
    }
}

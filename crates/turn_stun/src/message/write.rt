//! Messages that are written (RFC 8489, sections 5 and 14).

ghost use Rattle.std.specs.Prelude.{◌≡◌, ℕ, ◌+◌, ◌-◌, ◌^◌, ◌<◌, ◌≤◌, ◌↔◌, [], ◌++◌, length, take, replicate, if◌then◌else◌, is_ok, OnOk, OnErr, IfOk, IsErrOf};
ghost use Rattle.std.specs.Int.{w16, to_be_bytes};
ghost use Rattle.turn_stun.specs.Message.{IsMessage, padded_len, type_of, id_of, attributes_of};
ghost use Rattle.turn_stun.specs.MessageType.{type_number, method_of, class_of};
ghost use Rattle.turn_stun.specs.Writer.{AddsAttribute, Extends, IsWritten, cut_to, header_of, with_length, with_attribute, attribute_bytes};
ghost use Rattle.turn_stun.specs.declared.message.header.MessageClass.TheVariants.{Request, Success, Error};

use crate::attribute::padded_len;
use crate::attribute::typed::AttributeWrite;
use crate::error::WriteError;
use crate::message::header::{MessageClass, MessageType};
use crate::message::method::Method;
use crate::message::parse::{id_at, u16_at};
use crate::transaction::TransactionId;
use byteorder::{BigEndian, ByteOrder};
use std::alloc::{AllocError, Global};
use std::marker::Model;

/// The bytes of a header.
const HEADER_LEN: usize = 20;

/// The most bytes that attributes take: the greatest multiple of four that the length field holds.
const MAX_ATTRIBUTES_LEN: usize = 65_532;

/// Room for a signed request of TURN, so that most messages are written without another allocation if the
/// caller names no length.
const USUAL_LEN: usize = 256;

/// A message that is being written. Contracts see it as its bytes, which are a message at any time.
#[derive(Debug, Drop)]
pub struct MessageWriteVec {
    bytes: Vec<u8>,
}

impl Model for MessageWriteVec {
    ghost use Rattle.std.specs.Prelude.{ℕ, List};
    ghost use Rattle.turn_stun.specs.Writer.{IsWritten};

    ghost Value = { List ℕ };

    ghost view = { λ message. message.bytes.items };

    ghost invariant = { λ message. IsWritten message.bytes.items };
}

/// The header of a message with no attributes.
fn header_of(message_type: MessageType, id: TransactionId) -> [u8; 20]
    ensures text { result ≡ header_of (type_number message_type.method.value message_type.class) id }
    ensures type_range { type_number message_type.method.value message_type.class < 2 ^ 14 }
    ensures id_range { id < 2 ^ 96 }
{
    let [a, b] = message_type.to_number().to_be_bytes();
    let [c, d, e, f, g, h, i, j, k, l, m, n] = id.to_bytes();
    [
        a, b, 0, 0, 0x21, 0x12, 0xa4, 0x42, c, d, e, f, g, h, i, j, k, l, m, n,
    ]
}

/// Sets the length field of the message.
fn set_length(message: &mut Vec<u8>, len: u16)
    requires { 20 ≤ length message.old.items }
    ensures { message.new.items ≡ with_length len message.old.items }
{
    BigEndian::write_u16(&mut message[2..4], len);
}

/// Type and length of an attribute.
fn attribute_header(kind: u16, len: u16) -> [u8; 4]
    ensures { result ≡ to_be_bytes w16 kind ++ to_be_bytes w16 len }
{
    let mut header = [0; 4];
    BigEndian::write_u16(&mut header, kind);
    BigEndian::write_u16(&mut header[2..], len);
    header
}

/// Appends up to three zeros.
fn append_padding(out: &mut Vec<u8>, len: usize) -> Result<(), AllocError>
    requires { len ≤ 3 }
    ensures { out.new.items ≡ (if is_ok result then out.old.items ++ replicate len 0 else out.old.items) }
{
    // most values need none
    if len == 0 {
        return Ok(());
    }
    let zeros = [0; 3];
    out.extend_from_slice(&zeros[..len])
}

/// Appends the attribute. On an error `out` may have gained some bytes.
#[tactic(auto, using(std::proofs::lemmas::List::append_assoc))]
fn append_attribute<A: AttributeWrite>(
    attribute: &A,
    id: TransactionId,
    out: &mut Vec<u8>,
) -> Result<(), AllocError>
    requires { length (A.encoded attribute.now id) < 2 ^ 16 }
    ensures ok { OnOk result (out.new.items ≡ out.old.items ++ attribute_bytes (A.written_kind attribute.now) (A.encoded attribute.now id)) }
    ensures err { OnErr result (take (length out.old.items) out.new.items ≡ out.old.items) }
    ensures kind { A.written_kind attribute.now < 2 ^ 16 }
{
    let len = attribute.value_len();
    let header = attribute_header(attribute.get_type().value, len as u16);
    out.extend_from_slice(&header)?;
    attribute.write_value(id, out)?;
    append_padding(out, padded_len(len) - len)
}

/// Appends the attribute to a message, and adjusts the length. On an error the message is as before.
fn extend<A: AttributeWrite>(
    message: &mut Vec<u8>,
    attribute: &A,
    id: TransactionId,
) -> Result<(), AllocError>
    requires written { IsWritten message.old.items }
    requires room { length message.old.items + (4 + padded_len (length (A.encoded attribute.now id))) ≤ 65552 }
    ensures ok { OnOk result (message.new.items ≡ with_attribute (A.written_kind attribute.now) (A.encoded attribute.now id) message.old.items) }
    ensures added { OnOk result (AddsAttribute message.old.items message.new.items (A.written_kind attribute.now) (A.encoded attribute.now id)) }
    ensures err { OnErr result (message.new.items ≡ message.old.items) }
    ensures kept { Extends message.old.items message.new.items }
    ensures written { IsWritten message.new.items }
{
    let before = message.len();
    match append_attribute(attribute, id, message) {
        Ok(()) => {
            let attributes_len = message.len() - HEADER_LEN;
            set_length(message, attributes_len as u16);
            Ok(())
        }
        Err(error) => {
            message.truncate(before);
            Err(error)
        }
    }
}

impl MessageWriteVec {
    /// A message of that type and with that transaction ID, which has no attributes yet.
    ///
    /// # Errors
    ///
    /// `AllocError` if memory allocation fails.
    pub fn builder(
        alloc: Global,
        message_type: MessageType,
        id: TransactionId,
    ) -> Result<MessageWriteVec, AllocError>
        ensures text { IfOk result (λ message. message ≡ header_of (type_number message_type.method.value message_type.class) id) }
        ensures message { IfOk result (λ message. IsMessage message (type_number message_type.method.value message_type.class) id []) }
    {
        MessageWriteVec::builder_with_capacity(alloc, message_type, id, USUAL_LEN)
    }

    /// The same with room for `capacity` bytes in all, the 20 of the header among them. If the message
    /// grows no longer, memory is allocated only once.
    ///
    /// # Errors
    ///
    /// `AllocError` if memory allocation fails.
    pub fn builder_with_capacity(
        alloc: Global,
        message_type: MessageType,
        id: TransactionId,
        capacity: usize,
    ) -> Result<MessageWriteVec, AllocError>
        ensures text { IfOk result (λ message. message ≡ header_of (type_number message_type.method.value message_type.class) id) }
        ensures message { IfOk result (λ message. IsMessage message (type_number message_type.method.value message_type.class) id []) }
    {
        let mut bytes = Vec::with_capacity(alloc, capacity.max(HEADER_LEN))?;
        bytes.extend_from_slice(&header_of(message_type, id))?;
        Ok(MessageWriteVec { bytes })
    }

    /// A request.
    ///
    /// # Errors
    ///
    /// `AllocError` if memory allocation fails.
    pub fn builder_request(
        alloc: Global,
        method: Method,
        id: TransactionId,
    ) -> Result<MessageWriteVec, AllocError>
        ensures text { IfOk result (λ message. message ≡ header_of (type_number method.value Request) id) }
        ensures message { IfOk result (λ message. IsMessage message (type_number method.value Request) id []) }
    {
        let class = MessageClass::Request;
        MessageWriteVec::builder(alloc, MessageType { method, class }, id)
    }

    /// The success response to a request with that method and transaction ID. It does not take the request
    /// (our choice): a reply may be made long after that was dropped.
    ///
    /// # Errors
    ///
    /// `AllocError` if memory allocation fails.
    pub fn builder_success(
        alloc: Global,
        method: Method,
        id: TransactionId,
    ) -> Result<MessageWriteVec, AllocError>
        ensures text { IfOk result (λ message. message ≡ header_of (type_number method.value Success) id) }
        ensures message { IfOk result (λ message. IsMessage message (type_number method.value Success) id []) }
    {
        let class = MessageClass::Success;
        MessageWriteVec::builder(alloc, MessageType { method, class }, id)
    }

    /// The error response to a request with that method and transaction ID. It needs an ERROR-CODE.
    ///
    /// # Errors
    ///
    /// `AllocError` if memory allocation fails.
    pub fn builder_error(
        alloc: Global,
        method: Method,
        id: TransactionId,
    ) -> Result<MessageWriteVec, AllocError>
        ensures text { IfOk result (λ message. message ≡ header_of (type_number method.value Error) id) }
        ensures message { IfOk result (λ message. IsMessage message (type_number method.value Error) id []) }
    {
        let class = MessageClass::Error;
        MessageWriteVec::builder(alloc, MessageType { method, class }, id)
    }

    /// The bytes of the message so far.
    pub fn as_bytes(&self) -> &[u8]
        ensures bytes { result.now ≡ self.now }
        ensures message { IsMessage self.now (type_of self.now) (id_of self.now) (attributes_of self.now) }
        ensures written { IsWritten self.now }
        ensures short { length self.now ≤ 65552 }
    {
        self.bytes.as_slice()
    }

    /// The transaction ID of the message.
    pub fn transaction_id(&self) -> TransactionId
        ensures { result ≡ id_of self.now }
    {
        id_at(self.bytes.as_slice())
    }

    /// The method and class of the message.
    pub fn message_type(&self) -> MessageType
        ensures method { result.method.value ≡ method_of (type_of self.now) }
        ensures class { result.class ≡ class_of (type_of self.now) }
    {
        MessageType::from_number(u16_at(self.bytes.as_slice(), 0))
    }

    /// Makes room for `additional` bytes after the present ones. While the message grows by no more, no
    /// memory is allocated.
    ///
    /// # Errors
    ///
    /// `AllocError` if memory allocation fails.
    pub fn reserve(&mut self, additional: usize) -> Result<(), AllocError>
        ensures { self.new ≡ self.old }
    {
        self.bytes.reserve_exact(additional)
    }

    /// Removes the attributes after the first `len` bytes. The rest has to be a message: it is one if the
    /// message had that length before, whatever was added since. Allocates no memory.
    pub fn truncate(&mut self, len: usize)
        requires within { len ≤ length self.old }
        requires whole { IsWritten (cut_to len self.old) }
        ensures { self.new ≡ cut_to len self.old }
    {
        self.bytes.truncate(len);
        set_length(&mut self.bytes, (len - HEADER_LEN) as u16);
    }

    /// Adds an attribute at the end, with padding of zeros.
    ///
    /// # Errors
    ///
    /// `TooLong` if the attributes would take more than 65,532 bytes; else `OutOfMemory` if memory
    /// allocation fails. The message is then as before.
    pub fn add_attribute<A: AttributeWrite>(&mut self, attribute: &A) -> Result<(), WriteError>
        ensures text { OnOk result (self.new ≡ with_attribute (A.written_kind attribute.now) (A.encoded attribute.now (id_of self.old)) self.old) }
        ensures added { OnOk result (AddsAttribute self.old self.new (A.written_kind attribute.now) (A.encoded attribute.now (id_of self.old))) }
        ensures too_long { IsErrOf result WriteError.TooLong
            ↔ (65552 < length self.old + (4 + padded_len (length (A.encoded attribute.now (id_of self.old))))) }
        ensures err { OnErr result (self.new ≡ self.old) }
        ensures kept { Extends self.old self.new }
    {
        let len = attribute.value_len();
        let before = self.bytes.len();
        if len > MAX_ATTRIBUTES_LEN
            || before + (4 + padded_len(len)) > HEADER_LEN + MAX_ATTRIBUTES_LEN
        {
            return Err(WriteError::TooLong);
        }
        let id = id_at(self.bytes.as_slice());
        extend(&mut self.bytes, attribute, id)?;
        Ok(())
    }

    /// The bytes of the message.
    pub fn finish(self) -> Vec<u8>
        ensures bytes { result.items ≡ self }
        ensures message { IsMessage result.items (type_of self) (id_of self) (attributes_of self) }
    {
        self.bytes
    }
}

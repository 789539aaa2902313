//! Messages that are written.

use crate::fixture::{ALLOCATE, FIRST_ID, check, raw, same, same_bytes};
use crate::stun::fixture::{add, parsed, request};
use crate::stun::messages::ALLOCATE_REQUEST;
use std::alloc::Global;
use std::process::Abort;
use turn_stun::attribute::error_code::ErrorCode;
use turn_stun::attribute::nonce::Nonce;
use turn_stun::attribute::password_algorithms::PasswordAlgorithms;
use turn_stun::attribute::realm::Realm;
use turn_stun::attribute::userhash::Userhash;
use turn_stun::attribute::username::Username;
use turn_stun::error::WriteError;
use turn_stun::message::Message;
use turn_stun::message::header::{MessageClass, MessageType};
use turn_stun::message::method::Method;
use turn_stun::message::write::MessageWriteVec;
use turn_stun::transaction::TransactionId;

/// The types and values of the attributes of a first ALLOCATE.
static ADDED: [(u16, &[u8]); 3] = [
    (0x000d, b"\x00\x00\x07\x08"),
    (0x0019, b"\x11\x00\x00\x00"),
    (0x001a, b""),
];

/// Asserts that this is that ALLOCATE.
fn assert_request(rt: &impl Abort, message: &MessageWriteVec) {
    same_bytes(rt, message.as_bytes(), ALLOCATE_REQUEST);
    let found = (message.transaction_id(), message.message_type().class);
    let id = TransactionId::from_bytes(FIRST_ID);
    same(rt, found, (id, MessageClass::Request));
}

#[test]
fn a_request_is_written(rt: HostRuntime) {
    let mut message = request(&rt, rt.alloc());
    for (kind, value) in &ADDED {
        add(&rt, &mut message, &raw(*kind, *value));
    }
    assert_request(&rt, &message);
    same_bytes(&rt, message.finish().as_slice(), ALLOCATE_REQUEST);
}

#[test]
fn a_request_that_is_begun_with_its_length_never_grows(rt: HostRuntime) {
    let id = TransactionId::from_bytes(FIRST_ID);
    let message_type = MessageType {
        method: ALLOCATE,
        class: MessageClass::Request,
    };
    let len = ALLOCATE_REQUEST.len();
    let begun = MessageWriteVec::builder_with_capacity(rt.alloc(), message_type, id, len);
    let mut message = begun.expect(&rt, "memory");
    for (kind, value) in &ADDED {
        add(&rt, &mut message, &raw(*kind, *value));
    }
    assert_request(&rt, &message);
    same(&rt, message.finish().capacity(), len);
}

/// Adds an attribute, after it makes room for it, and removes it.
fn adds_and_takes_off(rt: &impl Abort, message: &mut MessageWriteVec) {
    let before = message.as_bytes().len();
    message.reserve(300).expect(rt, "memory");
    message
        .add_attribute(&raw(0x0013, b"five!"))
        .expect(rt, "memory and room");
    same(rt, message.as_bytes().len(), before + 12);
    message.truncate(before);
}

#[test]
fn what_was_there_stays_when_attributes_are_taken_off(rt: HostRuntime) {
    let mut message = request(&rt, rt.alloc());
    for (kind, value) in &ADDED {
        add(&rt, &mut message, &raw(*kind, *value));
    }
    adds_and_takes_off(&rt, &mut message);
    assert_request(&rt, &message);
    same(
        &rt,
        message.finish().capacity(),
        ALLOCATE_REQUEST.len() + 300,
    );
}

/// An error response of four attributes.
const ERROR_RESPONSE: &[u8] = b"\x01\x13\x00\x28\x21\x12\xa4\x42\
    \x76\xb8\xe0\xad\xa0\xf1\x3d\x90\x40\x5d\x6a\xe5\
    \x00\x09\x00\x05\x00\x00\x04\x01?\x00\x00\x00\x00\x06\x00\x04user\
    \x00\x14\x00\x05realm\x00\x00\x00\x00\x15\x00\x01n\x00\x00\x00";

/// Writes these attributes.
fn writes_error_response(rt: &impl Abort, message: &mut MessageWriteVec) {
    add(rt, message, &ErrorCode::new(401, b"?"));
    add(rt, message, &Username::new(b"user"));
    add(rt, message, &Realm::new(b"realm"));
    add(rt, message, &Nonce::new(b"n"));
    same_bytes(rt, message.as_bytes(), ERROR_RESPONSE);
}

#[test]
fn an_error_response_is_written(rt: HostRuntime) {
    let id = TransactionId::from_bytes(FIRST_ID);
    let built = MessageWriteVec::builder_error(rt.alloc(), ALLOCATE, id);
    let mut message = built.expect(&rt, "memory");
    writes_error_response(&rt, &mut message);
    let found = parsed(&rt, message.as_bytes());
    check(&rt, found.has_class(MessageClass::Error));
}

/// An indication with a PASSWORD-ALGORITHMS and a USERHASH.
fn indication(rt: &impl Abort, alloc: Global) -> MessageWriteVec {
    let message_type = MessageType {
        method: Method { value: 1 },
        class: MessageClass::Indication,
    };
    let id = TransactionId::from_bytes(FIRST_ID);
    let mut message = MessageWriteVec::builder(alloc, message_type, id).expect(rt, "memory");
    let list = PasswordAlgorithms::from_bytes(b"\x00\x02\x00\x00").expect(rt, "a list");
    add(rt, &mut message, &list);
    add(rt, &mut message, &Userhash::new([7; 32]));
    message
}

#[test]
fn the_other_values_are_written(rt: HostRuntime) {
    let message = indication(&rt, rt.alloc());
    let found = parsed(&rt, message.as_bytes());
    let hash = found.attribute::<Userhash>().expect(&rt, "a hash");
    same_bytes(&rt, hash.hash(), &[7; 32]);
    check(&rt, found.attribute::<PasswordAlgorithms>().is_ok());
}

#[test]
fn a_success_begins_with_one(rt: HostRuntime) {
    let id = TransactionId::from_bytes(FIRST_ID);
    let message = MessageWriteVec::builder_success(rt.alloc(), Method { value: 1 }, id);
    let message = message.expect(&rt, "memory");
    same(&rt, message.as_bytes().first().copied(), Some(1));
}

/// Asserts that the attribute is refused for its length, and that the message is unchanged.
fn assert_too_long(rt: &impl Abort, message: &mut MessageWriteVec, value: &[u8]) {
    let before = message.as_bytes().len();
    let refusal = message.add_attribute(&raw(0x001a, value)).err();
    same(rt, refusal, Some(WriteError::TooLong));
    same(rt, message.as_bytes().len(), before);
}

fn zeros(rt: &impl Abort, alloc: Global, len: usize) -> Vec<u8> {
    vec![in alloc; 0; len].expect(rt, "memory")
}

/// Asserts that the value is a byte too long, and that there is no room for another attribute after the value
/// without that byte.
fn assert_longest(rt: &impl Abort, message: &mut MessageWriteVec, value: &[u8]) {
    assert_too_long(rt, message, value);
    same(rt, message.as_bytes().len(), 20);
    let longest = value.get(..65_528).expect(rt, "the longest value");
    add(rt, message, &raw(0x0013, longest));
    same(rt, message.as_bytes().len(), 65_552);
    assert_too_long(rt, message, b"");
}

#[test]
fn attributes_take_no_more_than_they_may(rt: HostRuntime) {
    let value = zeros(&rt, rt.alloc(), 65_529);
    let mut message = request(&rt, rt.alloc());
    assert_longest(&rt, &mut message, value.as_slice());
    check(&rt, Message::from_bytes(message.as_bytes()).is_ok());
}

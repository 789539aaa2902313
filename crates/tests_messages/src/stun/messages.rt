//! Messages that are parsed, and bytes that are no message.

use crate::fixture::{ALLOCATE, FIRST_ID, check, same, same_bytes};
use crate::stun::fixture::parsed;
use std::alloc::Global;
use std::process::Abort;
use turn_stun::attribute::realm::Realm;
use turn_stun::attribute::{AttributeType, RawAttribute};
use turn_stun::error::{AttributeError, ParseError};
use turn_stun::message::Message;
use turn_stun::message::header::{MessageClass, MessageHeader, MessageType};
use turn_stun::transaction::TransactionId;

/// A first ALLOCATE of TURN: LIFETIME 1800, REQUESTED-TRANSPORT 17, DONT-FRAGMENT.
pub(crate) const ALLOCATE_REQUEST: &[u8] = b"\x00\x03\x00\x14\x21\x12\xa4\x42\
    \x76\xb8\xe0\xad\xa0\xf1\x3d\x90\x40\x5d\x6a\xe5\
    \x00\x0d\x00\x04\x00\x00\x07\x08\x00\x19\x00\x04\x11\x00\x00\x00\x00\x1a\x00\x00";

/// Its 401 response: ERROR-CODE 401, REALM `realm`, NONCE `nonce`.
const UNAUTHORIZED: &[u8] = b"\x01\x13\x00\x20\x21\x12\xa4\x42\
    \x76\xb8\xe0\xad\xa0\xf1\x3d\x90\x40\x5d\x6a\xe5\
    \x00\x09\x00\x04\x00\x00\x04\x01\x00\x14\x00\x05realm\x00\x00\x00\
    \x00\x15\x00\x05nonce\x00\x00\x00";

/// Attributes around both integrity attributes, one byte of value each.
pub(crate) const BEHIND_INTEGRITY: &[u8] = b"\x00\x01\x00\x40\x21\x12\xa4\x42\
    \x76\xb8\xe0\xad\xa0\xf1\x3d\x90\x40\x5d\x6a\xe5\
    \x00\x14\x00\x01a\xff\xff\xff\x00\x08\x00\x01b\x00\x00\x00\
    \x00\x14\x00\x01c\x00\x00\x00\x00\x08\x00\x01d\x00\x00\x00\
    \x00\x1c\x00\x01e\x00\x00\x00\x00\x1c\x00\x01f\x00\x00\x00\
    \x80\x28\x00\x01g\x00\x00\x00\x80\x28\x00\x01h\x00\x00\x00";

/// Bytes that are no message, and why. Most have more than one error: the first is reported.
const REFUSED: &[(&[u8], ParseError)] = &[
    (
        b"\x00\x03\x00\x14\x21\x12\xa4\x42\x76\xb8\xe0\xad\xa0\xf1\x3d\x90\x40\x5d\x6a",
        ParseError::Short,
    ),
    (
        b"\x00\x03\x00\x04\x21\x12\xa4\x42\x76\xb8\xe0\xad\xa0\xf1\x3d\x90\x40\x5d\x6a\xe5",
        ParseError::Length,
    ),
    (
        b"\x00\x03\x00\x04\x21\x12\xa4\x42\x76\xb8\xe0\xad\xa0\xf1\x3d\x90\x40\x5d\x6a\xe5\
        \x00\x14\x00\x08",
        ParseError::Attribute,
    ),
    (
        b"\x00\x03\x00\x00\x21\x12\xa4\x42\x76\xb8\xe0\xad\xa0\xf1\x3d\x90\x40\x5d\x6a\xe5\
        \x00\x14\x00\x08",
        ParseError::Length,
    ),
    (
        b"\x00\x03\x00\x00\x21\x12\xa4\x42\x76\xb8\xe0\xad\xa0\xf1\x3d\x90\x40\x5d\x6a\xe5\
        \x00\x00\x00\x00",
        ParseError::Length,
    ),
    (
        b"\x00\x03\x00\x00\x21\x12\xa4\x43\x76\xb8\xe0\xad\xa0\xf1\x3d\x90\x40\x5d\x6a\xe5\
        \x00\x14\x00\x08",
        ParseError::NotStun,
    ),
    (&[0x40; 20], ParseError::NotStun),
];

/// Asserts why the bytes are no message, or with `None` that they are a message.
fn assert_fault(rt: &impl Abort, bytes: &[u8], expected: Option<ParseError>) {
    same(rt, Message::from_bytes(bytes).err(), expected);
}

#[test]
fn refusals_come_in_their_order(rt: HostRuntime) {
    for (bytes, fault) in REFUSED {
        assert_fault(&rt, bytes, Some(*fault));
    }
}

#[test]
fn a_message_cut_anywhere_is_refused(rt: HostRuntime) {
    for end in 0..UNAUTHORIZED.len() {
        let fault = if end < 20 {
            ParseError::Short
        } else {
            ParseError::Length
        };
        assert_fault(&rt, &UNAUTHORIZED[..end], Some(fault));
    }
    assert_fault(&rt, UNAUTHORIZED, None);
}

/// A place in the response, another byte there, and why the bytes are then no message: its length is wrong by
/// up to four, or the value of NONCE exceeds the message by one byte and by three.
const ALTERED: &[(usize, u8, ParseError)] = &[
    (3, 0x21, ParseError::NotStun),
    (3, 0x1f, ParseError::NotStun),
    (3, 0x22, ParseError::NotStun),
    (3, 0x1e, ParseError::NotStun),
    (3, 0x23, ParseError::NotStun),
    (3, 0x1d, ParseError::NotStun),
    (3, 0x24, ParseError::Length),
    (3, 0x1c, ParseError::Length),
    (43, 9, ParseError::Attribute),
    (43, 11, ParseError::Attribute),
];

/// The response with another byte at this place.
fn altered(rt: &impl Abort, alloc: Global, at: usize, byte: u8) -> Vec<u8> {
    let mut bytes = UNAUTHORIZED.to_vec(alloc).expect(rt, "memory");
    assert!(rt; at < bytes.len());
    bytes[at] = byte;
    bytes
}

#[test]
fn a_length_that_is_off_is_refused(rt: HostRuntime) {
    for (at, byte, fault) in ALTERED {
        let bytes = altered(&rt, rt.alloc(), *at, *byte);
        assert_fault(&rt, bytes.as_slice(), Some(*fault));
    }
}

#[test]
fn a_request_has_its_header(rt: HostRuntime) {
    let message = parsed(&rt, ALLOCATE_REQUEST);
    let id = TransactionId::from_bytes(FIRST_ID);
    let found = (message.method(), message.class(), message.transaction_id());
    same(&rt, found, (ALLOCATE, MessageClass::Request, id));
    let is_request = message.has_class(MessageClass::Request);
    let found = (
        message.is_response(),
        is_request,
        message.has_method(ALLOCATE),
    );
    same(&rt, found, (false, true, true));
    same_bytes(&rt, message.as_bytes(), ALLOCATE_REQUEST);
}

/// An attribute: its offset, its type and its value.
type Seen = (usize, u16, &'static [u8]);

/// Asserts which attributes are visible.
fn assert_seen(rt: &impl Abort, message: &Message<'_>, expected: &[Seen]) {
    let mut found = message.iter_attributes();
    for attribute in expected {
        let (offset, raw) = found.next().expect(rt, "an attribute");
        same(
            rt,
            (offset, raw.attribute_type.value, raw.value),
            *attribute,
        );
    }
    check(rt, found.next().is_none());
}

static OF_THE_REQUEST: [Seen; 3] = [
    (20, 0x000d, b"\x00\x00\x07\x08"),
    (28, 0x0019, b"\x11\x00\x00\x00"),
    (36, 0x001a, b""),
];

#[test]
fn a_request_has_its_attributes(rt: HostRuntime) {
    let message = parsed(&rt, ALLOCATE_REQUEST);
    assert_seen(&rt, &message, &OF_THE_REQUEST);
    check(&rt, message.has_attribute(AttributeType { value: 0x001a }));
    check(&rt, !message.has_attribute(AttributeType::REALM));
}

/// Asserts that there is a realm, and its value.
fn assert_realm(rt: &impl Abort, found: Result<Realm<'_>, AttributeError>, expected: &[u8]) {
    let realm = found.expect(rt, "a realm");
    same_bytes(rt, realm.as_bytes(), expected);
}

/// Asserts that there is no realm.
fn assert_no_realm(rt: &impl Abort, found: Result<Realm<'_>, AttributeError>) {
    same(rt, found.err(), Some(AttributeError::Absent));
}

#[test]
fn a_challenge_has_a_realm(rt: HostRuntime) {
    let message = parsed(&rt, UNAUTHORIZED);
    check(&rt, message.is_response());
    check(&rt, message.has_class(MessageClass::Error));
    assert_realm(&rt, message.attribute(), b"realm");
    assert_realm(&rt, message.nth_attribute(0), b"realm");
    assert_no_realm(&rt, message.nth_attribute(1));
    assert_no_realm(&rt, parsed(&rt, ALLOCATE_REQUEST).attribute());
}

#[test]
fn a_header_is_read_on_its_own(rt: HostRuntime) {
    let header = MessageHeader::from_bytes(UNAUTHORIZED).expect(&rt, "a header");
    same(
        &rt,
        (header.data_length, header.message_type.method),
        (32, ALLOCATE),
    );
    let short = MessageHeader::from_bytes(b"short").err();
    same(&rt, short, Some(ParseError::Short));
    let other = MessageHeader::from_bytes(&[0xff; 20]).err();
    same(&rt, other, Some(ParseError::NotStun));
}

static NOT_HIDDEN: [Seen; 5] = [
    (20, 0x0014, b"a"),
    (28, 0x0008, b"b"),
    (52, 0x001c, b"e"),
    (68, 0x8028, b"g"),
    (76, 0x8028, b"h"),
];

#[test]
fn attributes_behind_integrity_are_hidden(rt: HostRuntime) {
    let message = parsed(&rt, BEHIND_INTEGRITY);
    assert_seen(&rt, &message, &NOT_HIDDEN);
    let found = message.raw_attribute(AttributeType::MESSAGE_INTEGRITY_SHA256);
    let (offset, raw) = found.expect(&rt, "integrity");
    same(&rt, (offset, raw.value), (52, b"e".as_slice()));
    assert_no_realm(&rt, message.nth_attribute(1));
}

#[test]
fn a_raw_attribute_is_read_whole(rt: HostRuntime) {
    let cut = RawAttribute::from_bytes(b"\x00\x14\x00\x01a\x00\x00");
    check(&rt, cut.is_none());
    let first = RawAttribute::from_bytes(&BEHIND_INTEGRITY[20..]).expect(&rt, "an attribute");
    same_bytes(&rt, first.value, b"a");
    same(&rt, first.attribute_type, AttributeType::REALM);
}

/// The numbers of ALLOCATE's types.
const TYPES: &[(u16, MessageClass)] = &[
    (0x0003, MessageClass::Request),
    (0x0013, MessageClass::Indication),
    (0x0103, MessageClass::Success),
    (0x0113, MessageClass::Error),
];

#[test]
fn every_class_has_its_number(rt: HostRuntime) {
    for (number, class) in TYPES {
        let read = MessageType::from_number(*number);
        let found = (read.method, read.class, read.to_number());
        same(&rt, found, (ALLOCATE, *class, *number));
    }
}

#[test]
fn half_of_the_types_are_required(rt: HostRuntime) {
    check(&rt, AttributeType::REALM.is_comprehension_required());
    check(&rt, !AttributeType::FINGERPRINT.is_comprehension_required());
}

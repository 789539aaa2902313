//! What packets say: those that RFC 5769 prints, and others that were made from them by hand.

use crate::fixture::{check, same, same_bytes};
use std::net::SocketAddr;
use std::process::Abort;
use turn_hints::{
    FirstFrame, alternate_server_of, code_of, first_frame, len_of, mapped_address_of, place_of,
    reason_place_of,
};
use turn_stun::attribute::AttributeType;
use turn_stun::message::Message;
use turn_stun::transport::TransportType;

/// RFC 5769, section 2.2: a response with SOFTWARE, XOR-MAPPED-ADDRESS, MESSAGE-INTEGRITY and FINGERPRINT.
const RESPONSE_4: &[u8] = b"\x01\x01\x00\x3c\x21\x12\xa4\x42\xb7\xe7\xa7\x01\
    \xbc\x34\xd6\x86\xfa\x87\xdf\xae\x80\x22\x00\x0b\
    \x74\x65\x73\x74\x20\x76\x65\x63\x74\x6f\x72\x20\
    \x00\x20\x00\x08\x00\x01\xa1\x47\xe1\x12\xa6\x43\
    \x00\x08\x00\x14\x2b\x91\xf5\x99\xfd\x9e\x90\xc3\
    \x8c\x74\x89\xf9\x2a\xf9\xba\x53\xf0\x6b\xe7\xd7\
    \x80\x28\x00\x04\xc0\x7d\x4c\x96";

/// RFC 5769, section 2.3: the same with an IPv6 address.
const RESPONSE_6: &[u8] = b"\x01\x01\x00\x48\x21\x12\xa4\x42\xb7\xe7\xa7\x01\
    \xbc\x34\xd6\x86\xfa\x87\xdf\xae\x80\x22\x00\x0b\
    \x74\x65\x73\x74\x20\x76\x65\x63\x74\x6f\x72\x20\
    \x00\x20\x00\x14\x00\x02\xa1\x47\x01\x13\xa9\xfa\
    \xa5\xd3\xf1\x79\xbc\x25\xf4\xb5\xbe\xd2\xb9\xd9\
    \x00\x08\x00\x14\xa3\x82\x95\x4e\x4b\xe6\x7b\xf1\
    \x17\x84\xc9\x7c\x82\x92\xc2\x75\xbf\xe3\xed\x41\
    \x80\x28\x00\x04\xc8\xfb\x0b\x4c";

/// RFC 5769, section 2.4: a request with USERNAME, NONCE, REALM and MESSAGE-INTEGRITY.
const REQUEST: &[u8] = b"\x00\x01\x00\x60\x21\x12\xa4\x42\x78\xad\x34\x33\
    \xc6\xad\x72\xc0\x29\xda\x41\x2e\x00\x06\x00\x12\
    \xe3\x83\x9e\xe3\x83\x88\xe3\x83\xaa\xe3\x83\x83\
    \xe3\x82\xaf\xe3\x82\xb9\x00\x00\x00\x15\x00\x1c\
    \x66\x2f\x2f\x34\x39\x39\x6b\x39\x35\x34\x64\x36\
    \x4f\x4c\x33\x34\x6f\x4c\x39\x46\x53\x54\x76\x79\
    \x36\x34\x73\x41\x00\x14\x00\x0b\x65\x78\x61\x6d\
    \x70\x6c\x65\x2e\x6f\x72\x67\x00\x00\x08\x00\x14\
    \xf6\x70\x24\x65\x6d\xd6\x4a\x3e\x02\xb8\xe0\x71\
    \x2e\x85\xc9\xa2\x8c\xa8\x96\x66";

/// An error response to CREATE_PERMISSION: 403 "Forbidden", and ALTERNATE-SERVER 192.0.2.7:3478.
const FORBIDDEN: &[u8] = b"\x01\x18\x00\x20\x21\x12\xa4\x42\x00\x01\x02\x03\
    \x04\x05\x06\x07\x08\x09\x0a\x0b\x00\x09\x00\x0d\
    \x00\x00\x04\x03\x46\x6f\x72\x62\x69\x64\x64\x65\
    \x6e\x00\x00\x00\x80\x23\x00\x08\x00\x01\x0d\x96\
    \xc0\x00\x02\x07";

/// An error response to ALLOCATE: 300 with no reason, and ALTERNATE-SERVER [2001:db8::7]:3478.
const TRY_ALTERNATE: &[u8] = b"\x01\x13\x00\x20\x21\x12\xa4\x42\x00\x01\x02\x03\
    \x04\x05\x06\x07\x08\x09\x0a\x0b\x00\x09\x00\x04\
    \x00\x00\x03\x00\x80\x23\x00\x14\x00\x02\x0d\x96\
    \x20\x01\x0d\xb8\x00\x00\x00\x00\x00\x00\x00\x00\
    \x00\x00\x00\x07";

/// The same with the code 700, XOR-MAPPED-ADDRESS of family 3, and ALTERNATE-SERVER that lacks its last byte.
const MALFORMED: &[u8] = b"\x01\x13\x00\x20\x21\x12\xa4\x42\x00\x01\x02\x03\
    \x04\x05\x06\x07\x08\x09\x0a\x0b\x00\x09\x00\x04\
    \x00\x00\x07\x00\x00\x20\x00\x08\x00\x03\xa1\x47\
    \xe1\x12\xa6\x43\x80\x23\x00\x07\x00\x01\x0d\x96\
    \xc0\x00\x02\x00";

/// A success with XOR-MAPPED-ADDRESS behind MESSAGE-INTEGRITY, where it does not count.
const BEHIND_INTEGRITY: &[u8] = b"\x01\x01\x00\x24\x21\x12\xa4\x42\x00\x01\x02\x03\
    \x04\x05\x06\x07\x08\x09\x0a\x0b\x00\x08\x00\x14\
    \x00\x00\x00\x00\x00\x00\x00\x00\x00\x00\x00\x00\
    \x00\x00\x00\x00\x00\x00\x00\x00\x00\x20\x00\x08\
    \x00\x01\xa1\x47\xe1\x12\xa6\x43";

const SOFTWARE: AttributeType = AttributeType { value: 0x8022 };

/// What bytes begin with, and how long it is.
#[derive(Clone, Copy, Debug, PartialEq, Eq)]
enum Begins {
    Message(usize),
    ChannelData(u16, usize),
    Part,
    NoFrame,
}

fn first_of(transport: TransportType, bytes: &[u8]) -> Begins {
    match first_frame(transport, bytes) {
        FirstFrame::Message(message) => Begins::Message(len_of(&message)),
        FirstFrame::ChannelData(channel, len) => Begins::ChannelData(channel.id(), len),
        FirstFrame::Part => Begins::Part,
        FirstFrame::NoFrame => Begins::NoFrame,
    }
}

/// Bytes, and what they are as a datagram and as the beginning of a stream.
const FRAMES: &[(&[u8], Begins, Begins)] = &[
    (b"", Begins::NoFrame, Begins::Part),
    (b"\x00", Begins::NoFrame, Begins::Part),
    (b"\x80", Begins::NoFrame, Begins::NoFrame),
    (b"\x40\x00\x00", Begins::NoFrame, Begins::Part),
    (
        b"\x40\x00\x00\x03abc",
        Begins::ChannelData(0x4000, 7),
        Begins::Part,
    ),
    (
        b"\x40\x00\x00\x03abc\x00",
        Begins::ChannelData(0x4000, 7),
        Begins::ChannelData(0x4000, 8),
    ),
    (
        b"\x7f\xff\x00\x00\xff",
        Begins::ChannelData(0x7fff, 4),
        Begins::ChannelData(0x7fff, 4),
    ),
    (RESPONSE_4, Begins::Message(80), Begins::Message(80)),
    (RESPONSE_6, Begins::Message(92), Begins::Message(92)),
    (FORBIDDEN, Begins::Message(52), Begins::Message(52)),
];

#[test]
fn frames_are_told_apart(rt: HostRuntime) {
    for (bytes, datagram, stream) in FRAMES {
        same(&rt, first_of(TransportType::Udp, bytes), *datagram);
        same(&rt, first_of(TransportType::Tcp, bytes), *stream);
    }
}

#[test]
fn a_part_of_a_message_is_none(rt: HostRuntime) {
    for end in 0..RESPONSE_4.len() {
        let part = &RESPONSE_4[..end];
        same(&rt, first_of(TransportType::Udp, part), Begins::NoFrame);
        same(&rt, first_of(TransportType::Tcp, part), Begins::Part);
    }
}

/// Messages, with their code, their mapped address and their other server.
const SAID: &[(&[u8], Option<u16>, Option<&str>, Option<&str>)] = &[
    (RESPONSE_4, None, Some("192.0.2.1:32853"), None),
    (
        RESPONSE_6,
        None,
        Some("[2001:db8:1234:5678:11:2233:4455:6677]:32853"),
        None,
    ),
    (REQUEST, None, None, None),
    (FORBIDDEN, Some(403), None, Some("192.0.2.7:3478")),
    (TRY_ALTERNATE, Some(300), None, Some("[2001:db8::7]:3478")),
    (MALFORMED, None, None, None),
    (BEHIND_INTEGRITY, None, None, None),
];

/// Asserts that this address, or none, was found.
fn same_address(rt: &impl Abort, found: Option<SocketAddr>, want: Option<&str>) {
    let want = want.map(|text: &str| -> SocketAddr { text.parse().expect(rt, "an address") });
    same(rt, found, want);
}

#[test]
fn messages_say_a_code_and_addresses(rt: HostRuntime) {
    for (bytes, code, mapped, alternate) in SAID {
        let message = Message::from_bytes(bytes).expect(&rt, "a message");
        same(&rt, code_of(&message), *code);
        same_address(&rt, mapped_address_of(&message), *mapped);
        same_address(&rt, alternate_server_of(&message), *alternate);
    }
}

/// Messages, an attribute, and its value, or none.
const VALUES: &[(&[u8], AttributeType, Option<&[u8]>)] = &[
    (RESPONSE_4, SOFTWARE, Some(b"test vector")),
    (REQUEST, AttributeType::REALM, Some(b"example.org")),
    (REQUEST, SOFTWARE, None),
    (
        FORBIDDEN,
        AttributeType::ERROR_CODE,
        Some(b"\x00\x00\x04\x03Forbidden"),
    ),
    (BEHIND_INTEGRITY, AttributeType { value: 0x0020 }, None),
];

#[test]
fn values_lie_where_they_are_said_to(rt: HostRuntime) {
    for (bytes, kind, value) in VALUES {
        let message = Message::from_bytes(bytes).expect(&rt, "a message");
        let found = place_of(&message, *kind);
        same(&rt, found.map(|place| &bytes[place]), *value);
    }
}

#[test]
fn the_reason_of_an_error_is_found(rt: HostRuntime) {
    let message = Message::from_bytes(FORBIDDEN).expect(&rt, "a message");
    let place = reason_place_of(&message).expect(&rt, "a reason");
    same_bytes(&rt, &FORBIDDEN[place], b"Forbidden");
    let message = Message::from_bytes(MALFORMED).expect(&rt, "a message");
    check(&rt, reason_place_of(&message).is_none());
}

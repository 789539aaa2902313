//! The values of attributes.

use crate::fixture::{SECOND_ID, check, same, same_bytes};
use std::alloc::Global;
use std::net::SocketAddr;
use std::process::Abort;
use turn_stun::attribute::error_code::ErrorCode;
use turn_stun::attribute::nonce::Nonce;
use turn_stun::attribute::password_algorithms::{PasswordAlgorithm, PasswordAlgorithms};
use turn_stun::attribute::realm::Realm;
use turn_stun::attribute::typed::{AttributeFromRaw, AttributeWrite};
use turn_stun::attribute::userhash::Userhash;
use turn_stun::attribute::username::Username;
use turn_stun::attribute::xor_address::XorSocketAddr;
use turn_stun::transaction::TransactionId;

/// Enough bytes for the longest value below.
static LONG: [u8; 800] = [b'x'; 800];

fn is_read<'a, A: AttributeFromRaw<'a> + Drop>(value: &'a [u8]) -> bool {
    A::from_value(value, TransactionId::from_bytes(SECOND_ID)).is_some()
}

#[test]
fn user_names_are_read_within_their_bounds(rt: HostRuntime) {
    for (len, is_short) in [(0, false), (1, true), (508, true), (509, false)] {
        same(&rt, is_read::<Username>(&LONG[..len]), is_short);
    }
}

#[test]
fn realms_and_nonces_are_read_within_their_bounds(rt: HostRuntime) {
    for (len, is_short) in [(0, false), (1, true), (763, true), (764, false)] {
        same(&rt, is_read::<Realm>(&LONG[..len]), is_short);
        same(&rt, is_read::<Nonce>(&LONG[..len]), is_short);
    }
}

#[test]
fn hashes_are_read_within_their_bounds(rt: HostRuntime) {
    for (len, is_hash) in [(31, false), (32, true), (33, false)] {
        same(&rt, is_read::<Userhash>(&LONG[..len]), is_hash);
    }
}

/// Values of ERROR-CODE, and their codes.
const ERROR_CODES: &[(&[u8], Option<u16>)] = &[
    (b"\x00\x00\x03\x00", Some(300)),
    (b"\xff\xff\xfe\x63", Some(699)),
    (b"\x00\x00\x02\x63", None),
    (b"\x00\x00\x07\x00", None),
    (b"\x00\x00\x04\x64", None),
    (b"\x00\x00\x04", None),
    (b"\x00\x00\x04\x01Unauthorized", Some(401)),
    (b"", None),
];

/// The code in the value of an ERROR-CODE.
fn code_of(value: &[u8]) -> Option<u16> {
    match ErrorCode::from_value(value, TransactionId::from_bytes(SECOND_ID)) {
        Some(error) => Some(error.code()),
        None => None,
    }
}

#[test]
fn error_codes_are_read_within_their_bounds(rt: HostRuntime) {
    for (value, code) in ERROR_CODES {
        same(&rt, code_of(value), *code);
    }
}

#[test]
fn an_error_code_has_a_reason(rt: HostRuntime) {
    let error = ErrorCode::new(ErrorCode::STALE_NONCE, b"Stale Nonce");
    same_bytes(&rt, error.reason(), b"Stale Nonce");
    same(&rt, error.value_len(), 15);
}

/// Values of PASSWORD-ALGORITHMS, whether they are well-formed, and whether they name SHA-256.
const LISTS: &[(&[u8], bool, bool)] = &[
    (b"", true, false),
    (b"\x00\x02\x00\x00", true, true),
    (BOTH, true, true),
    (b"\x00\x07\x00\x01p\x00\x00\x00\x00\x02\x00\x00", true, true),
    (b"\x00\x02\x00\x04abcd", true, false),
    (b"\x00\x02\x00\x04abc", false, false),
    (b"\x00\x02\x00", false, false),
    (b"\x00\x02\x00\x01a", false, false),
];

/// MD5 and SHA-256.
const BOTH: &[u8] = b"\x00\x01\x00\x00\x00\x02\x00\x00";

/// Whether the value is well-formed, and whether it names SHA-256.
fn listed(value: &[u8]) -> (bool, bool) {
    match PasswordAlgorithms::from_bytes(value) {
        Some(list) => (true, list.contains(PasswordAlgorithm::Sha256)),
        None => (false, false),
    }
}

#[test]
fn password_algorithms_are_whole_entries(rt: HostRuntime) {
    for (value, is_list, has_sha256) in LISTS {
        same(&rt, listed(value), (*is_list, *has_sha256));
    }
}

#[test]
fn password_algorithms_are_kept_as_they_came(rt: HostRuntime) {
    let list = PasswordAlgorithms::from_bytes(BOTH).expect(&rt, "a list");
    check(&rt, list.contains(PasswordAlgorithm::Md5));
    same_bytes(&rt, list.as_bytes(), BOTH);
    same(&rt, PasswordAlgorithm::Sha256.number(), 2);
}

/// The ID of the sample responses of RFC 5769, sections 2.2 and 2.3.
const SAMPLE_ID: [u8; 12] = *b"\xb7\xe7\xa7\x01\xbc\x34\xd6\x86\xfa\x87\xdf\xae";

/// The addresses of these, and two under another ID, with their values.
const ADDRESSES: &[(&str, [u8; 12], &[u8])] = &[
    (
        "192.0.2.1:32853",
        SAMPLE_ID,
        b"\x00\x01\xa1\x47\xe1\x12\xa6\x43",
    ),
    (
        "[2001:db8:1234:5678:11:2233:4455:6677]:32853",
        SAMPLE_ID,
        b"\x00\x02\xa1\x47\x01\x13\xa9\xfa\xa5\xd3\xf1\x79\
        \xbc\x25\xf4\xb5\xbe\xd2\xb9\xd9",
    ),
    (
        "10.0.0.4:40000",
        SECOND_ID,
        b"\x00\x01\xbd\x52\x2b\x12\xa4\x46",
    ),
    (
        "[::1]:40000",
        SECOND_ID,
        b"\x00\x02\xbd\x52\x21\x12\xa4\x42\x53\x86\xbd\x28\
        \xbd\xd2\x19\xb8\xa0\x8d\xed\x1b",
    ),
];

/// Asserts that the value and the address are decoded and encoded to each other.
fn assert_xored(rt: &impl Abort, alloc: Global, addr: SocketAddr, id: TransactionId, value: &[u8]) {
    let found = XorSocketAddr::decode(value, id).expect(rt, "an address");
    same(rt, (found.addr(), found.value_len()), (addr, value.len()));
    let mut written = Vec::new(alloc);
    let address = XorSocketAddr::new(addr);
    address.append(id, &mut written).expect(rt, "memory");
    same_bytes(rt, written.as_slice(), value);
}

#[test]
fn addresses_are_xored_as_in_the_standard(rt: HostRuntime) {
    for (text, id, value) in ADDRESSES {
        let addr = text.parse().expect(&rt, "an address");
        assert_xored(&rt, rt.alloc(), addr, TransactionId::from_bytes(*id), value);
    }
}

/// Values that are no address: of family 3, with the family's bytes swapped, a byte too short, a byte too
/// long, of IPv4 with the family of IPv6, and empty.
const MALFORMED: &[&[u8]] = &[
    b"\x00\x03\xbd\x52\x2b\x12\xa4\x46",
    b"\x01\x00\xbd\x52\x2b\x12\xa4\x46",
    b"\x00\x01\xbd\x52\x2b\x12\xa4",
    b"\x00\x01\xbd\x52\x2b\x12\xa4\x46\x00",
    b"\x00\x02\xbd\x52\x2b\x12\xa4\x46",
    b"",
];

#[test]
fn addresses_of_other_shapes_are_malformed(rt: HostRuntime) {
    let id = TransactionId::from_bytes(SECOND_ID);
    for value in MALFORMED {
        check(&rt, XorSocketAddr::decode(value, id).is_none());
    }
}

#[test]
fn the_byte_before_the_family_is_unread(rt: HostRuntime) {
    let id = TransactionId::from_bytes(SECOND_ID);
    let found = XorSocketAddr::decode(b"\xff\x01\xbd\x52\x2b\x12\xa4\x46", id);
    let address = found.expect(&rt, "an address");
    check(&rt, address.addr().is_ipv4());
    let mut place = [9; 8];
    if address.value_len() == place.len() {
        address.encode(id, &mut place);
    }
    same_bytes(&rt, &place, b"\x00\x01\xbd\x52\x2b\x12\xa4\x46");
}

//! The client's verdict on messages of a server.

use crate::auth::fixture::{
    BOTH_ALGORITHMS, accept, add, assert_judged, challenge, challenged, client, denial, judge,
    nobody,
};
use crate::fixture::{ALLOCATE, SECOND_ID, same};
use std::alloc::Global;
use std::process::Abort;
use turn_auth::credentials::TurnCredentials;
use turn_auth::integrity::IntegrityAlgorithm;
use turn_auth::long_term::LongTermClientAuth;
use turn_auth::validation::Validation;
use turn_stun::error::WriteError;
use turn_stun::message::Message;
use turn_stun::message::write::MessageWriteVec;
use turn_stun::transaction::TransactionId;

/// Success responses to ALLOCATE with LIFETIME 1000, signed with `user`, `realm` and `pass`.
pub(crate) const SIGNED: &[u8] =
    b"\x01\x03\x00\x20\x21\x12\xa4\x42\x53\x86\xbd\x28\xbd\xd2\x19\xb8\xa0\x8d\xed\x1a\
    \x00\x0d\x00\x04\x00\x00\x03\xe8\x00\x08\x00\x14\x20\xa0\xaf\x47\x53\x28\xa0\x9d\
    \xd8\xd2\x0b\x88\x47\x79\x22\xd7\x47\xc3\xed\xc3";

const SIGNED_SHA256: &[u8] =
    b"\x01\x03\x00\x2c\x21\x12\xa4\x42\x53\x86\xbd\x28\xbd\xd2\x19\xb8\xa0\x8d\xed\x1a\
    \x00\x0d\x00\x04\x00\x00\x03\xe8\x00\x1c\x00\x20\xe4\x45\x44\xb4\x34\xe4\xba\xbc\
    \x0c\xea\x5c\x3a\xdc\xdc\x09\xc3\x3e\x35\x6c\x63\xbc\x0d\x3c\x52\x14\xfa\x72\xb3\
    \x9e\x2d\x71\x34";

/// The same with FINGERPRINT before the integrity, and with nothing there.
const BEHIND_FINGERPRINT: &[u8] =
    b"\x01\x03\x00\x28\x21\x12\xa4\x42\x53\x86\xbd\x28\xbd\xd2\x19\xb8\xa0\x8d\xed\x1a\
    \x00\x0d\x00\x04\x00\x00\x03\xe8\x80\x28\x00\x04\x01\x02\x03\x04\x00\x08\x00\x14\
    \x18\xc8\x1e\x60\xff\xde\xe8\xf1\x58\xc9\xac\x49\x55\xc1\xc2\xc9\x03\x9c\xf8\xdd";

const AT_THE_HEADER: &[u8] =
    b"\x01\x03\x00\x18\x21\x12\xa4\x42\x53\x86\xbd\x28\xbd\xd2\x19\xb8\xa0\x8d\xed\x1a\
    \x00\x08\x00\x14\x9a\x31\x2b\x63\x60\x56\xf7\x82\xdf\x8a\xf1\x85\xc4\x5b\x92\x0e\
    \xda\x20\x94\x49";

/// The same with the password `word`.
const SIGNED_BY_WORD: &[u8] =
    b"\x01\x03\x00\x20\x21\x12\xa4\x42\x53\x86\xbd\x28\xbd\xd2\x19\xb8\xa0\x8d\xed\x1a\
    \x00\x0d\x00\x04\x00\x00\x03\xe8\x00\x08\x00\x14\xec\x7c\x2b\x82\xe3\x0c\xb5\x21\
    \xae\xb2\x9a\x2e\x0e\x38\x2a\x27\x43\xfb\xbe\x0c";

/// RFC 5769, section 2.4: a request with long-term authentication.
const SAMPLE_REQUEST: &[u8] =
    b"\x00\x01\x00\x60\x21\x12\xa4\x42\x78\xad\x34\x33\xc6\xad\x72\xc0\x29\xda\x41\x2e\
    \x00\x06\x00\x12\xe3\x83\x9e\xe3\x83\x88\xe3\x83\xaa\xe3\x83\x83\xe3\x82\xaf\xe3\
    \x82\xb9\x00\x00\x00\x15\x00\x1c\x66\x2f\x2f\x34\x39\x39\x6b\x39\x35\x34\x64\x36\
    \x4f\x4c\x33\x34\x6f\x4c\x39\x46\x53\x54\x76\x79\x36\x34\x73\x41\x00\x14\x00\x0b\
    \x65\x78\x61\x6d\x70\x6c\x65\x2e\x6f\x72\x67\x00\x00\x08\x00\x14\xf6\x70\x24\x65\
    \x6d\xd6\x4a\x3e\x02\xb8\xe0\x71\x2e\x85\xc9\xa2\x8c\xa8\x96\x66";

const SAMPLE_USER: &str = "\u{30de}\u{30c8}\u{30ea}\u{30c3}\u{30af}\u{30b9}";

const WRONG: Validation = Validation::Refused { integrity: true };

const UNSIGNED: Validation = Validation::Refused { integrity: false };

const SHA1: Validation = Validation::Validated(IntegrityAlgorithm::Sha1);

const SHA256: Validation = Validation::Validated(IntegrityAlgorithm::Sha256);

const AGAIN: Validation = Validation::ResendRequest(IntegrityAlgorithm::Sha1);

const AGAIN_SHA256: Validation = Validation::ResendRequest(IntegrityAlgorithm::Sha256);

/// The algorithms of a client: these two, or one where they are the same.
type Supported = (IntegrityAlgorithm, IntegrityAlgorithm);

const EITHER: Supported = (IntegrityAlgorithm::Sha256, IntegrityAlgorithm::Sha1);

const SHA1_ALONE: Supported = (IntegrityAlgorithm::Sha1, IntegrityAlgorithm::Sha1);

const SHA256_ALONE: Supported = (IntegrityAlgorithm::Sha256, IntegrityAlgorithm::Sha256);

/// The client's verdict on an error response with this code, realm, nonce and value of PASSWORD-ALGORITHMS.
fn judge_denial(
    rt: &impl Abort,
    alloc: Global,
    auth: &LongTermClientAuth,
    code: u16,
    realm: &[u8],
    nonce: &[u8],
    algorithms: Option<&[u8]>,
) -> Validation {
    let bytes = denial(rt, alloc, code, realm, nonce, algorithms).expect(rt, "memory");
    judge(rt, auth, bytes.as_slice())
}

/// Asserts the client's verdict on each of these messages.
fn assert_all_judged(rt: &impl Abort, auth: &LongTermClientAuth, rows: &[(&[u8], Validation)]) {
    for (bytes, expected) in rows {
        assert_judged(rt, auth, bytes, *expected);
    }
}

const RESPONSES: &[(&[u8], Validation)] = &[
    (SIGNED, SHA1),
    (BEHIND_FINGERPRINT, SHA1),
    (AT_THE_HEADER, SHA1),
    (SIGNED_BY_WORD, WRONG),
    (SIGNED_SHA256, UNSIGNED),
];

#[test]
fn signed_responses_are_valid(rt: HostRuntime) {
    let auth = challenged(&rt, rt.alloc(), IntegrityAlgorithm::Sha1);
    assert_all_judged(&rt, &auth, RESPONSES);
}

#[test]
fn responses_signed_with_sha256_are_valid(rt: HostRuntime) {
    let auth = challenged(&rt, rt.alloc(), IntegrityAlgorithm::Sha256);
    assert_all_judged(&rt, &auth, &[(SIGNED_SHA256, SHA256), (SIGNED, UNSIGNED)]);
}

/// The client of the sample request, after a challenge with its realm.
fn sample_client(rt: &impl Abort, alloc: Global) -> Box<LongTermClientAuth> {
    let mut auth = nobody(alloc).expect(rt, "memory");
    let user = SAMPLE_USER.as_bytes();
    let credentials = TurnCredentials::new(alloc, user, b"TheMatrIX").expect(rt, "memory");
    auth.set_credentials(credentials);
    let taken = challenge(rt, alloc, &mut auth, 401, b"example.org", b"nonce", None);
    taken.expect(rt, "memory");
    auth
}

#[test]
fn a_sample_of_the_standard_is_valid(rt: HostRuntime) {
    let auth = sample_client(&rt, rt.alloc());
    assert_judged(&rt, &auth, SAMPLE_REQUEST, SHA1);
}

/// Replaces the byte at this place.
fn put(rt: &impl Abort, bytes: &mut [u8], at: usize, byte: u8) {
    assert!(rt; at < bytes.len());
    bytes[at] = byte;
}

/// The signed response with this bit inverted.
fn turned(rt: &impl Abort, alloc: Global, at: usize, bit: u32) -> Vec<u8> {
    let mut turned = SIGNED.to_vec(alloc).expect(rt, "memory");
    assert!(rt; at < SIGNED.len() && bit < 8);
    put(rt, turned.as_mut_slice(), at, SIGNED[at] ^ (1u8 << bit));
    turned
}

/// Whether the bytes are a message; it must then be refused.
fn refuses(rt: &impl Abort, auth: &LongTermClientAuth, bytes: &[u8]) -> bool {
    let Ok(message) = Message::from_bytes(bytes) else {
        return false;
    };
    let validation = auth.validate_incoming_message(&message);
    assert!(rt; matches!(validation, Validation::Refused { .. }));
    true
}

#[test]
fn no_turned_bit_is_valid(rt: HostRuntime) {
    let auth = challenged(&rt, rt.alloc(), IntegrityAlgorithm::Sha1);
    let mut judged = 0usize;
    for at in 0..SIGNED.len() {
        for bit in 0u32..8 {
            if refuses(&rt, &auth, turned(&rt, rt.alloc(), at, bit).as_slice()) {
                judged = judged.wrapping_add(1);
            }
        }
    }
    // The others of the 416 bits leave no valid message.
    same(&rt, judged, 334);
}

/// An integrity of sevens.
const SEVENS: &[u8] = b"\x00\x08\x00\x14\x07\x07\x07\x07\x07\x07\x07\x07\x07\x07\
    \x07\x07\x07\x07\x07\x07\x07\x07\x07\x07";

/// Adds an integrity of sevens to a message of 52 bytes.
fn add_sevens(rt: &impl Abort, bytes: &mut Vec<u8>) {
    bytes.extend_from_slice(SEVENS).expect(rt, "memory");
    same(rt, bytes.len(), 76);
    put(rt, bytes.as_mut_slice(), 3, 56);
}

#[test]
fn a_second_integrity_is_not_seen(rt: HostRuntime) {
    let auth = challenged(&rt, rt.alloc(), IntegrityAlgorithm::Sha1);
    let mut twice = SIGNED.to_vec(rt.alloc()).expect(&rt, "memory");
    add_sevens(&rt, &mut twice);
    assert_judged(&rt, &auth, twice.as_slice(), SHA1);
}

/// Adds an attribute of this type and this many zeros.
fn add_zeros(
    alloc: Global,
    message: &mut MessageWriteVec,
    kind: u16,
    len: usize,
) -> Result<(), WriteError> {
    let value = vec![in alloc; 0; len]?;
    add(message, kind, value.as_slice())
}

/// A response with an attribute and an integrity of this many zeros.
fn zeros(alloc: Global, front: usize, len: usize) -> Result<MessageWriteVec, WriteError> {
    let id = TransactionId::from_bytes(SECOND_ID);
    let mut message = MessageWriteVec::builder_success(alloc, ALLOCATE, id)?;
    add_zeros(alloc, &mut message, 0x0013, front)?;
    add_zeros(alloc, &mut message, 0x0008, len)?;
    Ok(message)
}

#[test]
fn integrity_of_another_length_is_wrong(rt: HostRuntime) {
    let auth = challenged(&rt, rt.alloc(), IntegrityAlgorithm::Sha1);
    // The last of them ends at the end of the longest message.
    for (front, len) in [(0usize, 0usize), (0, 19), (0, 21), (0, 24), (65_524, 0)] {
        let message = zeros(rt.alloc(), front, len).expect(&rt, "memory");
        assert_judged(&rt, &auth, message.as_bytes(), WRONG);
    }
}

fn assert_holds_nothing(rt: &impl Abort, auth: &LongTermClientAuth) {
    assert!(rt; auth.credentials().is_none() && !auth.has_realm());
}

#[test]
fn without_credentials_all_is_refused(rt: HostRuntime) {
    let auth = nobody(rt.alloc()).expect(&rt, "memory");
    let found = judge_denial(&rt, rt.alloc(), &auth, 401, b"realm", b"nonce", None);
    same(&rt, found, UNSIGNED);
    assert_all_judged(
        &rt,
        &auth,
        &[(SIGNED, UNSIGNED), (SAMPLE_REQUEST, UNSIGNED)],
    );
    assert_holds_nothing(&rt, &auth);
}

/// Asserts the verdict of a client with these algorithms on a challenge with this value of
/// PASSWORD-ALGORITHMS.
fn assert_offer(
    rt: &impl Abort,
    alloc: Global,
    supported: Supported,
    offered: Option<&[u8]>,
    expected: Validation,
) {
    let mut auth = client(alloc).expect(rt, "memory");
    auth.set_supported_integrity(supported.0);
    auth.add_supported_integrity(supported.1);
    let found = judge_denial(rt, alloc, &auth, 401, b"realm", b"nonce", offered);
    same(rt, found, expected);
}

fn assert_offers(rt: &impl Abort, alloc: Global, rows: &[(Supported, Option<&[u8]>, Validation)]) {
    for (supported, offered, expected) in rows {
        assert_offer(rt, alloc, *supported, *offered, *expected);
    }
}

const OFFERS: &[(Supported, Option<&[u8]>, Validation)] = &[
    (EITHER, Some(BOTH_ALGORITHMS), AGAIN_SHA256),
    (SHA1_ALONE, Some(BOTH_ALGORITHMS), AGAIN),
    (SHA256_ALONE, Some(BOTH_ALGORITHMS), AGAIN_SHA256),
    (SHA256_ALONE, None, UNSIGNED),
    (EITHER, None, AGAIN),
    (
        SHA256_ALONE,
        Some(b"\x00\x02\x00\x00\x00\x07\x00\x01"),
        UNSIGNED,
    ),
];

#[test]
fn the_algorithm_is_picked(rt: HostRuntime) {
    assert_offers(&rt, rt.alloc(), OFFERS);
}

const ILL_FORMED_OFFERS: &[(Supported, Option<&[u8]>, Validation)] = &[
    (EITHER, Some(b"\x00\x02\x00\x04\x00\x00\x00\x00"), AGAIN),
    (EITHER, Some(b"\x00\x02\x00"), AGAIN),
    (EITHER, Some(b""), AGAIN),
    (EITHER, Some(b"\x00\x01\x00\x00"), AGAIN),
    (
        EITHER,
        Some(b"\x00\x07\x00\x03abc\x00\x00\x02\x00\x00"),
        AGAIN_SHA256,
    ),
];

#[test]
fn an_offer_counts_where_it_is_well_formed(rt: HostRuntime) {
    assert_offers(&rt, rt.alloc(), ILL_FORMED_OFFERS);
}

/// The value of PASSWORD-ALGORITHMS with SHA-256 and then unknown algorithms, of this many bytes.
fn long_offer(rt: &impl Abort, alloc: Global, len: usize) -> Vec<u8> {
    let mut offered = vec![in alloc; 0u8; len].expect(rt, "memory");
    put(rt, offered.as_mut_slice(), 1, 2);
    offered
}

#[test]
fn an_offer_counts_up_to_64_bytes(rt: HostRuntime) {
    let offered = long_offer(&rt, rt.alloc(), 64);
    assert_offer(
        &rt,
        rt.alloc(),
        EITHER,
        Some(offered.as_slice()),
        AGAIN_SHA256,
    );
    let offered = long_offer(&rt, rt.alloc(), 68);
    assert_offer(&rt, rt.alloc(), EITHER, Some(offered.as_slice()), AGAIN);
}

/// Asserts the client's verdict on each error response with this code, realm and nonce.
fn assert_denials(rt: &impl Abort, alloc: Global, rows: &[(u16, &[u8], &[u8], Validation)]) {
    let auth = client(alloc).expect(rt, "memory");
    for (code, realm, nonce, expected) in rows {
        let found = judge_denial(rt, alloc, &auth, *code, realm, nonce, None);
        same(rt, found, *expected);
    }
}

const NO_CHALLENGES: &[(u16, &[u8], &[u8], Validation)] = &[
    (401, b"", b"nonce", UNSIGNED),
    (401, b"realm", b"", UNSIGNED),
    (400, b"realm", b"nonce", UNSIGNED),
    (508, b"realm", b"nonce", UNSIGNED),
];

#[test]
fn what_is_no_challenge_is_refused(rt: HostRuntime) {
    assert_denials(&rt, rt.alloc(), NO_CHALLENGES);
}

const LONG_CHALLENGES: &[(u16, &[u8], &[u8], Validation)] = &[
    (401, &[b'r'; 763], b"nonce", AGAIN),
    (401, &[b'r'; 764], b"nonce", UNSIGNED),
    (438, b"realm", &[b'r'; 763], AGAIN),
    (401, b"realm", &[b'r'; 764], UNSIGNED),
];

#[test]
fn a_realm_and_a_nonce_have_up_to_763_bytes(rt: HostRuntime) {
    assert_denials(&rt, rt.alloc(), LONG_CHALLENGES);
}

/// The first challenge with another byte at this place.
fn altered(rt: &impl Abort, alloc: Global, at: usize, byte: u8) -> Vec<u8> {
    let bytes = denial(rt, alloc, 401, b"realm", b"nonce", None);
    let mut bytes = bytes.expect(rt, "memory");
    put(rt, bytes.as_mut_slice(), at, byte);
    bytes
}

#[test]
fn a_challenge_lacks_nothing(rt: HostRuntime) {
    let auth = client(rt.alloc()).expect(&rt, "memory");
    // Each of the three attributes gets an unknown type, and the class becomes that of a success.
    for (at, byte) in [(21usize, 0x7fu8), (29, 0x7f), (41, 0x7f), (1, 0x03)] {
        let bytes = altered(&rt, rt.alloc(), at, byte);
        assert_judged(&rt, &auth, bytes.as_slice(), UNSIGNED);
    }
}

/// Asserts the client's verdict on an error response with the second nonce, which offers both algorithms.
fn assert_second(
    rt: &impl Abort,
    alloc: Global,
    auth: &LongTermClientAuth,
    code: u16,
    realm: &[u8],
    expected: Validation,
) {
    let offered = Some(BOTH_ALGORITHMS);
    let found = judge_denial(rt, alloc, auth, code, realm, b"second", offered);
    same(rt, found, expected);
}

/// A client that took a challenge with SHA-1, and then got SHA-256 as a supported algorithm.
fn later_client(rt: &impl Abort, alloc: Global) -> Box<LongTermClientAuth> {
    let mut auth = challenged(rt, alloc, IntegrityAlgorithm::Sha1);
    auth.add_supported_integrity(IntegrityAlgorithm::Sha256);
    auth
}

#[test]
fn a_later_challenge_keeps_the_realm(rt: HostRuntime) {
    let auth = later_client(&rt, rt.alloc());
    assert_second(&rt, rt.alloc(), &auth, 438, b"realm", AGAIN);
    assert_second(&rt, rt.alloc(), &auth, 438, b"other", UNSIGNED);
    assert_second(&rt, rt.alloc(), &auth, 401, b"realm", UNSIGNED);
}

#[test]
fn a_later_challenge_keeps_the_algorithm(rt: HostRuntime) {
    let mut auth = later_client(&rt, rt.alloc());
    accept(&rt, rt.alloc(), &mut auth, b"second", Some(BOTH_ALGORITHMS));
    assert_judged(&rt, &auth, SIGNED, SHA1);
}

/// A challenge with an integrity of sevens.
fn signed_by_sevens(rt: &impl Abort, alloc: Global) -> Vec<u8> {
    let bytes = denial(rt, alloc, 438, b"realm", b"second", None);
    let mut bytes = bytes.expect(rt, "memory");
    add_sevens(rt, &mut bytes);
    bytes
}

#[test]
fn a_signed_challenge_is_a_challenge(rt: HostRuntime) {
    let auth = challenged(&rt, rt.alloc(), IntegrityAlgorithm::Sha1);
    // Its integrity is not checked, whether right or wrong.
    let bytes = signed_by_sevens(&rt, rt.alloc());
    assert_judged(&rt, &auth, bytes.as_slice(), AGAIN);
}

#[test]
fn new_credentials_make_a_new_key(rt: HostRuntime) {
    let mut auth = challenged(&rt, rt.alloc(), IntegrityAlgorithm::Sha1);
    let credentials = TurnCredentials::new(rt.alloc(), b"user", b"word");
    auth.set_credentials(credentials.expect(&rt, "memory"));
    assert_all_judged(&rt, &auth, &[(SIGNED, WRONG), (SIGNED_BY_WORD, SHA1)]);
}

//! The messages that a client signs.

ghost use Rattle.std.specs.Prelude.{IsSome};
ghost use Rattle.turn_auth.specs.Challenge.{MayTake};

use crate::auth::fixture::{
    accept, allocate, assert_judged, bare, challenged, client, denial, nobody, sign,
};
use crate::fixture::{same, same_bytes};
use std::alloc::Global;
use std::process::Abort;
use turn_auth::feature::Feature;
use turn_auth::integrity::IntegrityAlgorithm;
use turn_auth::long_term::LongTermClientAuth;
use turn_auth::server_challenge::ServerChallenge;
use turn_auth::validation::Validation;
use turn_stun::attribute::nonce::Nonce;
use turn_stun::message::Message;
use turn_stun::message::header::MessageClass;
use turn_stun::message::write::MessageWriteVec;

/// The ALLOCATE after a challenge of `realm` and `nonce`, for `user` and `pass`.
const SIGNED_ALLOCATE: &[u8] =
    b"\x00\x03\x00\x48\x21\x12\xa4\x42\x53\x86\xbd\x28\xbd\xd2\x19\xb8\xa0\x8d\xed\x1a\
    \x00\x19\x00\x04\x11\x00\x00\x00\x00\x0d\x00\x04\x00\x00\x07\x08\x00\x06\x00\x04\
    \x75\x73\x65\x72\x00\x14\x00\x05\x72\x65\x61\x6c\x6d\x00\x00\x00\x00\x15\x00\x05\
    \x6e\x6f\x6e\x63\x65\x00\x00\x00\x00\x08\x00\x14\xb8\x14\xc0\xa6\xfa\x0b\x93\x45\
    \x15\x9d\x74\x7e\x20\xf8\xb9\xda\x8e\x79\x50\x41";

/// The same with SHA-256 and the user name hidden, for a challenge that offers both password algorithms.
const ANONYMOUS_ALLOCATE: &[u8] =
    b"\x00\x03\x00\x84\x21\x12\xa4\x42\x53\x86\xbd\x28\xbd\xd2\x19\xb8\xa0\x8d\xed\x1a\
    \x00\x19\x00\x04\x11\x00\x00\x00\x00\x0d\x00\x04\x00\x00\x07\x08\x00\x1e\x00\x20\
    \x6a\x30\x29\x11\x6b\x47\xaa\x98\xbc\xaa\x32\x53\x99\x73\x3d\xc1\xa2\x3c\xd5\x7e\
    \x26\xb8\x1b\xef\x3f\xf6\x53\x1c\xe6\x24\xe2\xda\x00\x14\x00\x05\x72\x65\x61\x6c\
    \x6d\x00\x00\x00\x00\x15\x00\x05\x6e\x6f\x6e\x63\x65\x00\x00\x00\x80\x02\x00\x08\
    \x00\x02\x00\x00\x00\x01\x00\x00\x00\x1d\x00\x04\x00\x02\x00\x00\x00\x1c\x00\x20\
    \x40\xb3\x2a\xf6\x72\x24\xf1\x5e\x30\xe4\xfe\xa5\x7d\xf1\x14\xb4\xef\xb1\xb9\x52\
    \xb9\x64\x63\x6d\xc3\x02\x0b\xd8\x1c\xb2\x78\xa8";

/// The ALLOCATE request as this client signs it.
fn signed_allocate(rt: &impl Abort, alloc: Global, auth: &LongTermClientAuth) -> MessageWriteVec {
    let mut message = allocate(alloc).expect(rt, "memory");
    sign(rt, auth, &mut message).expect(rt, "memory");
    message
}

#[test]
fn a_request_is_signed(rt: HostRuntime) {
    let auth = challenged(&rt, rt.alloc(), IntegrityAlgorithm::Sha1);
    let message = signed_allocate(&rt, rt.alloc(), &auth);
    same_bytes(&rt, message.as_bytes(), SIGNED_ALLOCATE);
    let valid = Validation::Validated(IntegrityAlgorithm::Sha1);
    assert_judged(&rt, &auth, SIGNED_ALLOCATE, valid);
}

#[test]
fn a_request_is_signed_and_hides_the_user(rt: HostRuntime) {
    let mut auth = challenged(&rt, rt.alloc(), IntegrityAlgorithm::Sha256);
    auth.set_anonymous_username(Feature::Required);
    let message = signed_allocate(&rt, rt.alloc(), &auth);
    same_bytes(&rt, message.as_bytes(), ANONYMOUS_ALLOCATE);
}

/// Asserts the length of this message, and that the client accepts its signature.
fn assert_signed(
    rt: &impl Abort,
    auth: &LongTermClientAuth,
    algorithm: IntegrityAlgorithm,
    bytes: &[u8],
    len: usize,
) {
    same(rt, bytes.len(), len);
    assert_judged(rt, auth, bytes, Validation::Validated(algorithm));
}

/// Asserts how many bytes this client reports and adds to a request of 36 bytes, which is then valid and
/// whose buffer has grown once, by at most these.
fn adds(
    rt: &impl Abort,
    alloc: Global,
    algorithm: IntegrityAlgorithm,
    anonymous: Feature,
    expected: usize,
) {
    let mut auth = challenged(rt, alloc, algorithm);
    auth.set_anonymous_username(anonymous);
    same(rt, auth.message_signature_bytes(), expected);
    let message = signed_allocate(rt, alloc, &auth);
    assert!(rt; expected < 60_000);
    assert_signed(rt, &auth, algorithm, message.as_bytes(), 36 + expected);
    same(rt, message.finish().capacity(), 36 + expected);
}

#[test]
fn signing_adds_what_was_reported(rt: HostRuntime) {
    let cases = [
        (IntegrityAlgorithm::Sha1, Feature::Auto, 56usize),
        (IntegrityAlgorithm::Sha1, Feature::Disabled, 56),
        (IntegrityAlgorithm::Sha1, Feature::Required, 84),
        (IntegrityAlgorithm::Sha256, Feature::Auto, 88),
        (IntegrityAlgorithm::Sha256, Feature::Required, 116),
    ];
    for (algorithm, anonymous, expected) in cases {
        adds(&rt, rt.alloc(), algorithm, anonymous, expected);
    }
}

#[test]
fn nothing_is_reported_without_a_realm(rt: HostRuntime) {
    let auth = nobody(rt.alloc()).expect(&rt, "memory");
    same(&rt, auth.message_signature_bytes(), 0);
}

/// Asserts the length of a signed message of this class, and that it is then valid.
fn signs_bare(
    rt: &impl Abort,
    alloc: Global,
    algorithm: IntegrityAlgorithm,
    class: MessageClass,
    expected: usize,
) {
    let auth = challenged(rt, alloc, algorithm);
    let mut message = bare(alloc, class).expect(rt, "memory");
    sign(rt, &auth, &mut message).expect(rt, "memory");
    assert_signed(rt, &auth, algorithm, message.as_bytes(), expected);
    same(rt, 20 + auth.reply_signature_bytes(), expected);
}

#[test]
fn other_messages_get_the_integrity_alone(rt: HostRuntime) {
    let cases = [
        (IntegrityAlgorithm::Sha1, MessageClass::Success, 44usize),
        (IntegrityAlgorithm::Sha256, MessageClass::Success, 56),
        (IntegrityAlgorithm::Sha1, MessageClass::Indication, 44),
    ];
    for (algorithm, class, expected) in cases {
        signs_bare(&rt, rt.alloc(), algorithm, class, expected);
    }
}

/// The client's view of the challenge in these bytes.
fn challenge_of(rt: &impl Abort, auth: &LongTermClientAuth, bytes: &[u8]) -> ServerChallenge
    ensures { MayTake auth.now result }
{
    let message = Message::from_bytes(bytes).expect(rt, "a message");
    let found = auth.challenge_in(&message).expect(rt, "memory");
    found.expect(rt, "a challenge")
}

/// The same for the challenge of `realm` and `nonce`.
fn first_challenge(rt: &impl Abort, alloc: Global, auth: &LongTermClientAuth) -> ServerChallenge
    ensures { MayTake auth.now result }
{
    let bytes = denial(rt, alloc, 401, b"realm", b"nonce", None);
    challenge_of(rt, auth, bytes.expect(rt, "memory").as_slice())
}

/// The ALLOCATE request as the client signs it under the challenge, which adds as many bytes as reported.
fn signed_under(
    rt: &impl Abort,
    alloc: Global,
    auth: &LongTermClientAuth,
    challenge: &ServerChallenge,
) -> MessageWriteVec
    requires { IsSome auth.now.credentials }
{
    let mut message = allocate(alloc).expect(rt, "memory");
    let before = message.as_bytes().len();
    assert!(rt; before < 60_000);
    let returned = auth.signature_bytes_under(challenge);
    auth.sign_under(challenge, &mut message)
        .expect(rt, "memory");
    same(rt, message.as_bytes().len(), before + returned);
    message
}

#[test]
fn a_request_is_signed_before_its_challenge_is_held(rt: HostRuntime) {
    let mut auth = client(rt.alloc()).expect(&rt, "memory");
    let challenge = first_challenge(&rt, rt.alloc(), &auth);
    let message = signed_under(&rt, rt.alloc(), &auth, &challenge);
    same_bytes(&rt, message.as_bytes(), SIGNED_ALLOCATE);
    assert!(rt; !auth.has_realm());
    auth.accept(challenge);
    let message = signed_allocate(&rt, rt.alloc(), &auth);
    same_bytes(&rt, message.as_bytes(), SIGNED_ALLOCATE);
}

#[test]
fn what_is_no_challenge_gives_none(rt: HostRuntime) {
    let auth = client(rt.alloc()).expect(&rt, "memory");
    let message = Message::from_bytes(SIGNED_ALLOCATE).expect(&rt, "a message");
    assert!(rt; matches!(auth.challenge_in(&message), Ok(None)));
}

/// Asserts the nonce in the message.
fn assert_nonce(rt: &impl Abort, bytes: &[u8], expected: &[u8]) {
    let sent = Message::from_bytes(bytes).expect(rt, "a message");
    let nonce = sent.attribute::<Nonce<'_>>().expect(rt, "a nonce");
    same_bytes(rt, nonce.as_bytes(), expected);
}

#[test]
fn the_last_nonce_is_sent(rt: HostRuntime) {
    let mut auth = challenged(&rt, rt.alloc(), IntegrityAlgorithm::Sha1);
    accept(&rt, rt.alloc(), &mut auth, b"other", None);
    let message = signed_allocate(&rt, rt.alloc(), &auth);
    assert_nonce(&rt, message.as_bytes(), b"other");
}

//! Each `OutOfMemory` is an answer here, and the state after it is asserted. So these pass for any memory
//! allocation that fails.

ghost use Rattle.std.specs.Prelude.{IsSome};

use crate::auth::fixture::{allocate, challenge, client, denial, sign, take};
use crate::fixture::{same, same_bytes};
use std::alloc::Global;
use std::process::Abort;
use turn_auth::credentials::{CredentialsError, TurnCredentials};
use turn_auth::long_term::LongTermClientAuth;
use turn_auth::server_challenge::ServerChallenge;
use turn_auth::validation::Validation;
use turn_stun::message::Message;
use turn_stun::message::write::MessageWriteVec;

#[test]
fn credentials_without_memory_are_refused(rt: HostRuntime) {
    match TurnCredentials::new(rt.alloc(), b"user", b"pass") {
        Ok(credentials) => {
            if let Ok(copy) = credentials.clone() {
                assert!(rt; copy == credentials);
            }
        }
        Err(error) => assert_eq!(rt; error, CredentialsError::OutOfMemory),
    }
}

/// Nonces that each take another number of bytes in a message, so that a half stored one would be noticed,
/// and the number of bytes that signing adds to a request with each.
const NONCES: &[(&[u8], usize)] = &[(b"1", 52), (b"second", 56), (b"the third", 60)];

/// Takes a challenge with this nonce, or leaves the client as it was.
fn takes_or_leaves(
    rt: &impl Abort,
    alloc: Global,
    auth: &mut LongTermClientAuth,
    nonce: &[u8],
    added: usize,
) {
    let Ok(bytes) = denial(rt, alloc, 438, b"realm", nonce, None) else {
        return;
    };
    let before = auth.message_signature_bytes();
    let expected = match take(rt, auth, bytes.as_slice()) {
        Ok(()) => added,
        Err(_) => before,
    };
    same(rt, auth.message_signature_bytes(), expected);
}

#[test]
fn a_challenge_without_memory_changes_nothing(rt: HostRuntime) {
    let Ok(mut auth) = client(rt.alloc()) else {
        return;
    };
    for (nonce, added) in NONCES {
        takes_or_leaves(&rt, rt.alloc(), &mut auth, nonce, *added);
    }
}

/// Whether memory allocation succeeded for signing a request under the challenge, which the client then
/// accepts.
fn is_retried(rt: &impl Abort, alloc: Global, auth: &mut LongTermClientAuth, bytes: &[u8]) -> bool {
    let message = Message::from_bytes(bytes).expect(rt, "a message");
    let Ok(found) = auth.challenge_in(&message) else {
        return false;
    };
    let challenge = found.expect(rt, "a challenge");
    if signs_under(rt, alloc, auth, &challenge) {
        auth.accept(challenge);
        return true;
    }
    false
}

/// Signs a request under the challenge, or leaves it as it was.
fn signs_under(
    rt: &impl Abort,
    alloc: Global,
    auth: &LongTermClientAuth,
    challenge: &ServerChallenge,
) -> bool
    requires { IsSome auth.now.credentials }
{
    let Ok(mut request) = allocate(alloc) else {
        return false;
    };
    let before = request.as_bytes().len();
    assert!(rt; before == 36);
    let added = auth.signature_bytes_under(challenge);
    let signed = auth.sign_under(challenge, &mut request).is_ok();
    let expected = if signed { before + added } else { before };
    same(rt, request.as_bytes().len(), expected);
    signed
}

/// Makes a request again under a challenge with this nonce, or leaves the client as it was.
fn retries_or_leaves(
    rt: &impl Abort,
    alloc: Global,
    auth: &mut LongTermClientAuth,
    nonce: &[u8],
    added: usize,
) {
    let Ok(bytes) = denial(rt, alloc, 438, b"realm", nonce, None) else {
        return;
    };
    let before = auth.message_signature_bytes();
    let retried = is_retried(rt, alloc, auth, bytes.as_slice());
    let expected = if retried { added } else { before };
    same(rt, auth.message_signature_bytes(), expected);
}

#[test]
fn a_retry_without_memory_leaves_what_is_held(rt: HostRuntime) {
    let Ok(mut auth) = client(rt.alloc()) else {
        return;
    };
    for (nonce, added) in NONCES {
        retries_or_leaves(&rt, rt.alloc(), &mut auth, nonce, *added);
    }
}

/// The client after a challenge that offers no algorithms.
fn plainly_challenged(rt: &impl Abort, alloc: Global) -> Option<Box<LongTermClientAuth>> {
    let mut auth = client(alloc).ok()?;
    challenge(rt, alloc, &mut auth, 401, b"realm", b"nonce", None).ok()?;
    Some(auth)
}

/// The ALLOCATE request before it is signed.
const UNSIGNED_ALLOCATE: &[u8] =
    b"\x00\x03\x00\x10\x21\x12\xa4\x42\x53\x86\xbd\x28\xbd\xd2\x19\xb8\xa0\x8d\xed\x1a\
    \x00\x19\x00\x04\x11\x00\x00\x00\x00\x0d\x00\x04\x00\x00\x07\x08";

/// Signs a request, or leaves it as it was.
fn signs_or_leaves(rt: &impl Abort, alloc: Global, auth: &LongTermClientAuth) {
    let Ok(mut request) = allocate(alloc) else {
        return;
    };
    match sign(rt, auth, &mut request) {
        Ok(()) => assert!(rt; is_valid(auth, &request)),
        Err(_) => same_bytes(rt, request.as_bytes(), UNSIGNED_ALLOCATE),
    }
}

#[test]
fn signing_without_memory_leaves_the_message(rt: HostRuntime) {
    if let Some(auth) = plainly_challenged(&rt, rt.alloc()) {
        signs_or_leaves(&rt, rt.alloc(), &auth);
    }
}

fn is_valid(auth: &LongTermClientAuth, message: &MessageWriteVec) -> bool {
    match Message::from_bytes(message.as_bytes()) {
        Ok(message) => {
            matches!(
                auth.validate_incoming_message(&message),
                Validation::Validated(_)
            )
        }
        Err(_) => false,
    }
}

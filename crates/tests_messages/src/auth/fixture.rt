//! Clients, the challenges that they take, and the messages that they sign.

ghost use Rattle.std.specs.Prelude.{◌≡◌, true, IfOk};
ghost use Rattle.turn_stun.specs.Message.{attributes_of};
ghost use Rattle.turn_auth.specs.Signature.{is_unsigned};

use crate::fixture::{ALLOCATE, SECOND_ID, raw, same};
use std::alloc::{AllocError, Global};
use std::process::Abort;
use turn_auth::credentials::{CredentialsError, TurnCredentials};
use turn_auth::integrity::IntegrityAlgorithm;
use turn_auth::long_term::LongTermClientAuth;
use turn_auth::validation::Validation;
use turn_stun::attribute::error_code::ErrorCode;
use turn_stun::attribute::nonce::Nonce;
use turn_stun::attribute::realm::Realm;
use turn_stun::error::WriteError;
use turn_stun::message::Message;
use turn_stun::message::header::{MessageClass, MessageType};
use turn_stun::message::write::MessageWriteVec;
use turn_stun::transaction::TransactionId;

/// Both password algorithms, SHA-256 first.
pub(crate) const BOTH_ALGORITHMS: &[u8] = b"\x00\x02\x00\x00\x00\x01\x00\x00";

// Clients are boxed: a function that owns one directly costs far more to prove, since a proof opens all
// values that are dropped at its end.

/// A client without credentials.
pub(crate) fn nobody(alloc: Global) -> Result<Box<LongTermClientAuth>, AllocError> {
    Ok(Box::new(alloc, LongTermClientAuth::new(alloc))?)
}

/// A client with the credentials `user` and `pass`.
pub(crate) fn client(alloc: Global) -> Result<Box<LongTermClientAuth>, CredentialsError> {
    let mut auth = nobody(alloc)?;
    auth.set_credentials(TurnCredentials::new(alloc, b"user", b"pass")?);
    Ok(auth)
}

/// Adds an attribute with this type and value.
pub(crate) fn add(
    message: &mut MessageWriteVec,
    kind: u16,
    value: &[u8],
) -> Result<(), WriteError> {
    message.add_attribute(&raw(kind, value))
}

/// The bytes of an error response with this code, realm, nonce and value of PASSWORD-ALGORITHMS.
pub(crate) fn denial(
    rt: &impl Abort,
    alloc: Global,
    code: u16,
    realm: &[u8],
    nonce: &[u8],
    algorithms: Option<&[u8]>,
) -> Result<Vec<u8>, WriteError> {
    let id = TransactionId::from_bytes(SECOND_ID);
    let mut message = MessageWriteVec::builder_error(alloc, ALLOCATE, id)?;
    assert!(rt; (300..=699).contains(&code));
    message.add_attribute(&ErrorCode::new(code, b""))?;
    add(&mut message, 0x0014, realm)?;
    add(&mut message, 0x0015, nonce)?;
    if let Some(value) = algorithms {
        add(&mut message, 0x8002, value)?;
    }
    Ok(message.finish())
}

/// The client's verdict on these bytes, which are a message.
pub(crate) fn judge(rt: &impl Abort, auth: &LongTermClientAuth, bytes: &[u8]) -> Validation {
    let message = Message::from_bytes(bytes).expect(rt, "a message");
    auth.validate_incoming_message(&message)
}

/// Asserts the client's verdict on these bytes, which are a message.
pub(crate) fn assert_judged(
    rt: &impl Abort,
    auth: &LongTermClientAuth,
    bytes: &[u8],
    expected: Validation,
) {
    same(rt, judge(rt, auth, bytes), expected);
}

/// Takes the challenge in these bytes.
pub(crate) fn take(
    rt: &impl Abort,
    auth: &mut LongTermClientAuth,
    bytes: &[u8],
) -> Result<(), AllocError> {
    let message = Message::from_bytes(bytes).expect(rt, "a message");
    match auth.validate_incoming_message(&message) {
        Validation::ResendRequest(_) => auth.take_challenge(&message)?,
        _ => panic!(rt; "a challenge"),
    }
    Ok(())
}

/// Takes the challenge with this code, realm, nonce and value of PASSWORD-ALGORITHMS.
pub(crate) fn challenge(
    rt: &impl Abort,
    alloc: Global,
    auth: &mut LongTermClientAuth,
    code: u16,
    realm: &[u8],
    nonce: &[u8],
    algorithms: Option<&[u8]>,
) -> Result<(), WriteError> {
    let bytes = denial(rt, alloc, code, realm, nonce, algorithms)?;
    take(rt, auth, bytes.as_slice())?;
    Ok(())
}

/// Takes another challenge of `realm` with this nonce and value of PASSWORD-ALGORITHMS.
pub(crate) fn accept(
    rt: &impl Abort,
    alloc: Global,
    auth: &mut LongTermClientAuth,
    nonce: &[u8],
    algorithms: Option<&[u8]>,
) {
    let taken = challenge(rt, alloc, auth, 438, b"realm", nonce, algorithms);
    taken.expect(rt, "memory");
}

/// The client of these algorithms after the challenge of `realm` and `nonce` that offers both.
pub(crate) fn challenged(
    rt: &impl Abort,
    alloc: Global,
    algorithm: IntegrityAlgorithm,
) -> Box<LongTermClientAuth> {
    let mut auth = client(alloc).expect(rt, "memory");
    auth.set_supported_integrity(algorithm);
    let offered = Some(BOTH_ALGORITHMS);
    challenge(rt, alloc, &mut auth, 401, b"realm", b"nonce", offered).expect(rt, "memory");
    auth
}

/// An ALLOCATE of this class, without attributes.
pub(crate) fn bare(alloc: Global, class: MessageClass) -> Result<MessageWriteVec, AllocError>
    ensures { IfOk result (λ message. is_unsigned (attributes_of message) ≡ true) }
{
    let id = TransactionId::from_bytes(SECOND_ID);
    let message_type = MessageType {
        method: ALLOCATE,
        class,
    };
    let message = MessageWriteVec::builder(alloc, message_type, id)?;
    Ok(message)
}

/// An ALLOCATE request with REQUESTED-TRANSPORT and LIFETIME, whose buffer has no room for more.
pub(crate) fn allocate(alloc: Global) -> Result<MessageWriteVec, WriteError>
    ensures { IfOk result (λ message. is_unsigned (attributes_of message) ≡ true) }
{
    let id = TransactionId::from_bytes(SECOND_ID);
    let message_type = MessageType {
        method: ALLOCATE,
        class: MessageClass::Request,
    };
    let mut message = MessageWriteVec::builder_with_capacity(alloc, message_type, id, 36)?;
    message.add_attribute(&raw(0x0019, b"\x11\x00\x00\x00"))?;
    message.add_attribute(&raw(0x000d, b"\x00\x00\x07\x08"))?;
    Ok(message)
}

/// Signs a message whose buffer has room for that.
pub(crate) fn sign(
    rt: &impl Abort,
    auth: &LongTermClientAuth,
    message: &mut MessageWriteVec,
) -> Result<(), AllocError>
    requires { is_unsigned (attributes_of message.old) ≡ true }
{
    assert!(rt; auth.has_realm());
    assert!(rt; message.as_bytes().len() < 60_000);
    let _ = auth.message_signature_bytes();
    auth.sign_outgoing_message(message)
}

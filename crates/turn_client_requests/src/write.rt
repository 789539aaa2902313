//! Messages that are written and signed.

ghost use Rattle.std.specs.Prelude.{◌≡◌, ℕ, ◌<◌, ◌≤◌, ◌^◌, [], length, true, IfOk, IsSome};
ghost use Rattle.turn_stun.specs.Message.{IsMessage, attributes_of};
ghost use Rattle.turn_stun.specs.MessageType.{type_number};
ghost use Rattle.turn_stun.specs.Writer.{header_of};
ghost use Rattle.turn_auth.specs.LongTerm.{with_challenge};
ghost use Rattle.turn_auth.specs.Signature.{is_unsigned, signed_len, signed_text, written_len};

use std::alloc::{AllocError, Global};
use turn_auth::long_term::LongTermClientAuth;
use turn_auth::server_challenge::ServerChallenge;
use turn_stun::attribute::typed::AttributeWrite;
use turn_stun::data::Data;
use turn_stun::message::header::{MessageClass, MessageType};
use turn_stun::message::method::Method;
use turn_stun::message::write::MessageWriteVec;
use turn_stun::transaction::TransactionId;

/// The bytes of a header (RFC 8489, section 5).
pub(crate) const HEADER_LEN: usize = 20;

/// How many bytes an attribute takes: its type, its length, and its value up to a multiple of four bytes
/// (RFC 8489, section 14).
pub(crate) fn len_of<A: AttributeWrite>(attribute: &A) -> usize
    requires { length (A.encoded attribute.now 0) < 2 ^ 16 }
    ensures value { result ≡ written_len (A.encoded attribute.now 0) }
    ensures any { (id : ℕ) → written_len (A.encoded attribute.now id) ≡ result }
{
    4 + (attribute.value_len() + 3) / 4 * 4
}

/// A message with no attributes, and with room for `len` bytes in all: if that is its final length, memory
/// is allocated only once.
pub(crate) fn begun(
    alloc: Global,
    class: MessageClass,
    method: Method,
    id: TransactionId,
    len: usize,
) -> Result<MessageWriteVec, AllocError>
    ensures text { IfOk result (λ message. message ≡ header_of (type_number method.value class) id) }
    ensures message { IfOk result (λ message. IsMessage message (type_number method.value class) id []) }
{
    MessageWriteVec::builder_with_capacity(alloc, MessageType { method, class }, id, len)
}

/// The message, signed with the challenge that is held (RFC 8489, section 9.2.4).
pub(crate) fn signed(
    auth: &LongTermClientAuth,
    message: MessageWriteVec,
) -> Result<Data, AllocError>
    requires held { IsSome auth.now.held }
    requires unsigned { is_unsigned (attributes_of message) ≡ true }
    requires short { length message ≤ 2000 }
    ensures text { IfOk result (λ text. text ≡ signed_text auth.now message) }
    ensures len { IfOk result (λ text. length text ≡ signed_len auth.now message) }
{
    let mut message = message;
    let _room = auth.message_signature_bytes();
    auth.sign_outgoing_message(&mut message)?;
    Ok(Data::from(message.finish()))
}

/// The message, signed with this challenge (RFC 8489, section 9.2.5).
pub(crate) fn signed_under(
    auth: &LongTermClientAuth,
    challenge: &ServerChallenge,
    message: MessageWriteVec,
) -> Result<Data, AllocError>
    requires known { IsSome auth.now.credentials }
    requires unsigned { is_unsigned (attributes_of message) ≡ true }
    requires short { length message ≤ 2000 }
    ensures text { IfOk result (λ text. text ≡ signed_text (with_challenge challenge.now auth.now) message) }
    ensures len { IfOk result (λ text. length text ≡ signed_len (with_challenge challenge.now auth.now) message) }
{
    let mut message = message;
    let _room = auth.signature_bytes_under(challenge);
    auth.sign_under(challenge, &mut message)?;
    Ok(Data::from(message.finish()))
}

//! The requests of a client.

ghost use Rattle.std.specs.Prelude.{◌≡◌, IfOk, IsSome};
ghost use Rattle.turn_auth.specs.LongTerm.{with_challenge};
ghost use Rattle.turn_client_api.specs.Calls.{delete_text};
ghost use Rattle.turn_client_api.specs.Requests.{binding_indication, first_allocate, fresh_id};
ghost use Rattle.turn_client_api.specs.State.{State, auth_of};
ghost use Rattle.turn_client_requests.specs.RequestAttributes.{IsRequestFor, with_asked_families};

use crate::request_attributes::{
    LIFETIME_SECONDS, add_asked, add_families, asked_len, families_len, method_for,
};
use crate::write::{HEADER_LEN, begun, len_of, signed, signed_under};
use std::alloc::{AllocError, Global};
use turn_auth::long_term::LongTermClientAuth;
use turn_auth::server_challenge::ServerChallenge;
use turn_auth::write::add;
use turn_client_api::Purpose;
use turn_stun::data::Data;
use turn_stun::message::header::MessageClass;
use turn_stun::message::method::Method;
use turn_stun::transaction::TransactionId;
use turn_stun::transport::TransportType;
use turn_types::AddressFamily;
use turn_types::attribute::{DontFragment, Lifetime, RequestedTransport};
use turn_types::message::{ALLOCATE, REFRESH};

/// The method of STUN's Binding (RFC 8489, section 18.2).
const BINDING: Method = Method { value: 0x001 };

/// The Binding indication that keeps a path alive. It has no attributes, and is not signed.
///
/// # Errors
///
/// `AllocError` if memory allocation fails.
pub fn binding_indication(alloc: Global, id: TransactionId) -> Result<Data, AllocError>
    ensures { IfOk result (λ text. text ≡ binding_indication id) }
{
    let message = begun(alloc, MessageClass::Indication, BINDING, id, HEADER_LEN)?;
    Ok(Data::from(message.finish()))
}

/// The first ALLOCATE, for addresses of these families that relay over this transport. It is not signed,
/// since the server has named no realm yet (RFC 8489, section 9.2.3.1).
///
/// # Errors
///
/// `AllocError` if memory allocation fails.
pub fn first_allocate(
    alloc: Global,
    transport: TransportType,
    families: &[AddressFamily],
    id: TransactionId,
) -> Result<Data, AllocError>
    ensures { (s : State) → IfOk result (λ text. text ≡ first_allocate (with_asked_families transport families.now s) id) }
{
    let lifetime = Lifetime::new(LIFETIME_SECONDS);
    let transport = RequestedTransport::new(transport);
    let plain = len_of(&lifetime) + len_of(&transport) + len_of(&DontFragment);
    let len = HEADER_LEN + plain + families_len(families);
    let mut message = begun(alloc, MessageClass::Request, ALLOCATE, id, len)?;
    add(&mut message, &lifetime)?;
    add(&mut message, &transport)?;
    add(&mut message, &DontFragment)?;
    add_families(&mut message, families)?;
    prove!(message.as_bytes().len() == len);
    Ok(Data::from(message.finish()))
}

/// The request for this purpose, signed with what the client holds. If it is an ALLOCATE, it requests
/// addresses of these families that relay over this transport.
///
/// # Errors
///
/// `AllocError` if memory allocation fails.
pub fn request_for(
    alloc: Global,
    auth: &LongTermClientAuth,
    transport: TransportType,
    families: &[AddressFamily],
    purpose: &Purpose,
    id: TransactionId,
) -> Result<Data, AllocError>
    requires { IsSome auth.now.held }
    ensures { IfOk result (IsRequestFor auth.now transport families.now purpose.now id) }
{
    let asked = HEADER_LEN + asked_len(transport, families, purpose);
    let len = asked + auth.message_signature_bytes();
    let mut message = begun(alloc, MessageClass::Request, method_for(purpose), id, len)?;
    add_asked(&mut message, transport, families, purpose)?;
    let text = signed(auth, message)?;
    prove!(text.as_bytes().len() == len);
    Ok(text)
}

/// The request for this purpose, as `request_for` returns it once the client holds this challenge.
///
/// # Errors
///
/// `AllocError` if memory allocation fails.
pub fn request_under(
    alloc: Global,
    auth: &LongTermClientAuth,
    challenge: &ServerChallenge,
    transport: TransportType,
    families: &[AddressFamily],
    purpose: &Purpose,
    id: TransactionId,
) -> Result<Data, AllocError>
    requires { IsSome auth.now.credentials }
    ensures { IfOk result (IsRequestFor (with_challenge challenge.now auth.now) transport families.now purpose.now id) }
{
    let asked = HEADER_LEN + asked_len(transport, families, purpose);
    let len = asked + auth.signature_bytes_under(challenge);
    let mut message = begun(alloc, MessageClass::Request, method_for(purpose), id, len)?;
    add_asked(&mut message, transport, families, purpose)?;
    let text = signed_under(auth, challenge, message)?;
    prove!(text.as_bytes().len() == len);
    Ok(text)
}

/// The REFRESH with lifetime 0 that deletes all allocations (RFC 8656, section 8). `id` is the client's
/// next transaction ID.
///
/// # Errors
///
/// `AllocError` if memory allocation fails.
pub fn delete_request(
    alloc: Global,
    auth: &LongTermClientAuth,
    id: TransactionId,
) -> Result<Data, AllocError>
    requires { IsSome auth.now.held }
    ensures { (s : State) → auth_of s ≡ auth.now → fresh_id s ≡ id → IfOk result (λ text. text ≡ delete_text s) }
{
    let lifetime = Lifetime::new(0);
    let len = HEADER_LEN + len_of(&lifetime) + auth.message_signature_bytes();
    let mut message = begun(alloc, MessageClass::Request, REFRESH, id, len)?;
    add(&mut message, &lifetime)?;
    let text = signed(auth, message)?;
    prove!(text.as_bytes().len() == len);
    Ok(text)
}

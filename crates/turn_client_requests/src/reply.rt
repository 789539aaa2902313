//! The replies of a client to the server's CONNECTION_ATTEMPT requests.

ghost use Rattle.std.specs.Prelude.{◌≡◌, ◌≤◌, length, IfOk, IsSome};
ghost use Rattle.turn_client_api.specs.Requests.{accepted_reply, refused_reply};
ghost use Rattle.turn_client_api.specs.State.{State, auth_of};
ghost use Rattle.turn_client_requests.specs.Refused.{code_of, reason_of};

use crate::write::{HEADER_LEN, begun, len_of, signed};
use std::alloc::{AllocError, Global};
use turn_auth::long_term::LongTermClientAuth;
use turn_auth::write::add;
use turn_stun::attribute::error_code::ErrorCode;
use turn_stun::data::Data;
use turn_stun::message::header::MessageClass;
use turn_stun::transaction::TransactionId;
use turn_types::message::CONNECTION_ATTEMPT;

/// Why a connection that the server offers is refused (RFC 8489, section 14.8, and RFC 6062, section 6.3).
#[derive(Clone, Copy, Debug, PartialEq, Eq)]
pub enum AttemptRefusal {
    /// 400: no connection ID, no peer, or no allocation over TCP for that peer.
    BadRequest,
    /// 446: a connection to this peer exists, bound or not, or is offered to the caller.
    ConnectionAlreadyExists,
    /// 447: the caller could not open the data connection.
    ConnectionTimeoutOrFailure,
}

impl AttemptRefusal {
    fn code(self) -> u16
        ensures value { result ≡ code_of self }
        ensures least { 300 ≤ result }
        ensures greatest { result ≤ 699 }
    {
        match self {
            AttemptRefusal::BadRequest => ErrorCode::BAD_REQUEST,
            AttemptRefusal::ConnectionAlreadyExists => ErrorCode::CONNECTION_ALREADY_EXISTS,
            AttemptRefusal::ConnectionTimeoutOrFailure => ErrorCode::CONNECTION_TIMEOUT_OR_FAILURE,
        }
    }

    fn reason(self) -> &'static [u8]
        ensures text { result.now ≡ reason_of self }
        ensures short { length result.now ≤ 127 }
    {
        match self {
            AttemptRefusal::BadRequest => b"Bad Request",
            AttemptRefusal::ConnectionAlreadyExists => b"Connection Already Exists",
            AttemptRefusal::ConnectionTimeoutOrFailure => b"Connection Timeout or Failure",
        }
    }
}

/// The success response to the server's request with this ID: the data connection is open. It carries the
/// integrity alone (RFC 8489, section 9.2.4).
///
/// # Errors
///
/// `AllocError` if memory allocation fails.
pub fn accepted_reply(
    alloc: Global,
    auth: &LongTermClientAuth,
    id: TransactionId,
) -> Result<Data, AllocError>
    requires { IsSome auth.now.held }
    ensures { (s : State) → auth_of s ≡ auth.now → IfOk result (λ text. text ≡ accepted_reply s id) }
{
    let len = HEADER_LEN + auth.reply_signature_bytes();
    let message = begun(alloc, MessageClass::Success, CONNECTION_ATTEMPT, id, len)?;
    let text = signed(auth, message)?;
    prove!(text.as_bytes().len() == len);
    Ok(text)
}

/// The error response to the server's request with this ID.
///
/// # Errors
///
/// `AllocError` if memory allocation fails.
pub fn refused_reply(
    alloc: Global,
    auth: &LongTermClientAuth,
    refusal: AttemptRefusal,
    id: TransactionId,
) -> Result<Data, AllocError>
    requires { IsSome auth.now.held }
    ensures { (s : State) → auth_of s ≡ auth.now → IfOk result (λ text. text ≡ refused_reply (code_of refusal) (reason_of refusal) s id) }
{
    let error = ErrorCode::new(refusal.code(), refusal.reason());
    let len = HEADER_LEN + len_of(&error) + auth.reply_signature_bytes();
    let mut message = begun(alloc, MessageClass::Error, CONNECTION_ATTEMPT, id, len)?;
    add(&mut message, &error)?;
    let text = signed(auth, message)?;
    prove!(text.as_bytes().len() == len);
    Ok(text)
}

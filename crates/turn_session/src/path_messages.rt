//! The messages of the checks of the path: Binding, and CREATE_PERMISSION without attributes.

ghost use Rattle.std.specs.Prelude.{◌≡◌, IfOk};
ghost use Rattle.turn_session.specs.PathMessages.{text_in, method_number, request_bytes, response_in};

use std::alloc::{AllocError, Global};
use std::net::SocketAddr;
use turn_hints::mapped_address_of;
use turn_session_client::is_channel_data;
use turn_session_life::watch::OwnRequest;
use turn_session_path::round::CheckRequest;
use turn_stun::data::Data;
use turn_stun::message::Message;
use turn_stun::message::header::MessageClass;
use turn_stun::message::method::Method;
use turn_stun::message::write::MessageWriteVec;
use turn_stun::transaction::TransactionId;
use turn_types::message::CREATE_PERMISSION;

/// The method of Binding (RFC 8489, section 18.2).
const BINDING: Method = Method { value: 0x001 };

/// A response of the server.
#[derive(Clone, Copy, Debug)]
pub struct PathText {
    /// The ID of the request that it answers.
    pub id: TransactionId,
    /// This client's address, as the server sees it.
    pub mapped: Option<SocketAddr>,
}

/// The response, if these bytes are one.
pub(crate) fn response_in(bytes: &[u8]) -> Option<PathText>
    ensures { result ≡ response_in bytes.now }
{
    if is_channel_data(bytes) {
        return None;
    }
    match Message::from_bytes(bytes) {
        Ok(message) => text_of(&message),
        Err(_) => None,
    }
}

/// What the message says, if it is a response.
fn text_of(message: &Message<'_>) -> Option<PathText>
    ensures { result ≡ text_in message.now }
{
    match message.class() {
        MessageClass::Success | MessageClass::Error => Some(PathText {
            id: message.transaction_id(),
            mapped: mapped_address_of(message),
        }),
        _ => None,
    }
}

/// The bytes of a request of the path.
///
/// # Errors
///
/// If memory allocation fails.
pub(crate) fn request_bytes(alloc: Global, request: OwnRequest) -> Result<Data, AllocError>
    ensures { IfOk result (λ bytes. bytes ≡ request_bytes request) }
{
    let message = MessageWriteVec::builder_request(alloc, method_of(request.request), request.id)?;
    Ok(Data::from(message.finish()))
}

/// The method of such a request.
fn method_of(request: CheckRequest) -> Method
    ensures { result.value ≡ method_number request }
{
    match request {
        CheckRequest::Binding => BINDING,
        CheckRequest::BarePermission => CREATE_PERMISSION,
    }
}

//! Responses to requests of the client, as they are before the client accepts or ignores them.

ghost use Rattle.std.specs.Prelude.{◌≡◌, option_and_then};
ghost use Rattle.turn_client_api.specs.Judgement.{lifetime_in};
ghost use Rattle.turn_client_api.specs.Requests.{method_for};
ghost use Rattle.turn_session_client.specs.Reading.{IsReading, IsText, asked_for, has_other_method, hint_in, ignored_in};
ghost use Rattle.turn_session_client.specs.Reading.{is_foreign, key_for, mapped_after, reply_in, response_to};

use crate::answering::{is_channel_data, reply_of};
use std::net::SocketAddr;
use turn_client_api::{Purpose, TurnClientApi};
use turn_hints::mapped_address_of;
use turn_session_book::keys::Key;
use turn_session_book::replies::ErrorReply;
use turn_session_life::responses::{Asked, Response, Said};
use turn_stun::message::Message;
use turn_stun::message::header::MessageClass;
use turn_stun::message::method::Method;
use turn_types::attribute::Lifetime;
use turn_types::message::{
    ALLOCATE, CHANNEL_BIND, CONNECT, CONNECTION_BIND, CREATE_PERMISSION, REFRESH,
};

/// What a response says.
#[derive(Clone, Copy, Debug)]
pub enum Text {
    /// A success, with its LIFETIME in seconds and its XOR-MAPPED-ADDRESS, if it has them.
    Success(Option<u32>, Option<SocketAddr>),
    /// An error.
    Error(ErrorReply),
}

/// A response to a request of the client, which the client has not accepted or ignored yet.
#[derive(Clone, Copy, Debug)]
pub struct Reading {
    /// The request that it answers.
    pub asked: Asked,
    /// What that was made for, if it was for a grant.
    pub key: Option<Key>,
    /// The permission that a request for a channel was made for too (RFC 8656, section 12.2).
    pub second: Option<Key>,
    /// Whether that request awaits a response.
    pub is_awaited: bool,
    /// What it says.
    pub text: Text,
}

/// The response to a request of this client, if these bytes are one.
pub(crate) fn read<C: TurnClientApi>(bytes: &[u8], client: &C) -> Option<Reading>
    ensures { IsReading bytes.now (C.state client.now) result }
{
    if is_channel_data(bytes) {
        return None;
    }
    let message = Message::from_bytes(bytes).ok()?;
    let view = client.request_of(message.transaction_id());
    let purpose = view.first?;
    let text = text_of(&message)?;
    Some(Reading {
        asked: asked_for(purpose),
        key: key_for(purpose),
        second: second_key(view.second),
        is_awaited: view.resends.is_some(),
        text,
    })
}

/// Whether these bytes are a response that has another method than the request with its ID. It answers nothing (RFC 8489, section
/// 6.3), and a client would end the request by it if it were signed.
pub(crate) fn is_foreign<C: TurnClientApi>(bytes: &[u8], client: &C) -> bool
    ensures { result ≡ is_foreign bytes.now (C.state client.now) }
{
    if is_channel_data(bytes) {
        return false;
    }
    match Message::from_bytes(bytes) {
        Ok(message) => has_other_method(&message, client),
        Err(_) => false,
    }
}

/// Whether it is a response that has another method than the request with its ID.
fn has_other_method<C: TurnClientApi>(message: &Message<'_>, client: &C) -> bool
    ensures { result ≡ has_other_method message.now (C.state client.now) }
{
    let request = client.request_of(message.transaction_id());
    match (message.class(), request.first) {
        (MessageClass::Success | MessageClass::Error, Some(purpose)) => {
            method_for(purpose) != message.method()
        }
        _ => false,
    }
}

/// The method of a request for this purpose.
fn method_for(purpose: Purpose) -> Method
    ensures { result.value ≡ method_for purpose }
{
    match purpose {
        Purpose::ForAllocation => ALLOCATE,
        Purpose::ForRefresh(_, _) => REFRESH,
        Purpose::ForPermission(_) => CREATE_PERMISSION,
        Purpose::ForChannel(_, _) => CHANNEL_BIND,
        Purpose::ForConnect(_) => CONNECT,
        Purpose::ForBind(_, _, _) => CONNECTION_BIND,
    }
}

/// What the message says, if it is a response.
fn text_of(message: &Message<'_>) -> Option<Text>
    ensures { IsText message.now result }
{
    match message.class() {
        MessageClass::Success => Some(Text::Success(
            lifetime_of(message),
            mapped_address_of(message),
        )),
        MessageClass::Error => Some(Text::Error(reply_of(message))),
        _ => None,
    }
}

/// The lifetime in seconds, from the first LIFETIME (RFC 8656, section 18.2).
fn lifetime_of(message: &Message<'_>) -> Option<u32>
    ensures { result ≡ lifetime_in message.now }
{
    match message.attribute::<Lifetime>() {
        Ok(lifetime) => Some(lifetime.seconds()),
        Err(_) => None,
    }
}

/// Which request was made for this purpose.
fn asked_for(purpose: Purpose) -> Asked
    ensures { result ≡ asked_for purpose }
{
    match purpose {
        Purpose::ForAllocation => Asked::Allocate,
        Purpose::ForRefresh(_, _) => Asked::Refresh,
        _ => Asked::Other,
    }
}

/// The grant for which a request with this purpose was made.
fn key_for(purpose: Purpose) -> Option<Key>
    ensures { result ≡ key_for purpose }
{
    match purpose {
        Purpose::ForPermission(ip) => Some(Key::Permission(ip)),
        Purpose::ForChannel(_, peer) => Some(Key::Channel(peer)),
        Purpose::ForConnect(peer) => Some(Key::Connect(peer)),
        Purpose::ForBind(_, peer, _) => Some(Key::Connect(peer)),
        _ => None,
    }
}

/// The grant for which a request was made too.
fn second_key(purpose: Option<Purpose>) -> Option<Key>
    ensures { result ≡ option_and_then key_for purpose }
{
    key_for(purpose?)
}

/// The error of a response, as an event of the client reports it that accepts it.
pub(crate) fn reply_in(reading: Option<Reading>) -> Option<ErrorReply>
    ensures { result ≡ reply_in reading }
{
    match reading?.text {
        Text::Success(_, _) => None,
        Text::Error(reply) => Some(reply),
    }
}

/// What the response says, now that the client has accepted or ignored it.
pub(crate) fn response_to(reading: Reading, is_taken: bool) -> Response
    ensures { result ≡ response_to reading is_taken }
{
    let said = match reading.text {
        Text::Success(lifetime, _) if is_taken => Said::Granted(lifetime),
        Text::Error(reply) if reading.is_awaited => Said::Denied(ErrorReply { is_taken, ..reply }),
        _ => Said::Nothing,
    };
    Response {
        asked: reading.asked,
        said,
    }
}

/// The error of the ALLOCATE that the response has, if it is not signed.
pub(crate) fn hint_in(response: Response) -> Option<ErrorReply>
    ensures { result ≡ hint_in response }
{
    match (response.asked, response.said) {
        (Asked::Allocate, Said::Denied(error)) if !error.is_taken => Some(error),
        _ => None,
    }
}

/// The error that the response has, if it answers a request that awaits one and the client has ignored it.
pub(crate) fn ignored_in(response: Response) -> Option<ErrorReply>
    ensures { result ≡ ignored_in response }
{
    match response.said {
        Said::Denied(error) if !error.is_taken => Some(error),
        _ => None,
    }
}

/// This client's address as the server sees it, after this response: that in a success of the ALLOCATE that the client accepted.
pub(crate) fn mapped_after(
    reading: Reading,
    is_taken: bool,
    before: Option<SocketAddr>,
) -> Option<SocketAddr>
    ensures { result ≡ mapped_after reading is_taken before }
{
    match (reading.asked, reading.text) {
        (Asked::Allocate, Text::Success(_, mapped)) if is_taken => mapped,
        _ => before,
    }
}

//! The contents of a message of the server. Attributes after its integrity are ignored (RFC 8489,
//! sections 14.5 and 14.6), and a malformed attribute has no value.

ghost use Rattle.std.specs.Prelude.{◌≡◌};
ghost use Rattle.turn_client_api.specs.Effect.{has_code};
ghost use Rattle.turn_client_api.specs.Judgement.{connection_id_in, lifetime_in, peer_in};

use std::net::SocketAddr;
use turn_stun::attribute::error_code::ErrorCode;
use turn_stun::message::Message;
use turn_types::attribute::{ConnectionId, Lifetime, XorPeerAddress};

/// The lifetime in seconds, from the first LIFETIME (RFC 8656, section 18.2).
pub(crate) fn lifetime_in(message: &Message<'_>) -> Option<u32>
    ensures { result ≡ lifetime_in message.now }
{
    match message.attribute::<Lifetime>() {
        Ok(lifetime) => Some(lifetime.seconds()),
        Err(_) => None,
    }
}

/// The server's ID of a data connection, from the first CONNECTION-ID (RFC 6062, section 6.2.1).
pub(crate) fn connection_id_in(message: &Message<'_>) -> Option<u32>
    ensures { result ≡ connection_id_in message.now }
{
    match message.attribute::<ConnectionId>() {
        Ok(connection) => Some(connection.id()),
        Err(_) => None,
    }
}

/// The peer address, from the first XOR-PEER-ADDRESS (RFC 8656, section 18.3).
pub(crate) fn peer_in(message: &Message<'_>) -> Option<SocketAddr>
    ensures { result ≡ peer_in message.now }
{
    match message.attribute::<XorPeerAddress>() {
        Ok(peer) => Some(peer.addr()),
        Err(_) => None,
    }
}

/// Whether the first ERROR-CODE has this code (RFC 8489, section 14.8).
pub(crate) fn has_code(message: &Message<'_>, code: u16) -> bool
    ensures { result ≡ has_code code message.now }
{
    match message.attribute::<ErrorCode<'_>>() {
        Ok(error) => error.code() == code,
        Err(_) => false,
    }
}

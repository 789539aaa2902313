//! What a server's response says.

ghost use Rattle.std.specs.Prelude.{◌≡◌};
ghost use Rattle.turn_hints.specs.Hints.{alternate_in, mapped_in};
ghost use Rattle.turn_stun.specs.Read.{code_in};

use crate::address::{AlternateServer, XorMappedAddress};
use std::net::SocketAddr;
use turn_stun::attribute::error_code::ErrorCode;
use turn_stun::message::Message;

/// The code of the first ERROR-CODE, from 300 to 699, or `None` if there is none, or if it is malformed (RFC 8489, section
/// 14.8).
pub fn code_of(message: &Message<'_>) -> Option<u16>
    ensures { result ≡ code_in message.now }
{
    let error: ErrorCode<'_> = message.attribute().ok()?;
    Some(error.code())
}

/// The address of the first XOR-MAPPED-ADDRESS, or `None` if there is none, or if it is malformed (RFC 8489, section 14.2).
pub fn mapped_address_of(message: &Message<'_>) -> Option<SocketAddr>
    ensures { result ≡ mapped_in message.now }
{
    let mapped: XorMappedAddress = message.attribute().ok()?;
    Some(mapped.addr())
}

/// The address of the first ALTERNATE-SERVER, or `None` if there is none, or if it is malformed (RFC 8489, section 14.15).
pub fn alternate_server_of(message: &Message<'_>) -> Option<SocketAddr>
    ensures { result ≡ alternate_in message.now }
{
    let server: AlternateServer = message.attribute().ok()?;
    Some(server.addr())
}

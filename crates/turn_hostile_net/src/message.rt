//! The messages of the server, and those that pretend to be the server's.

use crate::fault::Fault;
use std::alloc::Global;
use std::net::SocketAddr;
use turn_auth::hmac::hmac_sha1;
use turn_stun::attribute::error_code::ErrorCode;
use turn_stun::attribute::nonce::Nonce;
use turn_stun::attribute::realm::Realm;
use turn_stun::attribute::{AttributeType, RawAttribute};
use turn_stun::message::header::{MessageClass, MessageType};
use turn_stun::message::method::Method;
use turn_stun::message::write::MessageWriteVec;
use turn_stun::transaction::TransactionId;
use turn_types::attribute::{
    ConnectionId, Data, Icmp, Lifetime, XorPeerAddress, XorRelayedAddress,
};

/// The MD5 of `user:realm:pass`, with which both sides sign (RFC 8489, section 18.5.1.1).
const KEY: &[u8; 16] = &[
    0x84, 0x93, 0xfb, 0xc5, 0x3b, 0xa5, 0x82, 0xfb, 0x4c, 0x04, 0x4c, 0x45, 0x6b, 0xdc, 0x40, 0xeb,
];

/// The type of XOR-MAPPED-ADDRESS (RFC 8489, section 18.3.1).
const XOR_MAPPED_ADDRESS: AttributeType = AttributeType { value: 0x0020 };

/// An attribute of a message.
#[derive(Clone, Copy)]
pub enum Part<'a> {
    /// LIFETIME, in seconds.
    Lifetime(u32),
    /// XOR-MAPPED-ADDRESS, 198.51.100.1 with this port (RFC 8489, section 14.2).
    Mapped(u16),
    /// XOR-RELAYED-ADDRESS.
    Relayed(SocketAddr),
    /// XOR-PEER-ADDRESS.
    Peer(SocketAddr),
    /// CONNECTION-ID.
    Connection(u32),
    /// DATA.
    Data(&'a [u8]),
    /// ICMP, a port that is not reached.
    Icmp,
    /// ERROR-CODE, from 300 to 699.
    Error(u16),
    /// REALM `realm`.
    Realm,
    /// REALM `other`.
    OtherRealm,
    /// NONCE, the bytes of this number.
    Nonce(u32),
}

/// Who signs a message.
#[derive(Clone, Copy)]
pub enum Signer {
    /// Nobody: the message has no integrity.
    Nobody,
    /// The server.
    Server,
    /// A stranger who does not know the password.
    Stranger,
}

/// What a message is.
#[derive(Clone, Copy)]
pub struct Title {
    /// Its method.
    pub method: Method,
    /// Its class.
    pub class: MessageClass,
    /// Its transaction ID.
    pub id: [u8; 12],
}

/// The bytes of a message with these attributes, an integrity by this signer, and attributes after that.
///
/// # Errors
///
/// If memory allocation fails, or the message would be too long.
pub fn message(
    alloc: Global,
    title: Title,
    parts: &[Part<'_>],
    signer: Signer,
    tail: &[Part<'_>],
) -> Result<Vec<u8>, Fault> {
    let kind = MessageType {
        method: title.method,
        class: title.class,
    };
    let id = title.id;
    let mut out = MessageWriteVec::builder(alloc, kind, TransactionId::from_bytes(id))?;
    add_all(&mut out, parts)?;
    sign(alloc, &mut out, signer)?;
    add_all(&mut out, tail)?;
    Ok(out.finish())
}

fn sign(alloc: Global, out: &mut MessageWriteVec, signer: Signer) -> Result<(), Fault> {
    match signer {
        Signer::Nobody => Ok(()),
        Signer::Server => add_integrity(alloc, out, KEY),
        Signer::Stranger => add_integrity(alloc, out, b"pass"),
    }
}

fn add_all(out: &mut MessageWriteVec, parts: &[Part<'_>]) -> Result<(), Fault> {
    for part in parts {
        add(out, *part)?;
    }
    Ok(())
}

fn add(out: &mut MessageWriteVec, part: Part<'_>) -> Result<(), Fault> {
    let added = match part {
        Part::Lifetime(seconds) => out.add_attribute(&Lifetime::new(seconds)),
        Part::Mapped(port) => out.add_attribute(&RawAttribute {
            attribute_type: XOR_MAPPED_ADDRESS,
            value: &mapped_value(port),
        }),
        Part::Relayed(address) => out.add_attribute(&XorRelayedAddress::new(address)),
        Part::Peer(address) => out.add_attribute(&XorPeerAddress::new(address)),
        Part::Connection(id) => out.add_attribute(&ConnectionId::new(id)),
        Part::Data(bytes) => out.add_attribute(&Data::new(bytes)),
        Part::Icmp => out.add_attribute(&Icmp::new(3, 3, 0)),
        Part::Error(code) => out.add_attribute(&ErrorCode::new(code.max(300).min(699), b"")),
        Part::Realm => out.add_attribute(&Realm::new(b"realm")),
        Part::OtherRealm => out.add_attribute(&Realm::new(b"other")),
        Part::Nonce(number) => out.add_attribute(&Nonce::new(&number.to_be_bytes())),
    };
    Ok(added?)
}

/// The value of XOR-MAPPED-ADDRESS for 198.51.100.1 with this port: port and address are XORed with the magic cookie.
fn mapped_value(port: u16) -> [u8; 8] {
    let [high, low] = (port ^ 0x2112).to_be_bytes();
    [0, 1, high, low, 198 ^ 0x21, 51 ^ 0x12, 100 ^ 0xa4, 1 ^ 0x42]
}

fn add_integrity(alloc: Global, out: &mut MessageWriteVec, key: &[u8]) -> Result<(), Fault> {
    let value = integrity_of(alloc, out.as_bytes(), key)?;
    out.add_attribute(&RawAttribute {
        attribute_type: AttributeType::MESSAGE_INTEGRITY,
        value: value.as_slice(),
    })?;
    Ok(())
}

/// The MESSAGE-INTEGRITY that follows these bytes of a message. Its length field counts up to the end of that
/// attribute (RFC 8489, section 14.5).
fn integrity_of(alloc: Global, bytes: &[u8], key: &[u8]) -> Result<[u8; 20], Fault> {
    let [a, b, _, _, rest @ ..] = bytes else {
        return Ok([0; 20]);
    };
    let len = u16::try_from(rest.len().saturating_add(8)).unwrap_or(u16::MAX);
    let mut text = Vec::from_slice(alloc, &[*a, *b])?;
    text.extend_from_slice(&len.to_be_bytes())?;
    text.extend_from_slice(rest)?;
    Ok(hmac_sha1(key, text.as_slice()))
}

/// Whether the message ends with the right integrity of the bytes before it.
///
/// # Errors
///
/// If memory allocation fails.
pub fn is_signed(alloc: Global, bytes: &[u8]) -> Result<bool, Fault> {
    let Some((head, value)) = bytes.split_last_chunk::<20>() else {
        return Ok(false);
    };
    let [text @ .., 0x00, 0x08, 0x00, 0x14] = head else {
        return Ok(false);
    };
    Ok(integrity_of(alloc, text, KEY)?.as_slice() == value.as_slice())
}

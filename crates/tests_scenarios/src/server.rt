//! A server as a table: its answer to each request, by how many requests of that method it received.
//!
//! It signs with the HMAC-SHA1 of the bytes before the integrity, under the key of the long-term credentials (RFC
//! 8489, sections 9.2 and 14.5).

use std::alloc::{AllocError, Global};
use turn_auth::hmac::hmac_sha1;
use turn_stun::message::Message;
use turn_stun::message::header::MessageClass;

/// The MD5 of `user:realm:pass`, with which both sides sign.
const KEY: [u8; 16] = [
    0x84, 0x93, 0xfb, 0xc5, 0x3b, 0xa5, 0x82, 0xfb, 0x4c, 0x04, 0x4c, 0x45, 0x6b, 0xdc, 0x40, 0xeb,
];

const COOKIE: [u8; 4] = [0x21, 0x12, 0xa4, 0x42];

/// The type and the length of MESSAGE-INTEGRITY.
const INTEGRITY: [u8; 4] = [0x00, 0x08, 0x00, 0x14];

const INTEGRITY_LEN: usize = 24;

/// The type of a Binding indication (RFC 8489, sections 5 and 18.2).
pub(crate) const BINDING_INDICATION: u16 = 0x11;

// The methods (RFC 8656, section 17, and RFC 6062, section 6.1).
pub(crate) const ALLOCATE: u16 = 3;

pub(crate) const REFRESH: u16 = 4;

pub(crate) const CREATE_PERMISSION: u16 = 8;

pub(crate) const CHANNEL_BIND: u16 = 9;

pub(crate) const CONNECTION_BIND: u16 = 11;

/// The attributes that the client adds to a request that it signs: USERNAME `user`, REALM `realm` and NONCE `nonce`.
const CREDENTIALS: &[u8] = &[
    0x00, 0x06, 0x00, 0x04, 0x75, 0x73, 0x65, 0x72, 0x00, 0x14, 0x00, 0x05, 0x72, 0x65, 0x61, 0x6c,
    0x6d, 0x00, 0x00, 0x00, 0x00, 0x15, 0x00, 0x05, 0x6e, 0x6f, 0x6e, 0x63, 0x65, 0x00, 0x00, 0x00,
];

/// The requests of a method to which a row applies.
#[derive(Clone, Copy)]
pub(crate) enum Often {
    Always,
    /// The request after this many others.
    After(u32),
    /// All requests after this many others that are signed with the nonce `nonce`.
    StaleFrom(u32),
}

/// An answer of the server: a success with these attributes, which is signed, or an error, which is not.
#[derive(Clone, Copy)]
pub(crate) enum Answer<'a> {
    Nothing,
    Success(&'a [&'a [u8]]),
    Error(&'a [u8]),
}

/// The server's answer to these requests of this method. The first row that applies is used.
pub(crate) type Rule<'a> = (u16, Often, Answer<'a>);

/// The requests that the server received.
#[derive(Drop)]
pub(crate) struct Server {
    alloc: Global,
    /// The number of requests of each method.
    heard: [u32; 16],
    /// The number of requests that are not signed with the key.
    pub(crate) unsigned: u32,
}

impl Often {
    fn fits(self, before: u32, request: &[u8]) -> bool {
        match self {
            Often::Always => true,
            Often::After(count) => before == count,
            Often::StaleFrom(count) => before >= count && has_first_nonce(request),
        }
    }
}

impl Server {
    pub(crate) fn new(alloc: Global) -> Server {
        Server {
            alloc,
            heard: [0; 16],
            unsigned: 0,
        }
    }

    /// Counts a request of this method, and returns how many there were before it.
    fn count(&mut self, method: u16) -> u32 {
        match self.heard.get_mut(usize::from(method)) {
            Some(count) => {
                let before = *count;
                *count = before.saturating_add(1);
                before
            }
            None => 0,
        }
    }

    /// The answer to these bytes, if there is one.
    pub(crate) fn answer(
        &mut self,
        rules: &[Rule<'_>],
        bytes: &[u8],
    ) -> Result<Option<Vec<u8>>, AllocError> {
        let Ok(request) = Message::from_bytes(bytes) else {
            return Ok(None);
        };
        if request.class() != MessageClass::Request {
            return Ok(None);
        }
        if !is_signed(bytes) {
            self.unsigned = self.unsigned.saturating_add(1);
        }
        let method = request.method().value;
        let before = self.count(method);
        let id = request.transaction_id().to_bytes();
        match answer_of(rules, method, before, bytes) {
            Answer::Nothing => Ok(None),
            Answer::Success(parts) => Ok(Some(success(self.alloc, method, id, parts)?)),
            Answer::Error(attribute) => Ok(Some(error(self.alloc, method, id, attribute)?)),
        }
    }
}

/// The answer in the table.
fn answer_of<'a>(rules: &[Rule<'a>], method: u16, before: u32, request: &[u8]) -> Answer<'a> {
    for (of, often, answer) in rules {
        if *of == method && often.fits(before, request) {
            return *answer;
        }
    }
    Answer::Nothing
}

/// Whether the request is signed with the nonce `nonce`.
fn has_first_nonce(request: &[u8]) -> bool {
    match request.split_last_chunk::<24>() {
        Some((text, _)) => text.ends_with(CREDENTIALS),
        None => false,
    }
}

/// Whether the message ends with the integrity of the bytes before it.
fn is_signed(bytes: &[u8]) -> bool {
    let Some((rest, code)) = bytes.split_last_chunk::<20>() else {
        return false;
    };
    let Some((text, head)) = rest.split_last_chunk::<4>() else {
        return false;
    };
    *head == INTEGRITY && hmac_sha1(&KEY, text) == *code
}

/// A success with these attributes, and its integrity.
pub(crate) fn success(
    alloc: Global,
    method: u16,
    id: [u8; 12],
    parts: &[&[u8]],
) -> Result<Vec<u8>, AllocError> {
    let body = joined(alloc, parts)?;
    let mut bytes = message(alloc, 0x0100 | method, id, body.as_slice(), INTEGRITY_LEN)?;
    let integrity = hmac_sha1(&KEY, bytes.as_slice());
    bytes.extend_from_slice(&INTEGRITY)?;
    bytes.extend_from_slice(&integrity)?;
    Ok(bytes)
}

/// An error with these attributes, and no integrity.
fn error(
    alloc: Global,
    method: u16,
    id: [u8; 12],
    attributes: &[u8],
) -> Result<Vec<u8>, AllocError> {
    message(alloc, 0x0110 | method, id, attributes, 0)
}

/// The header of a message, and these attributes, which others of this length follow.
fn message(
    alloc: Global,
    kind: u16,
    id: [u8; 12],
    body: &[u8],
    following: usize,
) -> Result<Vec<u8>, AllocError> {
    let len = u16::try_from(body.len().saturating_add(following)).unwrap_or(u16::MAX);
    let mut bytes = Vec::new(alloc);
    bytes.extend_from_slice(&kind.to_be_bytes())?;
    bytes.extend_from_slice(&len.to_be_bytes())?;
    bytes.extend_from_slice(&COOKIE)?;
    bytes.extend_from_slice(&id)?;
    bytes.extend_from_slice(body)?;
    Ok(bytes)
}

fn joined(alloc: Global, parts: &[&[u8]]) -> Result<Vec<u8>, AllocError> {
    let mut bytes = Vec::new(alloc);
    for part in parts {
        bytes.extend_from_slice(part)?;
    }
    Ok(bytes)
}

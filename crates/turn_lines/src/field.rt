//! The value of one field of a line.

ghost use Rattle.std.specs.Prelude.{◌≡◌};
ghost use Rattle.turn_lines.specs.Field.{Gives, transport_of, bytes_of, seed_of, is_lower_hex};

use hex::{FromHex, FromHexError};
use std::alloc::{AllocError, Global};
use turn_types::TransportType;

/// Why a field, or a line, could not be parsed.
#[derive(Clone, Copy, Debug, PartialEq, Eq)]
pub enum FieldError {
    /// It does not have the required form.
    Malformed,
    /// Memory allocation for its value failed.
    OutOfMemory,
}

/// `udp` or `tcp`.
pub fn parse_transport(text: &[u8]) -> Option<TransportType>
    ensures { result ≡ transport_of text.now }
{
    match text {
        b"udp" => Some(TransportType::Udp),
        b"tcp" => Some(TransportType::Tcp),
        _ => None,
    }
}

/// Bytes in lower-case hexadecimal, or `-` for no bytes.
pub fn parse_bytes(alloc: Global, text: &[u8]) -> Result<Vec<u8>, FieldError>
    ensures { Gives (λ bytes. bytes.items) result (bytes_of text.now) }
{
    if text == b"-".as_slice() {
        return Ok(Vec::new(alloc));
    }
    if text.is_empty() || !is_lower_hex(text) {
        return Err(FieldError::Malformed);
    }
    match hex::decode(alloc, text) {
        Ok(bytes) => Ok(bytes),
        Err(FromHexError::OutOfMemory) => Err(FieldError::OutOfMemory),
        Err(_) => Err(FieldError::Malformed),
    }
}

/// A seed of 32 bytes in lower-case hexadecimal.
pub fn parse_seed(text: &[u8]) -> Option<[u8; 32]>
    ensures { result ≡ seed_of text.now }
{
    if !is_lower_hex(text) {
        return None;
    }
    <[u8; 32]>::from_hex(text).ok()
}

/// Whether each byte is a digit or one of `a` to `f`.
pub fn is_lower_hex(text: &[u8]) -> bool
    ensures { result ≡ is_lower_hex text.now }
{
    text.iter()
        .all(|byte| matches!(*byte, b'0'..=b'9' | b'a'..=b'f'))
}

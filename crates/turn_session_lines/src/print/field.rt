//! Single values as text.

ghost use Rattle.std.specs.Prelude.{◌≡◌, IfOk, string_bytes};
ghost use Rattle.turn_session_lines.specs.Text.{optional_address_text, call_error_text, code_text, error_text, how_text, key_text, error_reply_text};

use crate::print::address::{address_text, bytes_text, ip_text};
use std::alloc::{AllocError, Global};
use std::net::SocketAddr;
use turn_session_book::answers::CallError;
use turn_session_book::keys::Key;
use turn_session_book::replies::ErrorReply;

/// `permission IP`, `channel PEER` or `connect PEER`.
pub fn key_text(alloc: Global, key: Key) -> Result<String, AllocError>
    ensures { IfOk result (λ text. string_bytes text ≡ key_text key) }
{
    match key {
        Key::Permission(ip) => {
            let ip = ip_text(alloc, ip)?;
            format!(in alloc; "permission {ip}")
        }
        Key::Channel(peer) => {
            let peer = address_text(alloc, peer)?;
            format!(in alloc; "channel {peer}")
        }
        Key::Connect(peer) => {
            let peer = address_text(alloc, peer)?;
            format!(in alloc; "connect {peer}")
        }
    }
}

/// An error response, or `-` for none.
pub fn error_reply_text(alloc: Global, reply: Option<ErrorReply>) -> Result<String, AllocError>
    ensures { IfOk result (λ text. string_bytes text ≡ error_reply_text reply) }
{
    match reply {
        Some(error) => error_text(alloc, error),
        None => String::from_str(alloc, "-"),
    }
}

/// An error response: its code, `taken` if the client accepted it and else `hint`, its reason phrase, and the alternate server.
pub fn error_text(alloc: Global, error: ErrorReply) -> Result<String, AllocError>
    ensures { IfOk result (λ text. string_bytes text ≡ error_text error) }
{
    let code = code_text(alloc, error.code)?;
    let how = how_text(error.is_taken);
    let phrase = bytes_text(alloc, error.phrase.as_bytes())?;
    let alternate = optional_address_text(alloc, error.alternate)?;
    format!(in alloc; "{code} {how} {phrase} {alternate}")
}

/// The code of an error, or `none`.
fn code_text(alloc: Global, code: Option<u16>) -> Result<String, AllocError>
    ensures { IfOk result (λ text. string_bytes text ≡ code_text code) }
{
    match code {
        Some(code) => format!(in alloc; "{code}"),
        None => String::from_str(alloc, "none"),
    }
}

/// Whether the client accepted the response.
fn how_text(is_taken: bool) -> &'static str
    ensures { result.now ≡ how_text is_taken }
{
    if is_taken { "taken" } else { "hint" }
}

/// An address, or `-` for none.
pub fn optional_address_text(alloc: Global, addr: Option<SocketAddr>) -> Result<String, AllocError>
    ensures { IfOk result (λ text. string_bytes text ≡ optional_address_text addr) }
{
    match addr {
        Some(addr) => address_text(alloc, addr),
        None => String::from_str(alloc, "-"),
    }
}

/// Why the client made no request.
pub fn call_error_text(alloc: Global, error: CallError) -> Result<String, AllocError>
    ensures { IfOk result (λ text. string_bytes text ≡ call_error_text error) }
{
    match error {
        CallError::NoAllocation => String::from_str(alloc, "no-allocation"),
        CallError::NoPermission => String::from_str(alloc, "no-permission"),
        CallError::AlreadyExists => String::from_str(alloc, "already-exists"),
        CallError::Reserved(until) => {
            let nanos = until.as_nanos();
            format!(in alloc; "expired {nanos}")
        }
        CallError::NotGranted => String::from_str(alloc, "not-granted"),
        CallError::OutOfMemory => String::from_str(alloc, "no-memory"),
    }
}

//! Why a session ends, as text.

ghost use Rattle.std.specs.Prelude.{◌≡◌, IfOk, string_bytes};
ghost use Rattle.turn_session_lines.specs.Text.{caused_by_error, caused_by_system, ended_text, why_text};

use crate::print::field::{error_text, key_text};
use std::alloc::{AllocError, Global};
use turn_session_book::causes::Why;
use turn_session_book::replies::ErrorReply;
use turn_session_book::tags::Tag;

/// Why a session ends.
pub fn why_text(alloc: Global, why: Why) -> Result<String, AllocError>
    ensures { IfOk result (λ text. string_bytes text ≡ why_text why) }
{
    match why {
        Why::Closed => String::from_str(alloc, "closed"),
        Why::Silent(wait) => {
            let nanos = wait.as_nanos();
            format!(in alloc; "silent {nanos}")
        }
        Why::Refused(error) => caused_by_error(alloc, "refused", error),
        Why::WrongCredentials(error) => caused_by_error(alloc, "wrong-credentials", error),
        Why::Unauthenticated => String::from_str(alloc, "unauthenticated"),
        Why::NoUsableAddress => String::from_str(alloc, "no-usable-address"),
        Why::TooManyChallenges(code) => format!(in alloc; "too-many-challenges {code}"),
        Why::NotRenewed(error) => caused_by_error(alloc, "not-renewed", error),
        Why::ShortRenewal(seconds) => format!(in alloc; "short-renewal {seconds}"),
        Why::RenewalSilent => String::from_str(alloc, "renewal-silent"),
        Why::Forgotten(error) => caused_by_error(alloc, "forgotten", error),
        Why::Unanswered(count) => format!(in alloc; "unanswered {count}"),
        Why::GrantSilent(key) => {
            let key = key_text(alloc, key)?;
            format!(in alloc; "grant-silent {key}")
        }
        Why::CredentialsRefused => String::from_str(alloc, "credentials-refused"),
        Why::SocketErrors(tag) => caused_by_system(alloc, "socket-errors", tag),
        Why::SocketEnded(tag) => ended_text(alloc, tag),
        Why::StreamFull => String::from_str(alloc, "stream-full"),
        Why::NotAStream => String::from_str(alloc, "not-a-stream"),
        Why::NoRoute(tag) => caused_by_system(alloc, "no-route", tag),
        Why::HostMoved(tag) => caused_by_system(alloc, "host-moved", tag),
        Why::OutOfMemory => String::from_str(alloc, "no-memory"),
    }
}

/// A cause that is an error response.
fn caused_by_error(alloc: Global, word: &str, error: ErrorReply) -> Result<String, AllocError>
    ensures { IfOk result (λ text. string_bytes text ≡ caused_by_error word.now error) }
{
    let error = error_text(alloc, error)?;
    format!(in alloc; "{word} {error}")
}

/// A cause that is an error of the caller's system.
fn caused_by_system(alloc: Global, word: &str, tag: Tag) -> Result<String, AllocError>
    ensures { IfOk result (λ text. string_bytes text ≡ caused_by_system word.now tag) }
{
    let number = tag.0;
    format!(in alloc; "{word} {number}")
}

/// The end of the stream, by an error of the caller's system or by the server.
fn ended_text(alloc: Global, tag: Option<Tag>) -> Result<String, AllocError>
    ensures { IfOk result (λ text. string_bytes text ≡ ended_text tag) }
{
    match tag {
        Some(tag) => caused_by_system(alloc, "socket-ended", tag),
        None => String::from_str(alloc, "socket-ended -"),
    }
}

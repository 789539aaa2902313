//! Events of a session as text.

ghost use Rattle.std.specs.Prelude.{◌≡◌, ◌++◌, IfOk, codes, string_bytes};
ghost use Rattle.turn_session_lines.specs.Text.{error_reply_text, event_text, key_text, optional_address_text, outcome_text, why_text};
ghost use Rattle.turn_lines.specs.Text.{address_text};

use crate::print::address::{address_text, family_text};
use crate::print::cause::why_text;
use crate::print::field::{error_reply_text, key_text, optional_address_text};
use crate::print::outcome::outcome_text;
use std::alloc::{AllocError, Global};
use std::net::SocketAddr;
use turn_session_book::answers::Outcome;
use turn_session_book::causes::Why;
use turn_session_book::events::Event;
use turn_session_book::keys::Key;
use turn_session_book::replies::ErrorReply;
use turn_types::AddressFamily;

/// What happened.
pub fn event_text(alloc: Global, event: Event) -> Result<String, AllocError>
    ensures { IfOk result (λ text. string_bytes text ≡ event_text event) }
{
    match event {
        Event::Heard => String::from_str(alloc, "heard"),
        Event::Up(relayed, mapped) => up(alloc, relayed, mapped),
        Event::Also(relayed) => of_address(alloc, "also", relayed),
        Event::FamilyFailed(family, error) => family_failed(alloc, family, error),
        Event::Ending(why) => of_cause(alloc, "ending", why),
        Event::Outcome(ticket, key, outcome) => {
            let rest = of_outcome(alloc, key, outcome)?;
            format!(in alloc; "outcome {ticket} {rest}")
        }
        Event::Lost(key, outcome) => {
            let rest = of_outcome(alloc, key, outcome)?;
            format!(in alloc; "lost {rest}")
        }
        Event::Expired(key) => of_key(alloc, "expired", key),
        Event::Refreshed(Some(key)) => of_key(alloc, "refreshed", key),
        Event::Refreshed(None) => String::from_str(alloc, "refreshed allocation"),
        Event::Checked(ticket, true, mapped) => {
            let mapped = optional_address_text(alloc, mapped)?;
            format!(in alloc; "checked {ticket} yes {mapped}")
        }
        Event::Checked(ticket, false, _) => format!(in alloc; "checked {ticket} no"),
        Event::Moved(mapped) => of_address(alloc, "moved", mapped),
        Event::Over(why) => of_cause(alloc, "over", why),
    }
}

/// The first relayed address, and this client's address as the server sees it.
fn up(alloc: Global, relayed: SocketAddr, mapped: Option<SocketAddr>) -> Result<String, AllocError>
    ensures { IfOk result (λ text. string_bytes text ≡ codes "up " ++ (address_text relayed ++ (codes " " ++ optional_address_text mapped))) }
{
    let relayed = address_text(alloc, relayed)?;
    let mapped = optional_address_text(alloc, mapped)?;
    format!(in alloc; "up {relayed} {mapped}")
}

/// A family without a relayed address.
fn family_failed(
    alloc: Global,
    family: AddressFamily,
    error: Option<ErrorReply>,
) -> Result<String, AllocError>
    ensures { IfOk result (λ text. string_bytes text ≡ event_text (Event.FamilyFailed family error)) }
{
    let family = family_text(family);
    let error = error_reply_text(alloc, error)?;
    format!(in alloc; "family-failed {family} {error}")
}

/// A word and an address.
fn of_address(alloc: Global, word: &str, addr: SocketAddr) -> Result<String, AllocError>
    ensures { IfOk result (λ text. string_bytes text ≡ word.now ++ (codes " " ++ address_text addr)) }
{
    let addr = address_text(alloc, addr)?;
    format!(in alloc; "{word} {addr}")
}

/// A word and a key.
fn of_key(alloc: Global, word: &str, key: Key) -> Result<String, AllocError>
    ensures { IfOk result (λ text. string_bytes text ≡ word.now ++ (codes " " ++ key_text key)) }
{
    let key = key_text(alloc, key)?;
    format!(in alloc; "{word} {key}")
}

/// A word and a cause.
fn of_cause(alloc: Global, word: &str, why: Why) -> Result<String, AllocError>
    ensures { IfOk result (λ text. string_bytes text ≡ word.now ++ (codes " " ++ why_text why)) }
{
    let why = why_text(alloc, why)?;
    format!(in alloc; "{word} {why}")
}

/// A key, and what became of its request.
fn of_outcome(alloc: Global, key: Key, outcome: Outcome) -> Result<String, AllocError>
    ensures { IfOk result (λ text. string_bytes text ≡ key_text key ++ (codes " " ++ outcome_text outcome)) }
{
    let key = key_text(alloc, key)?;
    let outcome = outcome_text(alloc, outcome)?;
    format!(in alloc; "{key} {outcome}")
}

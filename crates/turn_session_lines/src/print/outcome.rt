//! What became of a request, as text.

ghost use Rattle.std.specs.Prelude.{◌≡◌, IfOk, string_bytes};
ghost use Rattle.turn_session_lines.specs.Text.{outcome_text};

use crate::print::cause::why_text;
use crate::print::field::{call_error_text, error_reply_text, error_text};
use std::alloc::{AllocError, Global};
use turn_session_book::answers::Outcome;

/// What became of a request.
pub fn outcome_text(alloc: Global, outcome: Outcome) -> Result<String, AllocError>
    ensures { IfOk result (λ text. string_bytes text ≡ outcome_text outcome) }
{
    match outcome {
        Outcome::Granted => String::from_str(alloc, "granted"),
        Outcome::Refused(error) => {
            let error = error_text(alloc, error)?;
            format!(in alloc; "refused {error}")
        }
        Outcome::TimedOut(error) => {
            let error = error_reply_text(alloc, error)?;
            format!(in alloc; "timed-out {error}")
        }
        Outcome::NotMade(error) => {
            let error = call_error_text(alloc, error)?;
            format!(in alloc; "not-made {error}")
        }
        Outcome::NotOpened(tag) => {
            let number = tag.0;
            format!(in alloc; "not-opened {number}")
        }
        Outcome::NotBound => String::from_str(alloc, "not-bound"),
        Outcome::Ended(why) => {
            let why = why_text(alloc, why)?;
            format!(in alloc; "ended {why}")
        }
    }
}

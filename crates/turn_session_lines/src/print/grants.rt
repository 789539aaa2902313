//! What was granted, as text.

ghost use Rattle.std.specs.Prelude.{◌≡◌, IfOk, string_bytes};
ghost use Rattle.turn_session_lines.specs.Text.{grants_text, kept_word};

use crate::print::field::key_text;
use std::alloc::{AllocError, Global};
use turn_session_book::held::HeldGrant;

/// The number of grants, and each with whether it is kept.
pub fn grants_text(alloc: Global, grants: &[HeldGrant]) -> Result<String, AllocError>
    ensures { IfOk result (λ text. string_bytes text ≡ grants_text grants.now) }
{
    let count = grants.len();
    let mut text = format!(in alloc; "list {count}")?;
    for grant in grants {
        let key = key_text(alloc, grant.key)?;
        let word = kept_word(grant.is_kept);
        let fields = format!(in alloc; " {key} {word}")?;
        text.push_str(fields.as_str())?;
    }
    Ok(text)
}

/// Whether it is kept.
fn kept_word(is_kept: bool) -> &'static str
    ensures { result.now ≡ kept_word is_kept }
{
    if is_kept { "kept" } else { "released" }
}

//! A text split into parts: a trace into lines, a line into fields.

ghost use Rattle.std.specs.Prelude.{◌≡◌, [], ◌∷◌, ◌+◌, ◌≤◌, length, MatchOption, IfSome, is_some};
ghost use Rattle.std.specs.Option.{option_copied};
ghost use Rattle.turn_lines.specs.Parts.{parts_of, parts_left, ends};

use memchr::memchr;
use std::marker::Model;

/// The parts of a text that are not read yet. They are separated by one separator each, so that between two
/// adjacent separators there is an empty part.
///
/// In contracts this is the list of these parts.
#[derive(Drop)]
pub struct Parts<'a> {
    separator: u8,
    /// The text from the next part on, or `None` after the last part.
    rest: Option<&'a [u8]>,
}

impl<'a> Model for Parts<'a> {
    ghost use Rattle.std.specs.Prelude.{ℕ, List};
    ghost use Rattle.std.specs.Option.{option_copied};
    ghost use Rattle.turn_lines.specs.Parts.{parts_left};

    ghost Value = { List (List ℕ) };

    ghost view = { λ parts. parts_left parts.separator (option_copied parts.rest) };
}

impl<'a> Parts<'a> {
    /// All parts of a text.
    pub fn new(text: &'a [u8], separator: u8) -> Parts<'a>
        ensures { result ≡ parts_of separator text.now }
    {
        Parts {
            separator,
            rest: Some(text),
        }
    }

    /// Takes the next part, or returns `None` after the last one.
    pub fn next(&mut self) -> Option<&'a [u8]>
        ensures { MatchOption result ((self.old ≡ []) × (self.new ≡ [])) (λ part. self.old ≡ part.now ∷ self.new) }
    {
        let (part, rest) = first_part(self.rest?, self.separator);
        self.rest = rest;
        Some(part)
    }

    /// `Some` if no part is left.
    #[tactic(auto, using(crate::proofs::PartsLemmas::ends_of_parts))]
    pub fn end(&self) -> Option<()>
        ensures { result ≡ ends self.now }
    {
        match self.rest {
            Some(_) => None,
            None => Some(()),
        }
    }
}

/// The text up to the first separator, and the text after that separator, if there is one.
fn first_part(text: &[u8], separator: u8) -> (&[u8], Option<&[u8]>)
    ensures { parts_of separator text.now ≡ result.0.now ∷ parts_left separator (option_copied result.1) }
{
    match memchr(separator, text) {
        Some(at) => (&text[..at], Some(&text[at + 1..])),
        None => (text, None),
    }
}

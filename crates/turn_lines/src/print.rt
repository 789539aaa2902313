//! The text of replies: a line for each.

ghost use Rattle.std.specs.Prelude.{◌≡◌, ◌++◌, IfOk, OnOk, string_bytes};
ghost use Rattle.turn_lines.specs.Text.{answers_text, bad_text, kind_text};

mod event;
mod field;
mod list;
mod poll;
mod reply;

use crate::fault::{BadKind, BadLine};
use crate::print::reply::reply_text;
use std::alloc::{AllocError, Global};
use turn_client_calls::Reply;

/// A line for each answer.
pub fn answers_text(alloc: Global, replies: &[Reply]) -> Result<String, AllocError>
    ensures { IfOk result (λ text. string_bytes text ≡ answers_text replies.now) }
{
    let mut text = String::new(alloc);
    for reply in replies {
        text.push_str(reply_text(alloc, reply)?.as_str())?;
        text.push('\n')?;
    }
    Ok(text)
}

/// The line that reports which line of a trace is bad, and why.
pub fn bad_text(alloc: Global, bad: BadLine) -> Result<String, AllocError>
    ensures { IfOk result (λ text. string_bytes text ≡ bad_text bad) }
{
    let number = bad.number;
    let kind = kind_text(bad.kind);
    format!(in alloc; "line {number}: bad {kind}\n")
}

fn kind_text(kind: BadKind) -> &'static str
    ensures { result.now ≡ kind_text kind }
{
    match kind {
        BadKind::Size => "size",
        BadKind::Head => "head",
        BadKind::Time => "moment",
        BadKind::Call => "call",
        BadKind::Argument => "argument",
        BadKind::Payload => "payload",
    }
}

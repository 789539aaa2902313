//! Runs a client by the calls of a trace, and prints the answer of each call.
//!
//! ```text
//!  standard input: a head, and a line a call --run--> standard output: a line an answer
//! ```
//!
//! The head describes a client and its server; `docs/rattle/LINES.md` has the format. From the crate's folder
//!
//! ```text
//! rt try < stdin
//! ```
//!
//! runs the trace of its file `stdin`, unproved. Begin with [`run`].
#![tactic(auto)]

mod answer;
mod input;
mod program;
mod trace;

pub use program::{exit_code, run};
use std::process::ExitCode;

fn main(rt: HostRuntime) -> ExitCode {
    exit_code(rt.alloc(), &mut rt.stdin(), &mut rt.stdout())
}

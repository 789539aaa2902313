//! Makes the calls of a row on a client, and checks what the client promises if a memory allocation fails.
//!
//! ```text
//!  standard input: a row ------run------> standard output: one line, what was seen
//!                           |      ^
//!              calls, by the trait |  answers
//!                           v      |
//!                            client
//! ```
//!
//! A row is a head, and then a call and its answer in turn, each on a line in the format of `turn_replay`.
//!
//! - A call that changes nothing if a memory allocation fails is made again then, and has to be answered as the row
//!   says.
//! - Where the answer is `ended`, a memory allocation has to fail in the call, and to end the client. The calls after it
//!   are made on the client that has ended, and their answers say what is left of it.
//!
//! `tools/check/refuse` makes rows of transcripts, and runs them with each request for memory of the client refused in turn. A
//! write of no bytes says where each of its calls begins and where it ends. From the crate's folder
//!
//! ```text
//! rt try < stdin
//! ```
//!
//! runs the row of its file `stdin`, unproved and with no request refused. Begin with [`run`].
#![tactic(auto)]

mod carry;
mod follow;
mod head;
mod list;
mod make;
mod parse;
mod program;
mod seen;
mod signal;

pub use program::run;
use std::process::ExitCode;

fn main(rt: HostRuntime) -> ExitCode {
    run(rt.alloc(), &mut rt.stdin(), &mut rt.stdout())
}

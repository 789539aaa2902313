//! Runs a session by calls that arrive line by line, and answers each at once.
//!
//! ```text
//!  a caller in any language, ---- a line a call -------> run: a session and its client,
//!  with sockets and a clock  <--- its answer, at once -- which have neither
//! ```
//!
//! The lines come on standard input, and the answers go to standard output. From the crate's folder
//!
//! ```text
//! rt run < stdin
//! ```
//!
//! proves and builds the program, and runs it on the lines of its file `stdin`. Begin with [`run`].
#![tactic(auto)]

mod input;
mod program;

pub use program::{answer_next, run};
use std::io::BufReader;
use std::process::ExitCode;
use turn_lines::status::Status;
use turn_lines::write::write_last;

fn main(rt: HostRuntime) -> ExitCode {
    let status = match BufReader::new(rt.alloc(), rt.stdin()) {
        Ok(mut reader) => run(rt.alloc(), &mut reader, &mut rt.stdout()),
        Err(_) => write_last(&mut rt.stdout(), Status::OutOfMemory, "no memory\n"),
    };
    ExitCode::from(status.code())
}

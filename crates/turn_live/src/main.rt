//! Runs a client by calls that arrive line by line, and answers each at once.
//!
//! ```text
//!  a caller in any language, ---- a line a call -------> run: a client,
//!  with sockets and a clock  <--- its answer, at once -- which has neither
//! ```
//!
//! The lines come on standard input, and the answers go to standard output: a line that describes a client and its
//! server, and then a line for each call, in the format of `turn_replay`. From the crate's folder
//!
//! ```text
//! rt run < stdin
//! ```
//!
//! proves and builds the program, and runs it on the lines of its file `stdin`; `docs/rattle/LINES.md` has a caller. Begin
//! with [`run`].
#![tactic(auto)]

mod line;
mod program;
mod session;
mod stop;

pub use program::{exit_code, run};
pub use session::answer_next;
use std::io::BufReader;
use std::process::ExitCode;
use turn_lines::status::Status;
use turn_lines::write::write_last;

fn main(rt: HostRuntime) -> ExitCode {
    match BufReader::new(rt.alloc(), rt.stdin()) {
        Ok(mut reader) => exit_code(rt.alloc(), &mut reader, &mut rt.stdout()),
        Err(_) => {
            let status = write_last(&mut rt.stdout(), Status::OutOfMemory, "no memory\n");
            ExitCode::from(status.code())
        }
    }
}

//! The lines that describe a client and its calls, and the lines that answer them.
//!
//! [`parse_head`](head::parse_head) parses the line that describes a client and its server,
//! [`parse_call`](call::parse_call) the line of a call, and [`answers_text`](print::answers_text) prints
//! the answers of calls:
//!
//! ```text
//! udp 192.168.0.1:1000 10.0.0.2:2000 udp 4 sha1 auto 75736572 70617373 <seed>     the head
//! 0 poll                                                                          a call, at time 0
//! wait 0                                                                          its answer
//! ```
//!
//! In code:
//!
//! ```rust
//! let head = parse_head(alloc, first_line)?;
//! let call = parse_call(alloc, head.request.allocation, second_line)?;
//! let text = answers_text(alloc, &[reply_to(alloc, &mut client, &call)?])?;
//! ```
//!
//! `turn_replay` reads a whole trace of such lines, and `turn_live` answers each line as it arrives.
#![tactic(auto)]

pub mod address;
pub mod call;
pub mod fault;
pub mod field;
pub mod head;
mod laws;
pub mod number;
pub mod parts;
pub mod print;
pub mod status;
pub mod write;

//! The loop of a caller of a TURN client, over any client. No IO.
//!
//! ```text
//!              input                              give to the program, send,
//!  sockets ----------> drive_client --> [Task] -->  open and close connections
//!     ^                      |
//!     +--- sleep until <-----+ Rest
//! ```
//!
//! Begin with [`drive_client`]: it passes one packet in, polls the client for all that it has to do, and returns when
//! to wake up. [`next_task`] polls for one task alone, and takes no list. Both use the trait
//! [`TurnClientApi`](turn_client_api::TurnClientApi) alone, so their guarantees hold for every client that
//! keeps the trait's contracts.
//!
//! ```text
//! loop {
//!     let rest = drive_client(&mut client, came.take(), clock.now(), 64, &mut tasks)?;
//!     let is_idle = tasks.is_empty(); // carrying a task out may call the client
//!     for task in tasks.drain(..) {
//!         app.carry_out(task, &mut client);
//!     }
//!     match rest {
//!         Rest::Until(deadline) if is_idle => came = sockets.wait(deadline),
//!         Rest::Until(_) | Rest::Now => {}
//!         Rest::Ended => break,
//!     }
//! }
//! ```
#![tactic(auto)]

mod driven;
mod driver;
mod next;
mod on_time;
mod rests;
mod task;

pub use driven::a_relay_is_driven;
pub use driver::drive_client;
pub use next::{Next, next_task};
pub use on_time::loops_are_on_time;
pub use rests::loops_come_to_rest;
pub use task::{Rest, Task};

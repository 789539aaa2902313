//! A TURN client with what is noted of it: what its caller requests has one outcome each, what the server granted is kept, whether the
//! server still knows the allocation is asked in doubt, and the end has a cause. There is no IO. `turn_session` adds the checks of
//! the path and is what callers use.
//!
//! ```text
//!  a request of the caller   -- request -----> NotedClient  -- poll_event ----> outcomes, grants that are lost, the cause of the end
//!  what the server sent      -- recv --------> NotedClient  -- poll ----------> a time
//!  data for a peer           -- send_to -----> NotedClient  -- poll_transmit -> a packet
//! ```
//!
//! Begin with [`noted::NotedClient`]. Its requests and grants are those of `turn_session_book`, and its opening, its end and its doubts
//! those of `turn_session_life`.
#![tactic(auto)]

mod answering;
pub mod constants;
mod keeping;
pub mod making;
pub mod noted;
pub mod notes;
mod question;
pub mod reading;
mod refused;

pub use answering::is_channel_data;
pub use refused::{expiries_are_reported, refusals_are_reported};

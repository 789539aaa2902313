//! One life of one TURN client, from its first request to its end: what a caller requests has one outcome each, the path to the server
//! and the allocation are checked, and the end has a cause. There is no IO.
//!
//! ```text
//!  a request of the caller   -- request -----> Session  -- poll_event ----> outcomes, grants that are lost, the cause of the end
//!  what the server sent      -- recv --------> Session  -- poll ----------> a time
//!  data for a peer           -- send_to -----> Session  -- poll_transmit -> a packet
//! ```
//!
//! Begin with [`session::Session`]. It is a `NotedClient` of `turn_session_client`, with the checks of the path of `turn_session_life`.
#![tactic(auto)]

pub mod constants;
pub mod due;
mod given;
mod path_messages;
pub mod sent;
pub mod session;
pub mod settings;

//! A relay that comes back: which server is asked, with which of its addresses and when, one session after the other, what is
//! requested again of each, and after which failures it is given up. There is no IO: the caller does tasks, such as opening
//! sockets, and passes in times and what was received.
//!
//! ```text
//!  tasks of the caller       <- next -------- Relay -- next -> packets, events, a time
//!  answers to them           -- credentials, found, resolved, opened, failed --> Relay
//!  what the servers sent     -- recv, poll_recv ------------------------------> Relay
//!  what the caller requests  -- request, set_kept, send, check, leave --------> Relay
//! ```
//!
//! Begin with [`relay::Relay`]. It has a `Plan` of `turn_relay_plan`, the `Lives` of `turn_relay_lives`, and the keys that a
//! session is asked for, the `Wanted` of `turn_relay_tries`.
#![tactic(auto)]

pub mod answer;
pub mod constants;
pub mod due;
pub mod events;
mod job;
pub mod relay;
pub mod report;
pub mod settings;

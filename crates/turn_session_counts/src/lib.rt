//! Counts the requests of a client to its server, and measures how long the server takes for an answer. There is no client and no IO:
//! the caller passes in which requests are sent, which are answered, and when.
//!
//! ```text
//!  a request that leaves     -- sent ------> RequestCounts  -- counters --> how many, how many again, and the round trip
//!  a response that comes     -- answered --> RequestCounts
//! ```
//!
//! Begin with [`counts::RequestCounts`].
#![tactic(auto)]

pub mod counters;
pub mod counts;

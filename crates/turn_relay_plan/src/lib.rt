//! What a relay decides without its sessions: which task the caller is given, which address is attempted, and when a try has failed.
//! There is no IO: the caller passes in times and what has happened.
//!
//! ```text
//!  poll -> task: credentials -- ready ------> task: addresses of the server -- found, resolved -> attempts, 250 ms apart
//!  an attempt                -- opened -----> a socket, of which the first that is heard is used -- heard
//!  what failed               -- failed, fail -> another address, another try, or the end
//! ```
//!
//! Begin with [`plan::Plan`].
#![tactic(auto)]

pub mod constants;
pub mod error;
pub mod plan;
pub mod step;

//! When a relay is tried, how far it has come, and when it is given up: what decides on its sessions, and holds none of them. There is
//! no IO: the caller passes in times and what has happened.
//!
//! ```text
//!              begin          ready                  opened               restored
//!  Resting ------------> Asking ------------> Trying -------> Restoring ------------> Up
//!     ^                    |                    |                 |                   |
//!     +--------------------+------- failed -----+-----------------+-------------------+----> Over
//! ```
//!
//! Begin with [`course::Course`].
#![tactic(auto)]

pub mod course;
pub mod laws;
pub mod reopen;

//! Peers that neither send nor are sent to: what they were granted is released, and kept again when they are used. There is no
//! client and no IO: the caller passes in times, what is granted and which peers are used.
//!
//! ```text
//!  data, or a request     -- used -----> UsedPeers  -- poll -----> keep this, release this, or a time
//!  what the caller keeps  -- decided --> UsedPeers
//! ```
//!
//! Begin with [`peers::IdlePeers`], which [`used::UsedPeers`] keeps the last use apart from, so that a use costs little.
#![tactic(auto)]

pub mod peers;
pub mod usage;
mod usages;
pub mod used;

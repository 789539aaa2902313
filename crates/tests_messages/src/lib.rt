//! The tests of `turn_stun`, `turn_types`, `turn_auth`, `turn_agent` and `turn_hints`, through their public items.
//!
//! The gate proves a crate that has tests twice, with them and without. So the tests are here, a module for
//! each crate, and the crates under test are proved once.
//! To run them, unproved, in this folder:
//!
//! ```text
//! rt try --test
//! ```
#![tactic(auto)]

#[cfg(test)]
mod agent;
#[cfg(test)]
mod auth;
#[cfg(test)]
mod fixture;
#[cfg(test)]
mod hints;
#[cfg(test)]
mod stun;
#[cfg(test)]
mod types;

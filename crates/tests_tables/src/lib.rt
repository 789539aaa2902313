//! The tests of `turn_client_grants` and `turn_client_streams`, by their public items.
//!
//! The gate proves a crate that has tests twice, with them and without. So the tests are here, a module for
//! each crate, and the crates that they test are proved once.
//! To run them, unproved, in this folder:
//!
//! ```text
//! rt try --test
//! ```
#![tactic(auto)]

#[cfg(test)]
mod fixture;
#[cfg(test)]
mod grants;
#[cfg(test)]
mod streams;

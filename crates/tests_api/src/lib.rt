//! The tests of `turn_client_api`, `turn_client_requests`, `turn_client_proto` and `turn_lines`, through their public items.
//!
//! The gate proves a crate that has tests twice, with them and without. So the tests are here, a module for
//! each crate, and the crates under test are proved once.
//! To run them, unproved, in this folder:
//!
//! ```text
//! rt try --test
//! ```
#![tactic(auto)]

#[cfg(test)]
mod api;
#[cfg(test)]
mod fixture;
#[cfg(test)]
mod lines;
#[cfg(test)]
mod proto;
#[cfg(test)]
mod requests;

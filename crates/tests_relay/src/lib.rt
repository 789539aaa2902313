//! Tests of `turn_relay_tries`, `turn_relay_course` and `turn_relay_plan`: when a relay is tried, and what its caller is to do.
//!
//! To run them, unproved, in this folder:
//!
//! ```text
//! rt try --test
//! ```
#![tactic(auto)]

#[cfg(test)]
mod course;
#[cfg(test)]
mod fixture;
#[cfg(test)]
mod plan;
#[cfg(test)]
mod tries;
#[cfg(test)]
mod wanted;

//! Tests of `turn_session_book`, `turn_session_idle`, `turn_session_counts` and `turn_session_path`: what a session notes, which peers
//! are idle, how its requests are counted, and how it checks its path, without a client.
//!
//! To run them, unproved, in this folder:
//!
//! ```text
//! rt try --test
//! ```
#![tactic(auto)]

#[cfg(test)]
mod book;
#[cfg(test)]
mod counts;
#[cfg(test)]
mod fixture;
#[cfg(test)]
mod idle;
#[cfg(test)]
mod path;
#[cfg(test)]
mod permissions;

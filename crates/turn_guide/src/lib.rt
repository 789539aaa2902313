//! The samples of `docs/rattle/GUIDE.md`, which `tools/check/guide` compares with that page, and runs in sessions.
#![tactic(auto)]

pub mod program;
pub mod samples;

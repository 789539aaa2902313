//! The client that a line describes: [`new_client`](client::new_client) makes it, and
//! [`replayed_text`](run::replayed_text) prints what it answers to calls, one line for each.
#![tactic(auto)]

pub mod client;
pub mod run;

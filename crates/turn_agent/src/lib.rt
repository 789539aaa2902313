//! Transaction IDs, and requests that are retransmitted until a response is received (RFC 8489,
//! section 6), with no IO: nothing here opens a socket or reads a clock.
//!
//! ```text
//!  request  ---- send_request ----> StunAgent ---- poll_transmit ----> the request again
//!  response - handle_stun_message ->    |
//!                                       +---- poll ----> the next deadline, or a timed-out request
//! ```
//!
//! [`number_source::NumberSource`] returns the IDs of a seed. Begin with [`agent::StunAgent`], which
//! keeps the requests that await a response.
//!
//! ```rust
//! let packet = agent.send_request(ids.draw(), request, server, now)?;
//! send(packet);
//! match agent.poll(now) {
//!     StunAgentPollRet::WaitUntil(time) => sleep_until(time),
//!     StunAgentPollRet::TransactionTimedOut(id) => handle_timeout(id),
//! }
//! while let Some(again) = agent.poll_transmit(now)? {
//!     send_again(again);
//! }
//! ```
//!
//! The contents of the messages, and the effect of a response, are left to the crates above.
#![tactic(auto)]

pub mod agent;
mod front;
mod ids;
pub mod number_source;
pub mod schedule;
mod search;
pub mod transaction;

pub use agent::{StunAgent, StunAgentBuilder, StunAgentPollRet, Transmit};
pub use number_source::NumberSource;
pub use schedule::RequestTimers;

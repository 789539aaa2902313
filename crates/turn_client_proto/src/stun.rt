//! STUN: messages, times and packets, credentials, and requests with their retransmissions.

pub use crate::types::stun as types;
pub use crate::types::stun::{attribute, message};
pub use turn_agent::{agent, number_source, schedule};
pub use turn_auth as auth;
pub use turn_stun::instant::Instant;
pub use turn_stun::{data, error, instant, prelude, transaction, transport};

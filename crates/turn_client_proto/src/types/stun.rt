//! Messages, times and packets of STUN, by the paths of the original crate.

pub mod attribute;
pub mod message;

pub use turn_stun::instant::Instant;
pub use turn_stun::transport::TransportType;
pub use turn_stun::{data, error, instant, prelude, transaction, transport};

//! The traits whose methods callers use.

pub use crate::api::TurnClientApi;
pub use turn_types::transmit::DelayedTransmitBuild;

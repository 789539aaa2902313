//! The traits whose methods callers use.

pub use crate::transmit::DelayedTransmitBuild;

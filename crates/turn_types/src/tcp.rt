//! Streams that are cut into frames (RFC 8656, section 12.5, and RFC 8489, section 6.2.2).
//!
//! Over TCP the network cuts a stream anywhere. `TurnTcpBuffer` takes its pieces and returns its frames,
//! which are STUN messages and ChannelData messages, distinguished by their first two bits.
//!
//! The laws say what holds of frames wherever the stream is cut: `frames_are_unique`, `frames_are_found`,
//! `calls_give_frames`, `calls_take_one_frame` and `same_for_any_cut`. Each is a function that does nothing,
//! and ensures its law.

mod buffer;
mod counts;
mod head;
mod incoming;
mod laws;

pub use buffer::TurnTcpBuffer;
pub use counts::TcpCounts;
pub use incoming::{IncomingTcp, StoredTcp};
pub use laws::{
    calls_give_frames, calls_take_one_frame, frames_are_found, frames_are_unique, same_for_any_cut,
};

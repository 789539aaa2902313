//! What TURN (RFC 8656, RFC 6062) adds to STUN: its attributes, ChannelData messages, streams that are
//! cut into frames, and packets that are built when they are sent. No IO.
//!
//! ```text
//!  pieces of a stream --TurnTcpBuffer--> messages, and ChannelData --ChannelData::parse--> number, payload
//!  payload for a peer --DelayedChannel, DelayedMessage--> TransmitBuild --write_into--> bytes of a packet
//! ```
//!
//! Begin with [`attribute`], [`channel`] and [`tcp`] for what a server sends, and with [`transmit`] for
//! what is sent to it.
//!
//! ```rust
//! stream.feed(piece)?;
//! while let Some(frame) = stream.front() {
//!     take(frame);
//!     stream.pass();
//! }
//! ```
//!
//! Messages themselves are STUN's, in `stun`, and their signatures are not checked here.
#![tactic(auto)]

mod address;
pub mod attribute;
pub mod channel;
pub mod error;
mod family;
pub mod message;
pub mod prelude;
pub mod tcp;
pub mod transmit;

pub use family::AddressFamily;
pub use turn_stun as stun;
pub use turn_stun::transport::TransportType;

//! What TURN adds to STUN: attributes, ChannelData messages, and packets that are built when they are
//! sent.

pub mod stun;

pub use turn_auth::credentials::TurnCredentials;
pub use turn_stun::instant::Instant;
pub use turn_types::{
    AddressFamily, TransportType, attribute, channel, error, message, prelude, tcp, transmit,
};

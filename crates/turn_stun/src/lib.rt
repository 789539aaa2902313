//! STUN messages (RFC 8489), times and packets, with no IO: nothing here opens a socket or reads a clock.
//!
//! ```text
//!  bytes --Message::from_bytes--> Message --attribute--> ErrorCode, Realm, Nonce ..
//!  bytes <------- finish ------- MessageWriteVec <--add_attribute-- ErrorCode, Realm, Nonce ..
//! ```
//!
//! Begin with [`message::Message::from_bytes`], which checks whether bytes are a message and lets the
//! caller read it without memory allocation, and with [`message::write::MessageWriteVec`], which makes
//! one. The values of attributes are in [`attribute`].
//!
//! ```rust
//! let message = Message::from_bytes(bytes)?;
//! if message.has_class(MessageClass::Error) {
//!     let error: ErrorCode<'_> = message.attribute()?;
//!     report(error.code());
//! }
//! let mut answer = MessageWriteVec::builder_error(alloc, message.method(), message.transaction_id())?;
//! answer.add_attribute(&ErrorCode::new(400, b"Bad Request"))?;
//! send(answer.finish());
//! ```
//!
//! Integrity, keys and retransmission are left to the crates above, and so are TURN's own attributes.
#![tactic(auto)]

pub mod attribute;
pub mod data;
pub mod error;
pub mod instant;
pub mod message;
pub mod transaction;
pub mod transport;

pub use attribute::error_code::ErrorCode;
pub use attribute::nonce::Nonce;
pub use attribute::password_algorithms::{PasswordAlgorithm, PasswordAlgorithms};
pub use attribute::realm::Realm;
pub use attribute::userhash::Userhash;
pub use attribute::username::Username;
pub use attribute::xor_address::XorSocketAddr;
pub use attribute::{AttributeType, RawAttribute};
pub use data::Data;
pub use error::{AttributeError, ParseError, WriteError};
pub use instant::Instant;
pub use message::Message;
pub use message::header::{MessageClass, MessageHeader, MessageType};
pub use message::method::Method;
pub use message::write::MessageWriteVec;
pub use transaction::TransactionId;
pub use transport::{Transmit, TransportType};

/// The traits of attributes, for `use turn_stun::prelude::*`.
pub mod prelude {
    pub use crate::attribute::typed::{AttributeFromRaw, AttributeWrite};
}

//! Messages with their parts, and transaction IDs (RFC 8489, section 5).

pub use turn_auth::integrity::IntegrityAlgorithm;
pub use turn_stun::message::header::{MessageClass, MessageHeader, MessageType};
pub use turn_stun::message::method::Method;
pub use turn_stun::message::write::MessageWriteVec;
pub use turn_stun::message::{Message, attributes, header, method, write};
pub use turn_stun::transaction::TransactionId;

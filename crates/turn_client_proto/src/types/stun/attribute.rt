//! What a message carries after its header (RFC 8489, section 14).

pub use turn_stun::attribute::error_code::ErrorCode;
pub use turn_stun::attribute::nonce::Nonce;
pub use turn_stun::attribute::password_algorithms::{PasswordAlgorithm, PasswordAlgorithms};
pub use turn_stun::attribute::realm::Realm;
pub use turn_stun::attribute::userhash::Userhash;
pub use turn_stun::attribute::username::Username;
pub use turn_stun::attribute::xor_address::XorSocketAddr;
pub use turn_stun::attribute::{
    AttributeType, RawAttribute, error_code, nonce, password_algorithms, realm, typed, userhash,
    username, xor_address,
};

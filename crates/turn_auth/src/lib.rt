//! HMAC, keys, challenges and the long-term credentials of STUN (RFC 8489, section 9.2), with no IO.
//!
//! ```text
//!  client                                              server
//!    |--- request, not signed ------------------------->|
//!    |<-- 401 or 438 with realm and nonce --------------|   take_challenge
//!    |--- request, signed ----------------------------->|   sign_outgoing_message
//!    |<-- response, signed -----------------------------|   validate_incoming_message
//! ```
//!
//! Begin with [`LongTermClientAuth`], which judges received messages and signs those that are sent.
//!
//! ```rust
//! match auth.validate_incoming_message(&response) {
//!     Validation::ResendRequest(_) => {
//!         auth.take_challenge(&response)?;
//!         auth.sign_outgoing_message(&mut again)?;
//!     }
//!     Validation::Validated(_) => accept(&response),
//!     Validation::Refused { .. } => {}
//! }
//! ```
//!
//! Which requests are made, and when, is left to the crates above.
#![tactic(auto)]

mod challenge;
pub mod credentials;
mod denial;
pub mod feature;
mod held;
pub mod hmac;
pub mod integrity;
mod key;
pub mod long_term;
pub mod received_challenge;
pub mod server_challenge;
mod signature;
pub mod validation;
pub mod write;

pub use credentials::{CredentialsError, TurnCredentials};
pub use feature::Feature;
pub use integrity::IntegrityAlgorithm;
pub use long_term::LongTermClientAuth;
pub use received_challenge::ReceivedChallenge;
pub use server_challenge::ServerChallenge;
pub use validation::{Validation, Verdict};

//! The bytes of each message that a TURN client sends to its server: its requests, and its replies to the
//! server's own requests (RFC 8656, sections 7 to 12, and RFC 6062, section 4). No IO.
//!
//! Begin with [`request_for`], the signed request for a `Purpose`. The first ALLOCATE is not signed, and
//! [`request_under`] signs with a challenge that the client does not hold yet.
//!
//! ```rust
//! let first = first_allocate(alloc, TransportType::Udp, &families, id)?;
//! let permit = request_for(alloc, &auth, TransportType::Udp, &families, &Purpose::ForPermission(ip), id)?;
//! ```
//!
//! Which request is made and when it is sent is left to the crates above.
#![tactic(auto)]

mod reply;
mod request;
mod request_attributes;
mod write;

pub use reply::{AttemptRefusal, accepted_reply, refused_reply};
pub use request::{binding_indication, delete_request, first_allocate, request_for, request_under};

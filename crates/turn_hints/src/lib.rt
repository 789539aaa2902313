//! What a packet of a server says, without judging it. Nothing here checks a signature, so all that it returns is a hint:
//! anyone who can reach the client's socket may have sent it.
//!
//! ```text
//!  bytes --first_frame--> message, or ChannelData --code_of, mapped_address_of, place_of ..--> hints
//! ```
//!
//! A client passes over an unsigned error response, as a 401 to a wrong password, and its events carry no code. A caller
//! that wants to name the reason reads the packet here, beside passing it to the client.
//!
//! Begin with [`first_frame`].
//!
//! ```rust
//! if let FirstFrame::Message(message) = first_frame(TransportType::Udp, packet) {
//!     if code_of(&message) == Some(ErrorCode::UNAUTHORIZED) {
//!         warn_of_the_password();
//!     }
//! }
//! ```
#![tactic(auto)]

mod address;
mod frame;
mod place;
mod response;

pub use address::{AlternateServer, XorMappedAddress};
pub use frame::{FirstFrame, first_frame};
pub use place::{len_of, place_of, reason_place_of};
pub use response::{alternate_server_of, code_of, mapped_address_of};

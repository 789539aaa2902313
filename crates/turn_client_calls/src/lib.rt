//! The calls of a client, their replies, and the settings of a new one, all as values.
//!
//! [`reply_to`] makes a [`Call`] on any client and returns its [`Reply`]. [`plain_reply_to`] does so for the calls whose
//! reply has neither bytes nor a list, and [`received`] and [`drained`] say the reply of a method that the caller has
//! called itself. [`Refusal`] is the error of a call, for all calls, and [`settings`] has what a new client is to request.
//!
//! ```rust
//! let reply = reply_to(alloc, &mut client, &Call::Poll { now })?;
//! ```
#![tactic(auto)]

mod addresses;
mod asks;
mod call;
mod carries;
mod plain;
mod reads;
mod refusal;
mod reply;
pub mod settings;

pub use addresses::{PermittedAddresses, RelayedAddresses};
pub use call::reply_to;
pub use carries::{drained, received};
pub use plain::plain_reply_to;
pub use refusal::Refusal;
pub use reply::{PeerData, Reply};
pub use turn_client_api::Call;

//! The grants of a TURN client: allocations, permissions, channels and data connections (RFC 8656 and RFC
//! 6062), what its requests were made for, and the events that result from them. No IO.
//!
//! ```text
//!  ask --> pending --granted--> active --expiry--> removed; a channel is reserved for a while first
//!             |                    |
//!             +--refused, timeout--+--refused--> removed (a channel that was active: reserved), and an event reports it
//! ```
//!
//! Begin with [`GrantLedger`], by which all changes are made. Reads are made on its [`GrantTable`];
//! [`Purposes`] are what one request was made for.
//!
//! ```rust
//! ledger.reserve(1, 2, 0, 0)?;
//! ledger.ask(id, &[Grant::Permission(ip, Progress::Pending(true))], &Purposes::one(Purpose::ForPermission(ip)));
//! // when the server has answered
//! ledger.permission_answered(ip, true, now);
//! ```
//!
//! How requests are written and when they are sent is left to the crates above.
#![tactic(auto)]

mod allocation_events;
mod chains;
mod changes;
mod due;
mod grant_filter;
mod index;
mod key;
mod kind;
mod ledger;
mod listed;
mod listings;
mod offers;
mod past_expiry;
mod purposes;
mod reads;
mod refresh;
mod room;
mod same;
mod summary;
mod table;
mod time;
mod totals;

pub use allocation_events::has_address;
pub use grant_filter::GrantFilter;
pub use kind::{family_of, family_of_ip, is_of_family};
pub use ledger::GrantLedger;
pub use purposes::Purposes;
pub use reads::connection_count;
pub use table::GrantTable;

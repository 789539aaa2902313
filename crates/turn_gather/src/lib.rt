//! A TURN client as an ICE agent uses it, over any client: the relayed addresses are its candidates, and
//! only data from the peers of checked pairs is passed up. No IO.
//!
//! ```text
//!  packets --recv--> Gatherer --recv--> client --payload of a peer--> is its pair checked? --yes--> the agent
//!                                                                                        --no---> dropped
//! ```
//!
//! Begin with [`Gatherer`].
//!
//! ```rust
//! let mut gatherer = Gatherer::new(alloc, client);
//! let candidates = gatherer.candidates(alloc)?;
//! gatherer.check(TransportType::Udp, peer)?;
//! match gatherer.recv(packet, now)? {
//!     GatherRecv::Payload(given) => deliver(given.peer, given.data()),
//!     GatherRecv::Ignored(packet) => not_for_turn(packet),
//!     GatherRecv::Handled | GatherRecv::Dropped => {}
//! }
//! ```
//!
//! It uses the trait [`TurnClientApi`](turn_client_api::TurnClientApi) alone, so its guarantees hold for
//! every client that keeps the trait's contracts.
#![tactic(auto)]

mod calls;
mod error;
mod gatherer;
mod receive;

pub use calls::{Driven, GatherCall, GatherReply, drive};
pub use error::GatherError;
pub use gatherer::Gatherer;
pub use receive::GatherRecv;

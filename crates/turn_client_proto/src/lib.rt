//! TURN clients without IO: the caller passes in bytes, times and a seed, and gets packets, events and
//! the next time to call `poll`.
//!
//! ```text
//!           sockets, clock                 this crate
//!  network <-------------> the caller <-----------------> TurnClientUdp, TurnClientTcp
//!                                      calls and answers
//! ```
//!
//! Begin with [`udp::TurnClientUdp`] or [`tcp::TurnClientTcp`], and with [`api::TurnClientApi`] for the
//! calls of a client and a caller's loop. [`client::TurnClient`] is either of the two clients.
//!
//! ```rust
//! let config = TurnConfig::new(alloc, TurnCredentials::new(alloc, b"user", b"pass")?);
//! let mut client = TurnClientUdp::allocate(alloc, local, server, config, seed)?;
//! while let Some(packet) = client.poll_transmit(now)? {
//!     send(packet);
//! }
//! // once poll_event has reported a relayed address
//! client.create_permission(TransportType::Udp, peer.ip(), now)?;
//! // and once it has reported the permission
//! if let Some(packet) = client.send_to(TransportType::Udp, peer, data, now)? {
//!     send(packet.build(alloc)?);
//! }
//! ```
//!
//! [`reply_to`] makes one call, given as a value, on any client, and [`replay`] a list of calls on a
//! new one.
#![tactic(auto)]

pub mod api;
pub mod client;
mod over;
pub mod prelude;
pub mod runs;
pub mod stun;
pub mod tcp;
pub mod types;
pub mod udp;

pub use over::TurnClientOver;
pub use runs::{Call, Replayed, Reply, replay, reply_to};
pub use turn_client_api::{PermissionAddressesIter, RelayedAddressesIter};
pub use turn_client_tcp::Carrier;

//! A TURN client, independent of its transport (RFC 8656, 6062 and 6156). No IO.
//!
//! ```text
//!  a client over UDP, or turn_client_tcp
//!    | datagram, message    ^ packets, events, wake-up times
//!    v                      |
//!  TurnClientProtocol ------+
//!    | its signature, the request it answers:  turn_auth, turn_agent
//!    | what is active and what is pending:     turn_client_grants
//!    | the bytes of requests:                  turn_client_requests
//! ```
//!
//! Begin with [`TurnClientProtocol`]: its methods are the calls of a client, and each takes one step of
//! the machine in `docs/rattle/MACHINE.md`.
//!
//! ```rust
//! match client.datagram(bytes, now)? {
//!     TurnProtocolRecv::PeerData(transport, peer, place) => deliver(transport, peer, place),
//!     TurnProtocolRecv::PeerIcmp(_, peer, _) => unreachable_peer(peer),
//!     TurnProtocolRecv::Handled | TurnProtocolRecv::Ignored => {}
//! }
//! ```
//!
//! The clients built on this crate add the transport.
#![tactic(auto)]

mod allocated;
mod answered_purposes;
mod effect;
mod indication;
mod outbox;
mod protocol;
mod protocol_recv;
mod reply;

pub use protocol::TurnClientProtocol;
pub use protocol_recv::TurnProtocolRecv;

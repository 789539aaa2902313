//! The streams of a TURN client over TCP, above its control machine (RFC 8656, sections 3.1 and 12.5; RFC
//! 6062). No IO.
//!
//! ```text
//!  a client over TCP
//!    | piece of a stream    ^ payloads, packets, events, wake-up times
//!    v                      |
//!  TurnClientTcpProtocol ---+
//!    | a whole message, a call, the time:      turn_client_core
//!    | the buffered bytes of streams:          turn_client_streams
//! ```
//!
//! Begin with [`Carrier`], which says what differs between a client over UDP and one over TCP, and with
//! [`TurnClientTcpProtocol`], which is the latter: a piece of a stream is cut into frames here. A message goes to the
//! control machine, which has no streams; a ChannelData message is data of its channel's peer, and so are all
//! bytes of a connection that is bound.
//!
//! ```rust
//! match client.receive(transmit, now)? {
//!     TurnRecvRet::PeerData(given) => deliver(given),
//!     TurnRecvRet::PeerIcmp { peer, .. } => unreachable_peer(peer),
//!     TurnRecvRet::Handled | TurnRecvRet::Ignored(_) => {}
//! }
//! while let Some(given) = client.next_payload(now)? {
//!     deliver(given);
//! }
//! ```
#![tactic(auto)]

mod carrier;
mod protocol;
mod received;

pub use carrier::{Carrier, is_from_server};
pub use protocol::TurnClientTcpProtocol;

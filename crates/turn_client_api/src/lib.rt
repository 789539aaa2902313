//! The interface of every TURN client (RFC 8656, 6062 and 6156), with the types that it takes and
//! returns. No IO.
//!
//! ```text
//!  received bytes ----- recv ----> +--------+ ---- poll_transmit ---> packets to send
//!  data for a peer --- send_to --> | client | -- recv, poll_recv ---> data of a peer
//!  the time ----------- poll ----> +--------+ ---- poll_event ------> results of requests
//!                                      +---------- poll ------------> the time to call again
//! ```
//!
//! Begin with [`TurnClientApi`], the trait of all clients: its contracts say of each call what it
//! returns and the state of the client after it, step by step of the machine that `docs/rattle/MACHINE.md`
//! describes. A caller's loop over any of them:
//!
//! ```rust
//! let next = client.poll(now)?;
//! while let Some(event) = client.poll_event() {
//!     report(event);
//! }
//! while let Some(packet) = client.poll_transmit(now)? {
//!     send(packet);
//! }
//! match next {
//!     TurnPollRet::WaitUntil(time) => wake_at(time),
//!     TurnPollRet::AllocateTcpSocket { id, socket, peer_addr } => open(id, socket, peer_addr),
//!     TurnPollRet::TcpClose { local_addr, .. } => close(local_addr),
//!     TurnPollRet::Closed => end(),
//! }
//! ```
//!
//! and for each packet received:
//!
//! ```rust
//! match client.recv(packet, now)? {
//!     TurnRecvRet::PeerData(given) => deliver(given.peer, given.data()),
//!     TurnRecvRet::PeerIcmp { peer, .. } => unreachable_peer(peer),
//!     TurnRecvRet::Ignored(packet) => not_for_turn(packet),
//!     TurnRecvRet::Handled => {}
//! }
//! while let Some(given) = client.poll_recv(now)? {
//!     deliver(given.peer, given.data());
//! }
//! ```
//!
//! A caller makes a [`TurnConfig`] for a client. Data of a peer is a range of the caller's own
//! bytes ([`TurnPeerData`]), and a packet for a peer is built when it is sent ([`TransmitBuild`]).
//!
//! What holds for every client that meets the trait, for example that a caller that sleeps until the
//! time that `poll` returns misses no deadline, is in the crate `turn_client_laws`. The clients themselves
//! are in the crates above.
#![tactic(auto)]

mod addresses;
mod call;
mod client;
mod closed;
mod config;
mod error;
mod event;
mod grant;
mod poll;
mod receive;
mod request;
mod send;
mod state;

pub use addresses::{PermissionAddressesIter, RelayedAddressesIter};
pub use call::Call;
pub use client::TurnClientApi;
pub use config::TurnConfig;
pub use error::{
    BindChannelError, CreatePermissionError, DeleteError, KeepError, SendError, TcpAllocateError,
    TcpConnectError,
};
pub use event::TurnEvent;
pub use grant::{
    DataConnection, DataOffer, Grant, Lease, Listing, Origin, Progress, Purpose, Relay,
};
pub use poll::{Socket5Tuple, TurnPollRet};
pub use receive::{DataRange, DataRangeOrOwned, TurnPeerData, TurnRecvRet};
pub use request::RequestView;
pub use send::{DelayedMessageOrChannelSend, DelayedTransmit};
pub use state::{Mode, Phase, Queued, Stream};
pub use turn_agent::schedule::RequestTimers;
pub use turn_stun::data::Data;
pub use turn_stun::transport::Transmit;
pub use turn_types::transmit::TransmitBuild;

//! Messages of the server, from a datagram to what it changes: datagram or frame, message, judgement, then a response, data of a peer, or a connection attempt.

mod allocate_success;
pub(crate) mod challenge;
mod connection_attempt;
mod connection_bind;
mod datagram;
mod fatal;
pub(crate) mod judge;
mod judge_bind;
mod message;
mod peer_data;
mod response;
mod unread;

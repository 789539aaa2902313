//! What becomes of data for a peer.

use std::convert::AsSlice;
use turn_client_api::{DelayedMessageOrChannelSend, SendError, TransmitBuild};
use turn_session_book::answers::Answer;

/// What becomes of data for a peer.
#[derive(Debug, Drop)]
pub enum Sent<T: AsSlice<u8>> {
    /// This packet carries it.
    Packet(TransmitBuild<DelayedMessageOrChannelSend<T>>),
    /// It is not sent, since the peer is not permitted. Its permission is requested, or not, as this answer says: once that is
    /// granted, the caller may send the data again.
    Requested(Answer),
}

/// Why data is not sent.
#[derive(Clone, Copy, Debug, PartialEq, Eq)]
pub enum SendRefusal {
    /// The message to the server would have more than 65,507 bytes with its header.
    TooLong,
    /// The client refuses it.
    Refused(SendError),
}

//! How a request of the caller is answered.

use std::convert::AsSlice;
use turn_client_api::{DelayedMessageOrChannelSend, TransmitBuild};
use turn_relay_tries::causes::Cause;
use turn_session_book::replies::ErrorReply;
use turn_stun::instant::Instant;

/// What a relay answers to a request of the caller.
#[derive(Clone, Copy, Debug, PartialEq, Eq)]
pub enum RelayAnswer {
    /// The server has granted it already. Nothing is sent.
    Granted,
    /// It is requested, now or when the relay is up. An event reports its outcome under this ticket, which is also that of an
    /// earlier request of the same key that has none.
    Ticket(u32),
    /// The server refused it a while ago, by this error or without a response, and it is not requested again before this time.
    Resting(Instant, Option<ErrorReply>),
    /// The relay is over.
    Over(Cause),
}

/// What becomes of data for a peer.
#[derive(Debug, Drop)]
pub enum RelaySent<T: AsSlice<u8>> {
    /// This packet carries it, over the socket with this number.
    Packet(u64, TransmitBuild<DelayedMessageOrChannelSend<T>>),
    /// It is not sent, since the peer is not permitted. Its permission is requested, or not, as this answer says: once that is
    /// granted, the caller may send the data again.
    Requested(RelayAnswer),
    /// It is not sent, since the relay is not up.
    NotUp,
}

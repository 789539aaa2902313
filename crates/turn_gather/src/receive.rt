//! How a gatherer processed its input.

use std::convert::AsSlice;
use turn_client_api::TurnPeerData;
use turn_stun::transport::Transmit;

/// How a gatherer processed its input.
#[derive(Debug, Drop)]
pub enum GatherRecv<T: AsSlice<u8>> {
    /// It was for the client, and is consumed.
    Handled,
    /// It was not for the client, or over TCP its first frame was not (see `TurnRecvRet`), and is
    /// returned unchanged.
    Ignored(Transmit<T>),
    /// Data from the peer of a checked pair.
    Payload(TurnPeerData<T>),
    /// It came from a peer whose pair is not checked, or reports an ICMP packet (RFC 8656, section 11.6).
    /// It is consumed.
    Dropped,
}

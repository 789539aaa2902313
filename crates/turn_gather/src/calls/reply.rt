//! The answer of a call of a gatherer, as a value.

use crate::error::GatherError;
use turn_client_api::{CreatePermissionError, SendError, TurnEvent, TurnPollRet};
use turn_client_calls::{PeerData, RelayedAddresses};
use turn_stun::data::Data;
use turn_stun::transport::Transmit;

/// The answer of a [`GatherCall`](crate::GatherCall).
#[derive(Debug, Drop)]
pub enum GatherReply {
    /// `candidates` returned these addresses.
    Candidates(RelayedAddresses),
    /// `is_checked` returned whether the pair is checked.
    IsChecked(bool),
    /// `check` accepted the pair, or returned an error.
    Check(Result<(), GatherError>),
    /// `recv`: the packet was for the client.
    Handled,
    /// `recv`: the packet, over TCP its first frame, was not for the client.
    Ignored,
    /// `recv` or `poll_recv` passed up data from the peer of a checked pair.
    Payload(PeerData),
    /// `recv` or `poll_recv` dropped data from a peer whose pair is not checked, or `recv` dropped an
    /// ICMP report.
    Dropped,
    /// `poll_recv` had no data of a peer.
    NoPayload,
    /// `create_permission` requested the permission, or returned an error.
    CreatePermission(Result<(), CreatePermissionError>),
    /// `send_to` returned this packet, already built, or an error.
    SendTo(Result<Transmit<Data>, SendError>),
    /// `poll` returned this.
    Poll(TurnPollRet),
    /// `poll_transmit` returned this packet, or none.
    Transmit(Option<Transmit<Data>>),
    /// `poll_event` returned this event, or none.
    Event(Option<TurnEvent>),
}

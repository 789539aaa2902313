//! What the caller of a relay is to do next.

use crate::events::RelayEvent;
use turn_client_api::{Data, Transmit, TurnPollRet};
use turn_relay_tries::tasks::Task;
use turn_stun::instant::Instant;

/// What the caller of a relay is to do next.
#[derive(Debug, Drop)]
pub enum RelayDue {
    /// Do this task, and answer it by its number. A socket to be closed is not answered.
    Task(Task),
    /// Open or close a data connection of the session over the socket with this number, as the client says (RFC 6062, section 4.3).
    Connection(u64, TurnPollRet),
    /// Send this packet over the socket with this number.
    Packet(u64, Transmit<Data>),
    /// Look at this event.
    Event(RelayEvent),
    /// Nothing before this time, or with `None` nothing until the caller calls. If it is not in the future, ask again.
    Wait(Option<Instant>),
    /// Nothing: the relay is over, and each of its events was returned.
    Over,
}

//! What the caller of a session is to do next.

use turn_client_api::{Data, Transmit, TurnPollRet};
use turn_session_book::events::Event;
use turn_stun::instant::Instant;

/// What the caller of a session is to do next.
#[derive(Debug, Drop)]
pub enum Due {
    /// Open or close a data connection, as the client says (RFC 6062, section 4.3).
    Connection(TurnPollRet),
    /// Send this packet.
    Packet(Transmit<Data>),
    /// Look at this event.
    Event(Event),
    /// Nothing before this time. If it is not in the future, ask again.
    Wait(Instant),
    /// Nothing: the session has ended, and each of its events was returned.
    Over,
}

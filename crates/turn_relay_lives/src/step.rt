//! What the sessions of a relay do next.

use crate::link::Link;
use turn_client_api::{Data, Transmit, TurnPollRet};
use turn_session_book::events::Event;
use turn_stun::instant::Instant;

/// What the sessions of a relay do next.
#[derive(Debug, Drop)]
pub enum LifeStep {
    /// This session has a data connection to open or close, as the client says (RFC 6062, section 4.3).
    Connection(Link, TurnPollRet),
    /// This session has a packet to send.
    Packet(Link, Transmit<Data>),
    /// This session has an event.
    Event(Link, Event),
    /// This session has nothing to do for now. Ask again for the others.
    Again,
    /// This session has ended, and is gone: its socket is to be closed.
    Closed(Link),
    /// No session has something to do before this time, or with `None` there is no session.
    Wait(Option<Instant>),
}

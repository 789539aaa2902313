//! What a relay reports.

use std::net::SocketAddr;
use turn_relay_tries::causes::Cause;
use turn_session_book::answers::Outcome;
use turn_session_book::events::Event;
use turn_session_book::keys::Key;
use turn_stun::instant::Instant;

/// Something that happened in a relay.
#[derive(Clone, Copy, Debug, PartialEq, Eq)]
pub enum RelayEvent {
    /// The session that is used reports this: that it was heard, a further address, a family without one, what was refreshed or has
    /// expired, the result of a check, or a move.
    Session(Event),
    /// The relay is up, and what it had before was requested again.
    Up(Addresses),
    /// The outcome of the request with this ticket and key.
    Outcome(u32, Key, Outcome),
    /// The request with this ticket and key has no outcome, since the relay is over. `Over` has the cause.
    Unanswered(u32, Key),
    /// A grant that was kept has ended: what became of the request to renew it. It is requested again unless the server refused to
    /// grant it to the session that is used.
    Lost(Key, Outcome),
    /// The server named this one to be used instead (RFC 8489, section 10), which is asked now.
    Redirected(SocketAddr),
    /// The relay, which was up, is down for this cause.
    Down(Cause),
    /// A try has failed for this cause. The next one begins at this time.
    Trying(Cause, Instant),
    /// The relay is over for this cause. No event follows.
    Over(Cause),
}

/// The addresses of a relay that is up.
#[derive(Clone, Copy, Debug, PartialEq, Eq)]
pub struct Addresses {
    /// The relayed address.
    pub relayed: SocketAddr,
    /// This client's address as the server sees it, if the server says it.
    pub mapped: Option<SocketAddr>,
    /// The relayed address when the relay was last up, before that.
    pub before: Option<SocketAddr>,
}

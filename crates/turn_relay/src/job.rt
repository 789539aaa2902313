//! What an event leads to that may want memory.

use turn_relay_lives::link::Link;
use turn_session_book::causes::Why;
use turn_session_book::keys::Key;

/// What an event of the session that is used leads to. It may want memory, and is done before anything else.
#[derive(Clone, Copy, Debug, PartialEq, Eq)]
pub(crate) enum Job {
    /// The session ends for this cause.
    End(Link, Why),
    /// It has lost this key, which is requested again.
    WantAgain(Key),
}

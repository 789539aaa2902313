//! A socket to a server, and what its session is for.

use turn_relay_tries::tasks::Attempt;

/// A socket to a server, and what its session is for.
#[derive(Clone, Copy, Debug, PartialEq, Eq)]
pub struct Link {
    /// The number of the socket: that of the task by which the caller opened it.
    pub socket: u64,
    /// The attempt that it was opened for.
    pub attempt: Attempt,
    /// What its session is for.
    pub role: Role,
}

/// What a session of a relay is for.
#[derive(Clone, Copy, Debug, PartialEq, Eq)]
pub enum Role {
    /// It requests an address, and its server has not responded yet. Others may try at the same time.
    Trying,
    /// The relay uses it: its server responded first.
    InUse,
    /// It leaves, and then its socket is closed.
    Leaving,
}

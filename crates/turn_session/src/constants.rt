//! The times of a session, in nanoseconds, and the length of its messages.

/// A session that leaves has ended after so long, unless the caller sets another time: three transmissions of the REFRESH that
/// deletes its allocation.
pub const LEAVE_WAIT: u64 = 2_000_000_000;

/// How often the path is checked over a stream, unless the caller sets another time: not every system reports a stream whose
/// server is silent.
pub const STREAM_PROBE: u64 = 15_000_000_000;

/// So many bytes a message to the server has at most with its header: a datagram over IPv4 carries no more (RFC 768), and common
/// servers read no longer message from a stream.
pub const MAX_MESSAGE: usize = 65_507;

/// So many bytes of data are in such a message at most: that of a channel has 4 bytes before them (RFC 8656, section 12.4).
pub const MAX_DATA: usize = MAX_MESSAGE - 4;

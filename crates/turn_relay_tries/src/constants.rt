//! The times and limits of a relay that comes back. Times are in nanoseconds.

/// How long lies between the beginnings of the attempts with two addresses of one server (RFC 8305, section 5).
pub const STAGGER: u64 = 250_000_000;

/// How long the first try lasts. It is below the longest wait between two tries, so that one in an outage is soon over.
pub const FIRST_TRY: u64 = 3_900_000_000;

/// How long a try lasts at most: over a path of several seconds, too, the server has answered by then.
pub const LAST_TRY: u64 = 31_200_000_000;

/// The least time between the end of a try and the next one.
pub const REST: u64 = 200_000_000;

/// A relay that was up for so long is tried again at once, and waits and tries begin anew. One that broke sooner is one more
/// failure: a server may grant addresses that last for no time.
pub const HELD: u64 = 60_000_000_000;

/// So many tries in a row that fail by a final error, or by wrong credentials, are the last. Nobody has to have signed the one packet
/// that says so.
pub const MAX_REFUSED: u8 = 2;

/// So many tries in a row that the server refuses for a quota are the last.
pub const MAX_QUOTA: u8 = 3;

/// The code by which a server names another one to be used instead (RFC 8489, section 14.8).
pub const TRY_ALTERNATE: u16 = 300;

/// The code by which a server refuses the transport between itself and the peers (RFC 8656, section 19).
pub const UNSUPPORTED_TRANSPORT_PROTOCOL: u16 = 442;

//! The times of a relay, in nanoseconds.

/// An answer that a server gives, too, that has forgotten the allocation counts after so long: its session has ended by then if the
/// server has, after three questions of 3 s each.
pub const DOUBT: u64 = 10_000_000_000;

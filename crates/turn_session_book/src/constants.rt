//! The times and limits of what a session notes. Times are in nanoseconds.

/// For how long a key rests after the server refused it for the first time.
pub const FIRST_REST: u64 = 5_000_000_000;

/// For how long it rests at most.
pub const LAST_REST: u64 = 80_000_000_000;

/// So many refused keys are remembered.
pub const MAX_RESTS: usize = 4_096;

//! The times of a plan, in nanoseconds.

/// The caller has so long to get user name and password for a try, and for each task of a try that has no end of its own. After that
/// another server is tried.
pub const TASK_WAIT: u64 = 30_000_000_000;

//! Why an answer to a task is refused.

/// Why an answer to a task is refused. Nothing has changed.
#[derive(Clone, Copy, Debug, PartialEq, Eq)]
pub enum TaskError {
    /// There is no task of this number and kind: it was answered before, is late, belongs to a try that has ended, or was never given.
    NoTask,
    /// The server's name has no address. Report the task as failed.
    NoAddress,
    /// A memory allocation failed. Answer again later.
    OutOfMemory,
}

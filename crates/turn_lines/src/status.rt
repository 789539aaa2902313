//! How a run of the program ended.

ghost use Rattle.std.specs.Prelude.{◌≡◌};
ghost use Rattle.turn_lines.specs.Status.{exit_code_of};

/// How a run of the program ended, and what it has printed.
#[derive(Clone, Copy, Debug, PartialEq, Eq)]
pub enum Status {
    /// The answers to the calls of the trace.
    Answered,
    /// Which line of the trace is bad.
    Malformed,
    /// That memory allocation failed.
    OutOfMemory,
    /// That the trace could not be read.
    ReadFailed,
    /// Not everything: writing failed.
    WriteFailed,
}

impl Status {
    /// The exit status: 0 with answers, 2 for a bad line, 3 if memory allocation failed, 4 if reading or
    /// writing failed.
    pub fn code(self) -> u8
        ensures { result ≡ exit_code_of self }
    {
        match self {
            Status::Answered => 0,
            Status::Malformed => 2,
            Status::OutOfMemory => 3,
            Status::ReadFailed | Status::WriteFailed => 4,
        }
    }
}

//! Why a session ends before its input does.

use std::alloc::{AllocError, AllocFailed};
use turn_lines::fault::BadLine;
use turn_lines::write::WriteError;

/// Why a session ends before its input does.
#[derive(Clone, Copy, Debug, PartialEq, Eq)]
pub enum Stop {
    /// The first line does not describe a client.
    Bad(BadLine),
    /// Memory allocation failed, for a line, for the client or for an answer.
    OutOfMemory,
    /// The reader failed.
    ReadFailed,
    /// The writer failed.
    WriteFailed,
}

impl From<AllocError> for Stop {
    ghost use Rattle.std.specs.Prelude.{◌≡◌};
    ghost use Rattle.turn_live.specs.declared.stop.Stop.TheVariants.{OutOfMemory};

    ghost from_gives = { λ _ error. error ≡ OutOfMemory };

    fn from(_error: AllocError) -> Stop {
        Stop::OutOfMemory
    }
}

impl<T: Drop> From<AllocFailed<T>> for Stop {
    ghost use Rattle.std.specs.Prelude.{◌≡◌};
    ghost use Rattle.turn_live.specs.declared.stop.Stop.TheVariants.{OutOfMemory};

    ghost from_gives = { λ _ error. error ≡ OutOfMemory };

    fn from(_error: AllocFailed<T>) -> Stop {
        Stop::OutOfMemory
    }
}

impl From<WriteError> for Stop {
    ghost use Rattle.std.specs.Prelude.{◌≡◌};
    ghost use Rattle.turn_live.specs.declared.stop.Stop.TheVariants.{WriteFailed};

    ghost from_gives = { λ _ error. error ≡ WriteFailed };

    fn from(_error: WriteError) -> Stop {
        Stop::WriteFailed
    }
}

//! Why a request is not answered.

use crate::code::{BAD_CALL, BAD_PAYLOAD, BAD_TIME, OUT_OF_MEMORY, SMALL_BUFFER, UNREAD_BYTES};
use std::alloc::AllocError;

/// Why a request is not answered: the first of these that holds.
#[derive(Clone, Copy, Debug, PartialEq, Eq)]
pub enum Fault {
    /// Its time is over 2^62 nanoseconds.
    Time,
    /// There is no such kind, it lacks a transport or an address, or a reserved place is not 0.
    Call,
    /// It sends over 65,504 bytes to an allocation over UDP.
    Payload,
    /// Bytes of an earlier answer are to be read first.
    Unread,
    /// The buffer is too small for the packet of a `send_to`.
    Buffer,
    /// A memory allocation of its call failed.
    OutOfMemory,
}

impl Fault {
    ghost use Rattle.std.specs.Prelude.{◌≡◌};
    ghost use Rattle.turn_c_calls.specs.Judge.{fault_code};

    /// The number of the fault.
    pub fn code(self) -> u32
        ensures { result ≡ fault_code self }
    {
        match self {
            Fault::Time => BAD_TIME,
            Fault::Call => BAD_CALL,
            Fault::Payload => BAD_PAYLOAD,
            Fault::Unread => UNREAD_BYTES,
            Fault::Buffer => SMALL_BUFFER,
            Fault::OutOfMemory => OUT_OF_MEMORY,
        }
    }
}

impl From<AllocError> for Fault {
    ghost use Rattle.std.specs.Prelude.{◌≡◌};
    ghost use Rattle.turn_c_calls.specs.declared.fault.Fault.TheVariants.{OutOfMemory};

    ghost from_gives = { λ error fault. fault ≡ OutOfMemory };

    fn from(_: AllocError) -> Fault {
        Fault::OutOfMemory
    }
}

//! Why a run stops.

use std::alloc::{AllocError, AllocFailed};
use turn_auth::credentials::CredentialsError;
use turn_stun::error::WriteError;

/// Why a run stops before its end.
#[derive(Clone, Copy)]
pub enum Fault {
    /// The client did what it may not do.
    Wrong(&'static str),
    /// Memory allocation failed, or a message was too long for one.
    OutOfMemory,
}

/// Stops a run in which this does not hold.
///
/// # Errors
///
/// `Wrong` with this text if it does not hold.
pub fn expect(holds: bool, wrong: &'static str) -> Result<(), Fault> {
    if holds {
        Ok(())
    } else {
        Err(Fault::Wrong(wrong))
    }
}

impl From<AllocError> for Fault {
    fn from(_error: AllocError) -> Fault {
        Fault::OutOfMemory
    }
}

impl<T: Drop> From<AllocFailed<T>> for Fault {
    fn from(_error: AllocFailed<T>) -> Fault {
        Fault::OutOfMemory
    }
}

impl From<WriteError> for Fault {
    fn from(_error: WriteError) -> Fault {
        Fault::OutOfMemory
    }
}

impl From<CredentialsError> for Fault {
    fn from(_error: CredentialsError) -> Fault {
        Fault::OutOfMemory
    }
}

//! Why a pair cannot be checked.

use std::alloc::AllocError;
use thiserror::Error;

/// Why a pair cannot be checked. On an error nothing changes.
#[derive(Clone, Copy, Debug, PartialEq, Eq, Error)]
pub enum GatherError {
    /// There are 1,024 pairs already, and this is not one of them.
    #[error("There are too many checked pairs.")]
    Full,
    /// Memory allocation for the pair failed.
    #[error("out of memory")]
    OutOfMemory,
}

impl From<AllocError> for GatherError {
    ghost use Rattle.std.specs.Prelude.{◌≡◌};
    ghost use Rattle.turn_gather.specs.declared.error.GatherError.TheVariants.{OutOfMemory};

    ghost from_gives = { λ _ error. error ≡ OutOfMemory };

    fn from(_error: AllocError) -> GatherError {
        GatherError::OutOfMemory
    }
}

//! Why removals are not read.
ghost use Rattle.std.specs.Prelude.{◌≡◌};
ghost use Rattle.ix_removals.specs.declared.removals_error.RemovalsError.TheVariants.{Memory};

use std::alloc::{AllocError, AllocFailed};
use thiserror::Error;

/// Why removals could not be read.
#[derive(Clone, Copy, Debug, PartialEq, Eq, Error)]
pub enum RemovalsError {
    /// The first line that is not as it should be behind those before it, by its number from 1.
    #[error("Line({0})")]
    Line(u64),
    /// Out of memory.
    #[error("Memory")]
    Memory,
}

impl From<AllocError> for RemovalsError {
    ghost from_gives = { λ _ error. error ≡ Memory };

    fn from(_error: AllocError) -> RemovalsError {
        RemovalsError::Memory
    }
}

impl<T: Drop> From<AllocFailed<T>> for RemovalsError {
    ghost from_gives = { λ _ error. error ≡ Memory };

    fn from(_error: AllocFailed<T>) -> RemovalsError {
        RemovalsError::Memory
    }
}

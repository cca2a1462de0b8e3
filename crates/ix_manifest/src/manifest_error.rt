//! Why a manifest is not read.
ghost use Rattle.std.specs.Prelude.{◌≡◌};
ghost use Rattle.ix_manifest.specs.declared.manifest_error.ManifestError.TheVariants.{Memory};

use std::alloc::{AllocError, AllocFailed};
use thiserror::Error;

/// Why a manifest could not be read.
#[derive(Clone, Copy, Debug, PartialEq, Eq, Error)]
pub enum ManifestError {
    /// A line that is not as a manifest has it, by its number from 1.
    #[error("Line({0})")]
    Line(u64),
    /// Out of memory.
    #[error("Memory")]
    Memory,
}

impl From<AllocError> for ManifestError {
    ghost from_gives = { λ _ error. error ≡ Memory };

    fn from(_error: AllocError) -> ManifestError {
        ManifestError::Memory
    }
}

impl<T: Drop> From<AllocFailed<T>> for ManifestError {
    ghost from_gives = { λ _ error. error ≡ Memory };

    fn from(_error: AllocFailed<T>) -> ManifestError {
        ManifestError::Memory
    }
}

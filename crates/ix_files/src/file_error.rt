//! Why a call of files failed.

use std::alloc::AllocError;
use thiserror::Error;

/// Why a call of files failed.
#[derive(Clone, Copy, Debug, PartialEq, Eq, Error)]
pub enum FileError {
    /// Out of memory.
    #[error("Memory")]
    Memory,
    /// The system failed.
    #[error("Failed")]
    Failed,
    /// There is a file of that name.
    #[error("Exists")]
    Exists,
    /// Another program has locked it.
    #[error("Locked")]
    Locked,
}

impl From<AllocError> for FileError {
    ghost use Rattle.std.specs.Prelude.{◌≡◌};
    ghost use Rattle.ix_files.specs.declared.file_error.FileError.TheVariants.{Memory};

    ghost from_gives = { λ _ error. error ≡ Memory };

    fn from(_error: AllocError) -> FileError {
        FileError::Memory
    }
}

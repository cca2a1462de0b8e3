//! Why a manifest did not take the place of the one before.
ghost use Rattle.std.specs.Prelude.{◌≡◌};

use ix_files::FileError;
use std::alloc::AllocError;
use thiserror::Error;

/// Why a manifest did not take the place of the one before.
#[derive(Clone, Copy, Debug, PartialEq, Eq, Error)]
pub enum PublishError {
    /// Out of memory. The manifest before is in its place.
    #[error("Memory")]
    Memory,
    /// The new manifest or the names of its files did not come to the disk. The manifest before is in its place.
    #[error("Write")]
    Write,
    /// The new manifest may be in its place, or the one before.
    #[error("NotKept")]
    NotKept,
}

impl PublishError {
    ghost use Rattle.ix_folder.specs.PublishErrors.{publish_error_number};

    /// The error's number, from 1.
    pub fn number(&self) -> u8
        ensures { result ≡ publish_error_number self.now }
    {
        match self {
            PublishError::Memory => 1,
            PublishError::Write => 2,
            PublishError::NotKept => 3,
        }
    }
}

impl From<AllocError> for PublishError {
    ghost use Rattle.ix_folder.specs.declared.publish_error.PublishError.TheVariants.{Memory};

    ghost from_gives = { λ _ error. error ≡ Memory };

    fn from(_error: AllocError) -> PublishError {
        PublishError::Memory
    }
}

impl From<FileError> for PublishError {
    ghost use Rattle.ix_folder.specs.PublishErrors.{told_of_files};

    ghost from_gives = { λ error told. told ≡ told_of_files error };

    fn from(error: FileError) -> PublishError {
        match error {
            FileError::Memory => PublishError::Memory,
            FileError::Failed | FileError::Exists | FileError::Locked => PublishError::Write,
        }
    }
}

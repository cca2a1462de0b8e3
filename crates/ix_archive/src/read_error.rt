//! Why a call that reads an archive failed.
ghost use Rattle.std.specs.Prelude.{◌≡◌};
ghost use Rattle.ix_archive.specs.declared.read_error.ReadError.TheVariants.{Archive, Memory, Query};
ghost use Rattle.ix_archive.specs.ReadErrors.{error_of_file};

use crate::ArchiveError;
use ix_files::FileError;
use ix_query::QueryError;
use std::alloc::{AllocError, AllocFailed};

/// Why a call that reads an archive failed.
#[derive(Clone, Copy, Debug, PartialEq, Eq)]
pub enum ReadError {
    /// Out of memory.
    Memory,
    /// The system did not let the folder or a file be read.
    Read,
    /// The archive is not as it must be.
    Archive(ArchiveError),
    /// The text is no query, or memory ran out in reading it.
    Query(QueryError),
}

impl From<AllocError> for ReadError {
    ghost from_gives = { λ _ error. error ≡ Memory };

    fn from(_error: AllocError) -> ReadError {
        ReadError::Memory
    }
}

impl<T: Drop> From<AllocFailed<T>> for ReadError {
    ghost from_gives = { λ _ error. error ≡ Memory };

    fn from(_error: AllocFailed<T>) -> ReadError {
        ReadError::Memory
    }
}

impl From<FileError> for ReadError {
    ghost from_gives = { λ given error. error ≡ error_of_file given };

    fn from(error: FileError) -> ReadError {
        match error {
            FileError::Memory => ReadError::Memory,
            FileError::Failed | FileError::Exists | FileError::Locked => ReadError::Read,
        }
    }
}

impl From<ArchiveError> for ReadError {
    ghost from_gives = { λ given error. error ≡ Archive given };

    fn from(error: ArchiveError) -> ReadError {
        ReadError::Archive(error)
    }
}

impl From<QueryError> for ReadError {
    ghost from_gives = { λ given error. error ≡ Query given };

    fn from(error: QueryError) -> ReadError {
        ReadError::Query(error)
    }
}

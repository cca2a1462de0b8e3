//! Why an archive is not changed.

ghost use Rattle.std.specs.Prelude.{◌≡◌};
ghost use Rattle.ix_archive_writer.specs.Errors.{error_of_publish, error_of_read, error_of_write};
ghost use Rattle.ix_archive_writer.specs.declared.change_error.ChangeError.TheVariants.{Archive, Memory};
ghost use Rattle.ix_archive.specs.declared.archive_error.ArchiveError.TheVariants.{NotKept};

use ix_archive::ArchiveError;
use ix_build::BuildError;
use ix_extract::ExtractError;
use ix_file::OpenError;
use ix_files::FileError;
use ix_folder::PublishError;
use std::alloc::{AllocError, AllocFailed};

/// Why an archive is not changed.
#[derive(Clone, Copy, Debug, PartialEq, Eq)]
pub enum ChangeError {
    /// Out of memory.
    Memory,
    /// A read of the system failed.
    Read,
    /// The system did not make the change. The archive is as it was.
    Write,
    /// The documents are not built.
    Build(BuildError),
    /// What is wrong with the archive, or why it was not changed.
    Archive(ArchiveError),
}

impl ChangeError {
    /// The error of a call that reads files.
    pub(crate) fn of_read(error: FileError) -> ChangeError
        ensures { result ≡ error_of_read error }
    {
        match error {
            FileError::Memory => ChangeError::Memory,
            _ => ChangeError::Read,
        }
    }

    /// The error if the system could not say whether a change is on the disk.
    pub(crate) fn not_kept() -> ChangeError
        ensures { result ≡ Archive NotKept }
    {
        ChangeError::Archive(ArchiveError::NotKept)
    }

    /// The error of a manifest that was not published.
    pub(crate) fn of_publish(error: PublishError) -> ChangeError
        ensures { result ≡ error_of_publish error }
    {
        match error {
            PublishError::Memory => ChangeError::Memory,
            PublishError::Write => ChangeError::Write,
            PublishError::NotKept => ChangeError::not_kept(),
        }
    }

    /// The error of a segment that was not opened.
    pub(crate) fn of_segment(file: u64, error: OpenError) -> ChangeError {
        match error {
            OpenError::Memory => ChangeError::Memory,
            _ => ChangeError::Archive(ArchiveError::Segment(file, error)),
        }
    }

    /// The error of a segment of which the documents were not read.
    pub(crate) fn of_documents(file: u64, error: ExtractError) -> ChangeError {
        match error {
            ExtractError::Memory => ChangeError::Memory,
            ExtractError::Index(error) => ChangeError::of_segment(file, error),
            ExtractError::Read | ExtractError::Query(_) => ChangeError::Read,
        }
    }
}

impl From<AllocError> for ChangeError {
    ghost from_gives = { λ _ error. error ≡ Memory };

    fn from(_error: AllocError) -> ChangeError {
        ChangeError::Memory
    }
}

impl<T: Drop> From<AllocFailed<T>> for ChangeError {
    ghost from_gives = { λ _ error. error ≡ Memory };

    fn from(_error: AllocFailed<T>) -> ChangeError {
        ChangeError::Memory
    }
}

impl From<FileError> for ChangeError {
    ghost from_gives = { λ given error. error ≡ error_of_write given };

    fn from(error: FileError) -> ChangeError {
        match error {
            FileError::Memory => ChangeError::Memory,
            _ => ChangeError::Write,
        }
    }
}

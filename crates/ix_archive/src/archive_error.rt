//! What is wrong with an archive, or why a call on one failed.

use ix_file::OpenError;
use std::{error, fmt};

/// What is wrong with an archive, or why a call on one failed. Files are named by their numbers.
#[derive(Clone, Copy, Debug, PartialEq, Eq)]
pub enum ArchiveError {
    /// Another program changes the archive.
    Locked,
    /// The folder has no manifest.
    NoManifest,
    /// A line of the manifest is not as it must be, by its number from 1.
    Manifest(u64),
    /// A segment is no index text.
    Segment(u64, OpenError),
    /// A file that the manifest names is missing.
    Missing(u64),
    /// The stop terms are not those of the archive.
    Stop,
    /// A file is not the one of which the manifest says how many bytes and documents it has, and their digest; or its
    /// stop terms are not those of the first segment.
    Differs(u64),
    /// Other programs have changed the archive in each of several attempts to read it.
    Changed,
    /// The system could not say whether the change is on the disk: the archive is as it was, or has the change.
    NotKept,
    /// There are no more numbers for files.
    TooLarge,
}

impl ArchiveError {
    ghost use Rattle.std.specs.Prelude.{◌≡◌};
    ghost use Rattle.ix_archive.specs.ArchiveErrors.{archive_error_number};

    /// The error's number in the list of these errors, from 1.
    pub fn number(&self) -> u8
        ensures { result ≡ archive_error_number self.now }
    {
        match self {
            ArchiveError::Locked => 1,
            ArchiveError::NoManifest => 2,
            ArchiveError::Manifest(_) => 3,
            ArchiveError::Segment(_, _) => 4,
            ArchiveError::Missing(_) => 5,
            ArchiveError::Stop => 6,
            ArchiveError::Differs(_) => 7,
            ArchiveError::Changed => 8,
            ArchiveError::NotKept => 9,
            ArchiveError::TooLarge => 10,
        }
    }
}

impl fmt::Display for ArchiveError {
    ghost use Rattle.std.specs.Prelude.{Some};
    ghost use Rattle.ix_archive.specs.ArchiveErrors.{archive_error_name};

    ghost output = { λ error. Some (archive_error_name error) };

    fn fmt<W: fmt::Write>(&self, f: &mut fmt::Formatter<W>) -> fmt::Result {
        match self {
            ArchiveError::Locked => f.write_str("Locked"),
            ArchiveError::NoManifest => f.write_str("NoManifest"),
            ArchiveError::Manifest(line) => write!(f, "Manifest({line})"),
            ArchiveError::Segment(file, error) => write!(f, "Segment({file}, {error})"),
            ArchiveError::Missing(file) => write!(f, "Missing({file})"),
            ArchiveError::Stop => f.write_str("Stop"),
            ArchiveError::Differs(file) => write!(f, "Differs({file})"),
            ArchiveError::Changed => f.write_str("Changed"),
            ArchiveError::NotKept => f.write_str("NotKept"),
            ArchiveError::TooLarge => f.write_str("TooLarge"),
        }
    }
}

impl error::Error for ArchiveError {}

//! Why sources are not merged.
ghost use Rattle.std.specs.Prelude.{◌≡◌};
ghost use Rattle.ix_merge.specs.MergeErrors.{merge_error_number};

use std::alloc::AllocError;
use std::{error, fmt};

/// Why sources are not merged. A source with n documents covers n numbers: its first one and those that follow.
#[derive(Debug, Drop, PartialEq, Eq)]
pub enum MergeError<E> {
    /// No source covers the document of this number, below the greatest number that one covers.
    Gap(u32),
    /// Two sources or more cover the document of this number.
    Overlap(u32),
    /// Two sources have different stop terms.
    StopDiffers,
    /// The source at this place of the list, from 0, returned this error.
    Source(usize, E),
    /// All sources together have more than 2^28 tokens.
    TooLarge,
    /// A write or the flush failed.
    Write,
    /// Out of memory.
    Memory,
}

impl<E> MergeError<E> {
    /// The error's number, from 1 in the order of the list.
    pub fn number(&self) -> u8
        ensures { result ≡ merge_error_number self.now }
    {
        match self {
            MergeError::Gap(_) => 1,
            MergeError::Overlap(_) => 2,
            MergeError::StopDiffers => 3,
            MergeError::Source(_, _) => 4,
            MergeError::TooLarge => 5,
            MergeError::Write => 6,
            MergeError::Memory => 7,
        }
    }
}

impl<E: fmt::Display> fmt::Display for MergeError<E> {
    ghost use Rattle.ix_merge.specs.MergeErrors.{merge_error_name};

    ghost output = { merge_error_name E.output };

    fn fmt<W: fmt::Write>(&self, f: &mut fmt::Formatter<W>) -> fmt::Result {
        match self {
            MergeError::Gap(document) => write!(f, "Gap({document})"),
            MergeError::Overlap(document) => write!(f, "Overlap({document})"),
            MergeError::StopDiffers => f.write_str("StopDiffers"),
            MergeError::Source(place, error) => write!(f, "Source({place}, {error})"),
            MergeError::TooLarge => f.write_str("TooLarge"),
            MergeError::Write => f.write_str("Write"),
            MergeError::Memory => f.write_str("Memory"),
        }
    }
}

impl<E: fmt::Debug + fmt::Display + Drop> error::Error for MergeError<E> {}

impl<E> From<AllocError> for MergeError<E> {
    ghost use Rattle.std.specs.Prelude.{◌≡◌};
    ghost use Rattle.ix_merge.specs.declared.merge_error.MergeError.TheVariants.{Memory};

    ghost from_gives = { λ _ e. e ≡ Memory };

    fn from(_error: AllocError) -> MergeError<E> {
        MergeError::Memory
    }
}

//! Why terms are not found in a dictionary.
ghost use Rattle.std.specs.Prelude.{◌≡◌};
ghost use Rattle.ix_lookup.specs.LookupErrors.{lookup_error_number, lookup_error_of};
ghost use Rattle.ix_lookup.specs.declared.lookup_error.LookupError.TheVariants.{Memory};

use ix_files::FileError;
use std::alloc::AllocError;
use thiserror::Error;

/// Why terms could not be found in a dictionary.
#[derive(Clone, Copy, Debug, PartialEq, Eq, Error)]
pub enum LookupError {
    /// Out of memory.
    #[error("Memory")]
    Memory,
    /// A read of the source failed.
    #[error("Read")]
    Read,
    /// The bytes are no dictionary of that many terms and bytes of lists.
    #[error("Malformed")]
    Malformed,
}

impl LookupError {
    /// The error's number, from 1 in the order of the list.
    pub fn number(self) -> u8
        ensures { result ≡ lookup_error_number self }
    {
        match self {
            LookupError::Memory => 1,
            LookupError::Read => 2,
            LookupError::Malformed => 3,
        }
    }
}

impl From<AllocError> for LookupError {
    ghost from_gives = { λ _ error. error ≡ Memory };

    fn from(_error: AllocError) -> LookupError {
        LookupError::Memory
    }
}

impl From<FileError> for LookupError {
    ghost from_gives = { λ file error. error ≡ lookup_error_of file };

    fn from(error: FileError) -> LookupError {
        match error {
            FileError::Memory => LookupError::Memory,
            _ => LookupError::Read,
        }
    }
}

//! Why the answer to a question was not read out of an index text.

ghost use Rattle.std.specs.Prelude.{◌≡◌};
ghost use Rattle.ix_extract.specs.ErrorsHandedUp.{IsOfFile, IsOfOpen, error_of_lookup};
ghost use Rattle.ix_extract.specs.declared.extract_error.ExtractError.TheVariants.{Memory, Query};

use ix_file::{OpenError, Section, VbError};
use ix_files::FileError;
use ix_lookup::LookupError;
use ix_query_text::QueryError;
use std::alloc::AllocError;

/// Why nothing was extracted.
#[derive(Debug, Drop)]
pub enum ExtractError {
    /// Out of memory.
    Memory,
    /// A read of the source failed.
    Read,
    /// The text is no query, or memory ran out in reading it.
    Query(QueryError),
    /// The bytes are no index text.
    Index(OpenError),
}

impl From<AllocError> for ExtractError {
    ghost from_gives = { λ _ error. error ≡ Memory };

    fn from(_error: AllocError) -> ExtractError {
        ExtractError::Memory
    }
}

impl From<FileError> for ExtractError {
    ghost from_gives = { IsOfFile };

    fn from(error: FileError) -> ExtractError {
        match error {
            FileError::Memory => ExtractError::Memory,
            _ => ExtractError::Read,
        }
    }
}

impl From<OpenError> for ExtractError {
    ghost from_gives = { IsOfOpen };

    fn from(error: OpenError) -> ExtractError {
        match error {
            OpenError::Memory => ExtractError::Memory,
            _ => ExtractError::Index(error),
        }
    }
}

impl From<LookupError> for ExtractError {
    ghost from_gives = { λ given error. error ≡ error_of_lookup given };

    fn from(error: LookupError) -> ExtractError {
        match error {
            LookupError::Memory => ExtractError::Memory,
            LookupError::Read => ExtractError::Read,
            LookupError::Malformed => {
                ExtractError::Index(OpenError::Number(Section::Dictionary, VbError::Cut))
            }
        }
    }
}

impl From<QueryError> for ExtractError {
    ghost from_gives = { λ given error. error ≡ Query given };

    fn from(error: QueryError) -> ExtractError {
        ExtractError::Query(error)
    }
}

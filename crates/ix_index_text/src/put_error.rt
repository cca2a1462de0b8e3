//! Why a writer of an index text refuses a call.
ghost use Rattle.std.specs.Prelude.{◌≡◌};
ghost use Rattle.ix_index_text.specs.PutErrors.{put_error_number};
ghost use Rattle.ix_index_text.specs.declared.put_error.PutError.TheVariants.{Write, Memory};

use ix_output::WriteError;
use std::alloc::AllocError;
use thiserror::Error;

/// Why a writer of an index text refuses a call.
#[derive(Clone, Copy, Debug, PartialEq, Eq, Error)]
pub enum PutError {
    /// A write or the flush was refused.
    #[error("Write")]
    Write,
    /// Memory was refused.
    #[error("Memory")]
    Memory,
    /// An earlier call was refused.
    #[error("Failed")]
    Failed,
}

impl PutError {
    /// The error's number, from 1 in the order of the list.
    pub fn number(self) -> u8
        ensures { result ≡ put_error_number self }
    {
        match self {
            PutError::Write => 1,
            PutError::Memory => 2,
            PutError::Failed => 3,
        }
    }
}

impl From<AllocError> for PutError {
    ghost from_gives = { λ _ e. e ≡ Memory };

    fn from(_error: AllocError) -> PutError {
        PutError::Memory
    }
}

impl From<WriteError> for PutError {
    ghost from_gives = { λ _ e. e ≡ Write };

    fn from(_error: WriteError) -> PutError {
        PutError::Write
    }
}

//! Why a block is not inverted.

ghost use Rattle.std.specs.Prelude.{◌≡◌};
ghost use Rattle.ix_run.specs.Errors.{run_error_number};

use std::alloc::{AllocError, AllocFailed};
use std::{error, fmt};

/// Why documents are not inverted.
#[derive(Clone, Copy, Debug, PartialEq, Eq)]
pub enum RunError {
    /// The numbers of the documents go beyond 2^28, or there are more than 2^28 tokens.
    TooLarge,
    /// Memory was refused.
    Memory,
}

impl RunError {
    /// The error's number in the list of this crate's inversion errors, from 1.
    pub fn number(&self) -> u8
        ensures { result ≡ run_error_number self.now }
    {
        match self {
            RunError::TooLarge => 1,
            RunError::Memory => 2,
        }
    }
}

impl fmt::Display for RunError {
    ghost use Rattle.std.specs.Prelude.{Some};
    ghost use Rattle.ix_run.specs.Errors.{run_error_name};

    ghost output = { λ error. Some (run_error_name error) };

    fn fmt<W: fmt::Write>(&self, f: &mut fmt::Formatter<W>) -> fmt::Result {
        match self {
            RunError::TooLarge => f.write_str("TooLarge"),
            RunError::Memory => f.write_str("Memory"),
        }
    }
}

impl error::Error for RunError {}

impl<T: Drop> From<AllocFailed<T>> for RunError {
    ghost use Rattle.std.specs.Prelude.{◌≡◌};
    ghost use Rattle.ix_run.specs.declared.errors.RunError.TheVariants.{Memory};

    ghost from_gives = { λ _ e. e ≡ Memory };

    fn from(_error: AllocFailed<T>) -> RunError {
        RunError::Memory
    }
}

impl From<AllocError> for RunError {
    ghost use Rattle.std.specs.Prelude.{◌≡◌};
    ghost use Rattle.ix_run.specs.declared.errors.RunError.TheVariants.{Memory};

    ghost from_gives = { λ _ e. e ≡ Memory };

    fn from(_error: AllocError) -> RunError {
        RunError::Memory
    }
}

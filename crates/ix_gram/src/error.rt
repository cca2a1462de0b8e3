//! Why a text is no pattern.

ghost use Rattle.std.specs.Prelude.{◌≡◌};
ghost use Rattle.ix_gram.specs.PatternErrors.{number_of};
ghost use Rattle.ix_gram.specs.declared.error.PatternError.TheVariants.{Memory};

use std::alloc::{AllocError, AllocFailed};
use std::{error, fmt};

/// Why a text is not read as a pattern.
#[derive(Clone, Copy, Debug, PartialEq, Eq)]
pub enum PatternError {
    /// The text has no star.
    NoStar,
    /// The text is nothing but stars.
    BareStar,
    /// Memory ran out.
    Memory,
}

impl PatternError {
    /// The error's number, from 1 in the order of the list.
    pub fn number(&self) -> u8
        ensures { result ≡ number_of self.now }
    {
        match self {
            PatternError::NoStar => 1,
            PatternError::BareStar => 2,
            PatternError::Memory => 3,
        }
    }
}

impl fmt::Display for PatternError {
    ghost use Rattle.std.specs.Prelude.{Some};
    ghost use Rattle.ix_gram.specs.PatternErrors.{name_of};

    ghost output = { λ error. Some (name_of error) };

    fn fmt<W: fmt::Write>(&self, f: &mut fmt::Formatter<W>) -> fmt::Result {
        match self {
            PatternError::NoStar => f.write_str("NoStar"),
            PatternError::BareStar => f.write_str("BareStar"),
            PatternError::Memory => f.write_str("Memory"),
        }
    }
}

impl error::Error for PatternError {}

impl From<AllocError> for PatternError {
    ghost from_gives = { λ _ e. e ≡ Memory };

    fn from(_e: AllocError) -> PatternError {
        PatternError::Memory
    }
}

impl<T: Drop> From<AllocFailed<T>> for PatternError {
    ghost from_gives = { λ _ e. e ≡ Memory };

    fn from(_e: AllocFailed<T>) -> PatternError {
        PatternError::Memory
    }
}

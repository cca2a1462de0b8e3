//! Why an operation on a live index fails.
ghost use Rattle.std.specs.Prelude.{◌≡◌};

use ix_build::BuildError;
use std::alloc::AllocError;
use std::{error, fmt};

/// Why an operation on a live index fails. All is then as it was before.
#[derive(Clone, Copy, Debug, PartialEq, Eq)]
pub enum LiveError {
    /// The documents were not built into an index text.
    Build(BuildError),
    /// With the documents there would be more than 2^28 of them, or more than 2^28 tokens.
    TooLarge,
    /// Out of memory, also for the bytes of an index text.
    Memory,
    /// There is no document of this number.
    Number(u32),
}

impl LiveError {
    ghost use Rattle.ix_live.specs.LiveErrors.{live_error_number};

    /// The error's number in the list of these errors, from 1.
    pub fn number(&self) -> u8
        ensures { result ≡ live_error_number self.now }
    {
        match self {
            LiveError::Build(_) => 1,
            LiveError::TooLarge => 2,
            LiveError::Memory => 3,
            LiveError::Number(_) => 4,
        }
    }
}

impl From<AllocError> for LiveError {
    ghost use Rattle.std.specs.Prelude.{◌≡◌};
    ghost use Rattle.ix_live.specs.declared.live_error.LiveError.TheVariants.{Memory};

    ghost from_gives = { λ _ error. error ≡ Memory };

    fn from(_error: AllocError) -> LiveError {
        LiveError::Memory
    }
}

impl From<BuildError> for LiveError {
    ghost use Rattle.std.specs.Prelude.{◌≡◌};
    ghost use Rattle.ix_live.specs.LiveErrors.{told_of_build};

    ghost from_gives = { λ cause error. error ≡ told_of_build cause };

    /// A failed write is one into memory.
    fn from(error: BuildError) -> LiveError {
        match error {
            BuildError::Write => LiveError::Memory,
            error => LiveError::Build(error),
        }
    }
}

impl fmt::Display for LiveError {
    ghost use Rattle.std.specs.Prelude.{Some};
    ghost use Rattle.ix_live.specs.LiveErrors.{live_error_name};

    ghost output = { λ error. Some (live_error_name error) };

    fn fmt<W: fmt::Write>(&self, f: &mut fmt::Formatter<W>) -> fmt::Result {
        match self {
            LiveError::Build(error) => write!(f, "Build({error})"),
            LiveError::TooLarge => f.write_str("TooLarge"),
            LiveError::Memory => f.write_str("Memory"),
            LiveError::Number(document) => write!(f, "Number({document})"),
        }
    }
}

impl error::Error for LiveError {}

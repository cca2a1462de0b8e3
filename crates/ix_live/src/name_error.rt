//! Why names are not given.
ghost use Rattle.std.specs.Prelude.{◌≡◌};

use std::alloc::AllocError;
use std::{error, fmt};

/// Why names are not given.
#[derive(Clone, Copy, Debug, PartialEq, Eq)]
pub enum NameError {
    /// The number at this place of the list, from 0, is no document's.
    Number(usize),
    /// Out of memory.
    Memory,
}

impl NameError {
    ghost use Rattle.ix_live.specs.NameErrors.{name_error_number};

    /// The error's number in the list of these errors, from 1.
    pub fn number(&self) -> u8
        ensures { result ≡ name_error_number self.now }
    {
        match self {
            NameError::Number(_) => 1,
            NameError::Memory => 2,
        }
    }
}

impl From<AllocError> for NameError {
    ghost use Rattle.std.specs.Prelude.{◌≡◌};
    ghost use Rattle.ix_live.specs.declared.name_error.NameError.TheVariants.{Memory};

    ghost from_gives = { λ _ error. error ≡ Memory };

    fn from(_error: AllocError) -> NameError {
        NameError::Memory
    }
}

impl fmt::Display for NameError {
    ghost use Rattle.std.specs.Prelude.{Some};
    ghost use Rattle.ix_live.specs.NameErrors.{name_error_name};

    ghost output = { λ error. Some (name_error_name error) };

    fn fmt<W: fmt::Write>(&self, f: &mut fmt::Formatter<W>) -> fmt::Result {
        match self {
            NameError::Number(place) => write!(f, "Number({place})"),
            NameError::Memory => f.write_str("Memory"),
        }
    }
}

impl error::Error for NameError {}

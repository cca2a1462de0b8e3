//! Why a text is no script.

ghost use Rattle.std.specs.Prelude.{◌≡◌};

use ix_query::QueryError;
use std::alloc::{AllocError, AllocFailed};
use std::{error, fmt};

/// Why a text is no script. Lines are counted from 1, empty ones too.
#[derive(Clone, Copy, Debug, PartialEq, Eq)]
pub enum ScriptError {
    /// The line is neither empty nor that of a step.
    Line(usize),
    /// The text that the line asks is no query.
    Query(usize, QueryError),
    /// Out of memory.
    Memory,
}

impl ScriptError {
    ghost use Rattle.ix_script.specs.ScriptErrors.{script_error_number};

    /// The error's number in the list of these errors, from 1.
    pub fn number(&self) -> u8
        ensures { result ≡ script_error_number self.now }
    {
        match self {
            ScriptError::Line(_) => 1,
            ScriptError::Query(_, _) => 2,
            ScriptError::Memory => 3,
        }
    }
}

impl fmt::Display for ScriptError {
    ghost use Rattle.std.specs.Prelude.{Some};
    ghost use Rattle.ix_script.specs.ScriptErrors.{script_error_name};

    ghost output = { λ error. Some (script_error_name error) };

    fn fmt<W: fmt::Write>(&self, f: &mut fmt::Formatter<W>) -> fmt::Result {
        match self {
            ScriptError::Line(line) => write!(f, "Line({line})"),
            ScriptError::Query(line, error) => write!(f, "Query({line}, {error})"),
            ScriptError::Memory => f.write_str("Memory"),
        }
    }
}

impl error::Error for ScriptError {}

impl From<AllocError> for ScriptError {
    ghost use Rattle.ix_script.specs.declared.script_error.ScriptError.TheVariants.{Memory};

    ghost from_gives = { λ _ error. error ≡ Memory };

    fn from(_error: AllocError) -> ScriptError {
        ScriptError::Memory
    }
}

impl<T: Drop> From<AllocFailed<T>> for ScriptError {
    ghost use Rattle.ix_script.specs.declared.script_error.ScriptError.TheVariants.{Memory};

    ghost from_gives = { λ _ error. error ≡ Memory };

    fn from(_error: AllocFailed<T>) -> ScriptError {
        ScriptError::Memory
    }
}

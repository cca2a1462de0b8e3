//! Why bytes do not begin with a code.
ghost use Rattle.std.specs.Prelude.{◌≡◌};
ghost use Rattle.ix_vbyte.specs.Numbers.{number_of};

use std::{error, fmt};

/// Why some bytes do not begin with the code of a number, in the order of the tests at each byte.
#[derive(Clone, Copy, Debug, PartialEq, Eq)]
pub enum VbError {
    /// The bytes end before one of them ends the code.
    Cut,
    /// The first byte is `00`.
    LeadingZero,
    /// The bytes come to stand for more than 2^32 - 1.
    TooBig,
}

impl VbError {
    /// The error's number in the list of this crate's errors, from 1.
    pub fn number(self) -> u32
        ensures { result ≡ number_of self }
    {
        match self {
            VbError::Cut => 1,
            VbError::LeadingZero => 2,
            VbError::TooBig => 3,
        }
    }
}

impl fmt::Display for VbError {
    ghost use Rattle.std.specs.Prelude.{Some};
    ghost use Rattle.ix_vbyte.specs.Numbers.{name_of};

    ghost output = { λ error. Some (name_of error) };

    fn fmt<W: fmt::Write>(&self, f: &mut fmt::Formatter<W>) -> fmt::Result {
        match self {
            VbError::Cut => f.write_str("Cut"),
            VbError::LeadingZero => f.write_str("LeadingZero"),
            VbError::TooBig => f.write_str("TooBig"),
        }
    }
}

impl error::Error for VbError {}

//! Why a run text could not be read.
ghost use Rattle.std.specs.Prelude.{◌≡◌};
ghost use Rattle.ix_postings.specs.declared.list_fault.ListFault.TheVariants.{Memory as NoMemory};
ghost use Rattle.ix_run_text.specs.declared.run_text_error.RunTextError.TheVariants.{Memory};

use ix_postings::ListFault;
use ix_vbyte::VbError;
use std::alloc::{AllocError, AllocFailed};
use std::{error, fmt};

/// Why some bytes are no run text, or why that could not be told.
#[derive(Clone, Copy, Debug, PartialEq, Eq)]
pub enum RunTextError {
    /// The bytes do not begin with the eight bytes of a run text.
    Magic,
    /// A number is not coded as it must be, or the input ends inside a number or a text.
    Number(VbError),
    /// A term, a stop term or a name is not UTF-8.
    Text,
    /// A name has not 1 to 255 bytes, or holds a TAB or an LF.
    Name,
    /// A term has more than 255 bytes, or a stop term has not 1 to 255.
    TermSize,
    /// A term does not stand above the term before it.
    TermOrder,
    /// A list of postings does not end where its length says.
    ListLength,
    /// A posting names a document that the run does not have.
    DocRange,
    /// A gap or a count is 0.
    Zero,
    /// A position is not below its document's number of tokens.
    PositionRange,
    /// A term is one of the stop terms.
    StopIndexed,
    /// A stop term does not stand above the one before it.
    StopOrder,
    /// Bytes stand behind the end mark.
    Extra,
    /// More than 2^28 stop terms, tokens or documents, those before the run included.
    TooLarge,
    /// The reader refused a read.
    Read,
    /// Memory was refused.
    Memory,
    /// Two terms claim one position of one document.
    Doubled,
    /// An earlier call was refused.
    Failed,
}

impl RunTextError {
    ghost use Rattle.ix_run_text.specs.RunTextErrors.{run_text_error_number};

    /// The error's number in the list of this crate's run text errors, from 1.
    pub fn number(&self) -> u8
        ensures { result ≡ run_text_error_number self.now }
    {
        match self {
            RunTextError::Magic => 1,
            RunTextError::Number(_) => 2,
            RunTextError::Text => 3,
            RunTextError::Name => 4,
            RunTextError::TermSize => 5,
            RunTextError::TermOrder => 6,
            RunTextError::ListLength => 7,
            RunTextError::DocRange => 8,
            RunTextError::Zero => 9,
            RunTextError::PositionRange => 10,
            RunTextError::StopIndexed => 11,
            RunTextError::StopOrder => 12,
            RunTextError::Extra => 13,
            RunTextError::TooLarge => 14,
            RunTextError::Read => 15,
            RunTextError::Memory => 16,
            RunTextError::Doubled => 17,
            RunTextError::Failed => 18,
        }
    }
}

impl fmt::Display for RunTextError {
    ghost use Rattle.std.specs.Prelude.{Some};
    ghost use Rattle.ix_run_text.specs.RunTextErrors.{run_text_error_name};

    ghost output = { λ error. Some (run_text_error_name error) };

    fn fmt<W: fmt::Write>(&self, f: &mut fmt::Formatter<W>) -> fmt::Result {
        match self {
            RunTextError::Magic => f.write_str("Magic"),
            RunTextError::Number(fault) => write!(f, "Number({fault})"),
            RunTextError::Text => f.write_str("Text"),
            RunTextError::Name => f.write_str("Name"),
            RunTextError::TermSize => f.write_str("TermSize"),
            RunTextError::TermOrder => f.write_str("TermOrder"),
            RunTextError::ListLength => f.write_str("ListLength"),
            RunTextError::DocRange => f.write_str("DocRange"),
            RunTextError::Zero => f.write_str("Zero"),
            RunTextError::PositionRange => f.write_str("PositionRange"),
            RunTextError::StopIndexed => f.write_str("StopIndexed"),
            RunTextError::StopOrder => f.write_str("StopOrder"),
            RunTextError::Extra => f.write_str("Extra"),
            RunTextError::TooLarge => f.write_str("TooLarge"),
            RunTextError::Read => f.write_str("Read"),
            RunTextError::Memory => f.write_str("Memory"),
            RunTextError::Doubled => f.write_str("Doubled"),
            RunTextError::Failed => f.write_str("Failed"),
        }
    }
}

impl error::Error for RunTextError {}

impl<T: Drop> From<AllocFailed<T>> for RunTextError {
    ghost from_gives = { λ _ e. e ≡ Memory };

    fn from(_error: AllocFailed<T>) -> RunTextError {
        RunTextError::Memory
    }
}

impl From<AllocError> for RunTextError {
    ghost from_gives = { λ _ e. e ≡ Memory };

    fn from(_error: AllocError) -> RunTextError {
        RunTextError::Memory
    }
}

impl From<ListFault> for RunTextError {
    ghost from_gives = { λ fault error. fault ≡ NoMemory → error ≡ Memory };

    fn from(fault: ListFault) -> RunTextError {
        match fault {
            ListFault::Number(fault) => RunTextError::Number(fault),
            ListFault::Zero => RunTextError::Zero,
            ListFault::DocRange => RunTextError::DocRange,
            ListFault::PositionRange => RunTextError::PositionRange,
            ListFault::Doubled => RunTextError::Doubled,
            ListFault::ListLength => RunTextError::ListLength,
            ListFault::Memory => RunTextError::Memory,
        }
    }
}

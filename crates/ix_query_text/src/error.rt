//! Why a text is no query.

ghost use Rattle.std.specs.Prelude.{◌≡◌};
ghost use Rattle.ix_query_text.specs.declared.error.QueryError.TheVariants.{Memory};
ghost use Rattle.ix_query_text.specs.QueryErrors.{number_of};

use std::alloc::{AllocError, AllocFailed};
use std::{error, fmt};

/// Why a text is not read as a query. Offsets are bytes of the text, from 0.
#[derive(Clone, Copy, Debug, PartialEq, Eq)]
pub enum QueryError {
    /// The text has no lexeme.
    Empty,
    /// The lexeme at this offset cannot stand there.
    Unexpected(usize),
    /// The text ends where a lexeme must follow.
    End,
    /// A quotation mark has no other after it.
    OpenQuote,
    /// A run begins with `NEAR/`, and the rest is no number from 1 to 65535 without leading zeros.
    BadNear,
    /// A run or a quoted text has no word.
    NoWord,
    /// All words of a run or a quoted text are stop words.
    OnlyStopWords,
    /// A pattern is nothing but stars.
    BareStar,
    /// A star stands in a quoted text.
    StarInPhrase,
    /// A run beside NEAR has a star, is not exactly one word, or is a stop word.
    NearWord,
    /// A term has more than 255 bytes.
    LongTerm,
    /// More than 64 brackets and NOTs would be open at once.
    Deep,
    /// Memory ran out.
    Memory,
}

impl QueryError {
    /// The error's number, from 1 in the order of the list.
    pub fn number(&self) -> u8
        ensures { result ≡ number_of self.now }
    {
        match self {
            QueryError::Empty => 1,
            QueryError::Unexpected(_) => 2,
            QueryError::End => 3,
            QueryError::OpenQuote => 4,
            QueryError::BadNear => 5,
            QueryError::NoWord => 6,
            QueryError::OnlyStopWords => 7,
            QueryError::BareStar => 8,
            QueryError::StarInPhrase => 9,
            QueryError::NearWord => 10,
            QueryError::LongTerm => 11,
            QueryError::Deep => 12,
            QueryError::Memory => 13,
        }
    }
}

impl fmt::Display for QueryError {
    ghost use Rattle.std.specs.Prelude.{Some};
    ghost use Rattle.ix_query_text.specs.ErrorNames.{name_of};

    ghost output = { λ error. Some (name_of error) };

    fn fmt<W: fmt::Write>(&self, f: &mut fmt::Formatter<W>) -> fmt::Result {
        match self {
            QueryError::Empty => f.write_str("Empty"),
            QueryError::Unexpected(offset) => write!(f, "Unexpected({offset})"),
            QueryError::End => f.write_str("End"),
            QueryError::OpenQuote => f.write_str("OpenQuote"),
            QueryError::BadNear => f.write_str("BadNear"),
            QueryError::NoWord => f.write_str("NoWord"),
            QueryError::OnlyStopWords => f.write_str("OnlyStopWords"),
            QueryError::BareStar => f.write_str("BareStar"),
            QueryError::StarInPhrase => f.write_str("StarInPhrase"),
            QueryError::NearWord => f.write_str("NearWord"),
            QueryError::LongTerm => f.write_str("LongTerm"),
            QueryError::Deep => f.write_str("Deep"),
            QueryError::Memory => f.write_str("Memory"),
        }
    }
}

impl error::Error for QueryError {}

impl From<AllocError> for QueryError {
    ghost from_gives = { λ _ e. e ≡ Memory };

    fn from(_e: AllocError) -> QueryError {
        QueryError::Memory
    }
}

impl<T: Drop> From<AllocFailed<T>> for QueryError {
    ghost from_gives = { λ _ e. e ≡ Memory };

    fn from(_e: AllocFailed<T>) -> QueryError {
        QueryError::Memory
    }
}

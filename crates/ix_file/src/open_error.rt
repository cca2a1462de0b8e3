//! Why bytes are refused as an index text.
ghost use Rattle.std.specs.Prelude.{◌≡◌};
ghost use Rattle.ix_file.specs.OpenErrors.{open_error_number};
ghost use Rattle.ix_file.specs.declared.open_error.OpenError.TheVariants.{Memory};
ghost use Rattle.ix_postings.specs.declared.list_fault.ListFault.TheVariants.{Memory as NoMemory};

use ix_postings::ListFault;
use ix_vbyte::VbError;
use std::alloc::{AllocError, AllocFailed};
use std::fmt;
use thiserror::Error;

/// The sections of an index text, in their order.
#[derive(Clone, Copy, Debug, PartialEq, Eq)]
pub enum Section {
    /// The coded lists of the terms.
    Postings,
    /// The stop terms.
    Stop,
    /// The names of the documents, and how many tokens each has.
    Documents,
    /// The terms.
    Dictionary,
    /// The grams of the terms.
    Grams,
}

impl fmt::Display for Section {
    ghost use Rattle.std.specs.Prelude.{Some};
    ghost use Rattle.ix_file.specs.SectionNames.{section_name};

    ghost output = { λ section. Some (section_name section) };

    fn fmt<W: fmt::Write>(&self, f: &mut fmt::Formatter<W>) -> fmt::Result {
        f.write_str(match self {
            Section::Postings => "POSTINGS",
            Section::Stop => "STOP",
            Section::Documents => "DOCS",
            Section::Dictionary => "DICTIONARY",
            Section::Grams => "GRAMS",
        })
    }
}

/// Why bytes are no index text of a lawful collection, or `Memory`.
#[derive(Clone, Copy, Debug, PartialEq, Eq, Error)]
pub enum OpenError {
    /// There are fewer than 64 bytes.
    Short,
    /// The first eight bytes are those of no version.
    Magic,
    /// The last eight bytes are not those of the version.
    Trailer,
    /// The lengths of the sections do not sum to what is there.
    Lengths,
    /// In this section a number is not coded as it must be, or the section ends inside a number or a text.
    Number(Section, VbError),
    /// A term, a stop term or a name is not UTF-8.
    Text,
    /// A name has not 1 to 255 bytes, or holds a TAB or an LF.
    Name,
    /// A term or a stop term has not 1 to 255 bytes.
    TermSize,
    /// A term does not stand above the term before it.
    TermOrder,
    /// A stop term does not stand above the one before it.
    StopOrder,
    /// A term is one of the stop terms.
    StopIndexed,
    /// A list of postings does not end where its length says, or the lists are not as long as POSTINGS.
    ListLength,
    /// A gap or a count is 0.
    Zero,
    /// A posting names a document that is not there.
    DocRange,
    /// A position is not below its document's number of tokens.
    PositionRange,
    /// Two terms claim one position of one document.
    Doubled,
    /// GRAMS is not the section that belongs to the terms.
    Grams,
    /// There are not as many documents or terms as the trailer says.
    Counts,
    /// More than 2^28 documents, stop terms or tokens.
    TooLarge,
    /// Memory was refused.
    Memory,
    /// What a term shares with the term before it is not the longest front that they share.
    Front,
}

impl OpenError {
    /// The error's number, from 1 in the order of the list.
    pub fn number(self) -> u8
        ensures { result ≡ open_error_number self }
    {
        match self {
            OpenError::Short => 1,
            OpenError::Magic => 2,
            OpenError::Trailer => 3,
            OpenError::Lengths => 4,
            OpenError::Number(_, _) => 5,
            OpenError::Text => 6,
            OpenError::Name => 7,
            OpenError::TermSize => 8,
            OpenError::TermOrder => 9,
            OpenError::StopOrder => 10,
            OpenError::StopIndexed => 11,
            OpenError::ListLength => 12,
            OpenError::Zero => 13,
            OpenError::DocRange => 14,
            OpenError::PositionRange => 15,
            OpenError::Doubled => 16,
            OpenError::Grams => 17,
            OpenError::Counts => 18,
            OpenError::TooLarge => 19,
            OpenError::Memory => 20,
            OpenError::Front => 21,
        }
    }
}

impl fmt::Display for OpenError {
    ghost use Rattle.std.specs.Prelude.{Some};
    ghost use Rattle.ix_file.specs.OpenErrors.{open_error_name};

    ghost output = { λ error. Some (open_error_name error) };

    fn fmt<W: fmt::Write>(&self, f: &mut fmt::Formatter<W>) -> fmt::Result {
        match self {
            OpenError::Short => f.write_str("Short"),
            OpenError::Magic => f.write_str("Magic"),
            OpenError::Trailer => f.write_str("Trailer"),
            OpenError::Lengths => f.write_str("Lengths"),
            OpenError::Number(section, fault) => write!(f, "Number({section}, {fault})"),
            OpenError::Text => f.write_str("Text"),
            OpenError::Name => f.write_str("Name"),
            OpenError::TermSize => f.write_str("TermSize"),
            OpenError::TermOrder => f.write_str("TermOrder"),
            OpenError::StopOrder => f.write_str("StopOrder"),
            OpenError::StopIndexed => f.write_str("StopIndexed"),
            OpenError::ListLength => f.write_str("ListLength"),
            OpenError::Zero => f.write_str("Zero"),
            OpenError::DocRange => f.write_str("DocRange"),
            OpenError::PositionRange => f.write_str("PositionRange"),
            OpenError::Doubled => f.write_str("Doubled"),
            OpenError::Grams => f.write_str("Grams"),
            OpenError::Counts => f.write_str("Counts"),
            OpenError::TooLarge => f.write_str("TooLarge"),
            OpenError::Memory => f.write_str("Memory"),
            OpenError::Front => f.write_str("Front"),
        }
    }
}

impl From<AllocError> for OpenError {
    ghost from_gives = { λ _ e. e ≡ Memory };

    fn from(_error: AllocError) -> OpenError {
        OpenError::Memory
    }
}

/// Of a list in POSTINGS: one that ends inside a number is not as long as its length says.
impl From<ListFault> for OpenError {
    ghost from_gives = { λ fault error. fault ≡ NoMemory → error ≡ Memory };

    fn from(fault: ListFault) -> OpenError {
        match fault {
            ListFault::Number(VbError::Cut) => OpenError::ListLength,
            ListFault::Number(fault) => OpenError::Number(Section::Postings, fault),
            ListFault::Zero => OpenError::Zero,
            ListFault::DocRange => OpenError::DocRange,
            ListFault::PositionRange => OpenError::PositionRange,
            ListFault::Doubled => OpenError::Doubled,
            ListFault::ListLength => OpenError::ListLength,
            ListFault::Memory => OpenError::Memory,
        }
    }
}

impl<T: Drop> From<AllocFailed<T>> for OpenError {
    ghost from_gives = { λ _ e. e ≡ Memory };

    fn from(_error: AllocFailed<T>) -> OpenError {
        OpenError::Memory
    }
}

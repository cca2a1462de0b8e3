//! Collection texts: named documents, each on one line.
ghost use Rattle.std.specs.Prelude.{◌≡◌, ◌<◌, ◌⊎◌, ◌↔◌, ℕ, List, All, Contains, map, IfNone, IfSome, IsTrue, MatchOption};
ghost use Rattle.std.proofs.Props.{props};
ghost use Rattle.ix_text.specs.CollectionFaults.{IsCutAtFirst};
ghost use Rattle.ix_text.specs.CollectionLaws.{FaultsExcludeDocuments, HasDocumentsOrFault, HasOneFault, HasOneListOfDocuments};
ghost use Rattle.ix_text.specs.Collections.{NamedText, IsName, IsNameByte};
ghost use Rattle.ix_text.specs.Sizes.{AreSmall};
ghost use Rattle.ix_text.specs.declared.collection.CollectionError.{CollectionError};

use crate::{MAX_NAME_BYTES, MAX_TEXT_BYTES};
use memchr::memchr;
use simdutf8::compat::from_utf8;
use std::alloc::{AllocError, AllocFailed, Global};
use std::marker::Model;
use std::{error, fmt};

/// A document as it is read: its name and its text, both borrowed from the collection text.
#[derive(Clone, Copy, Debug, PartialEq, Eq)]
pub struct Doc<'a> {
    /// 1 to 255 bytes without TAB and LF.
    pub name: &'a str,
    /// Text without LF.
    pub text: &'a str,
    pub ghost lawful_name: { IsName name.now } by { Prim.hlevel props },
    pub ghost one_line: { ¬ (Contains text.now 10) },
}

impl<'a> Doc<'a> {
    ghost use Rattle.std.specs.Prelude.{◌<◌, ◌++◌, length, IfOk, IfErr};
    ghost use Rattle.ix_text.specs.CollectionText.{line_of};
    ghost use Rattle.ix_text.specs.CollectionFaults.{IsLineFault};
    ghost use Rattle.ix_text.specs.Docs.{named_text};

    /// The document of the first line of what is left of a text, and what follows the line. The line has this number.
    fn read_line(left: &'a str, number: usize) -> Result<(Doc<'a>, &'a str), CollectionError>
        requires { 0 < length left.now }
        ensures document { IfOk result
            (λ read. left.now ≡ line_of (named_text read.0) ++ read.1.now) }
        ensures fault { IfErr result (λ error. IsLineFault left.now number error) }
    {
        let (line, next) = first_line(left);
        let Some((name, text)) = cut_at(line, b'\t') else {
            return Err(CollectionError::NoTab(number));
        };
        if name.is_empty() || name.len() > MAX_NAME_BYTES as usize {
            return Err(CollectionError::Name(number));
        }
        let Some(next) = next else {
            return Err(CollectionError::NoLineEnd(number));
        };
        Ok((Doc { name, text }, next))
    }
}

/// The documents of a collection text, in order. A document's number is its place here, from 0. There are at most 2^28
/// of them, and their texts have at most 2^28 bytes together.
#[derive(Debug, Drop)]
pub struct Collection<'a> {
    docs: Vec<Doc<'a>>,
    ghost small: { AreSmall
        (map (λ doc. record { name = doc.name.now; text = doc.text.now }) docs.items) },
}

impl<'a> Model for Collection<'a> {
    ghost use Rattle.std.specs.Prelude.{List, map};
    ghost use Rattle.ix_text.specs.Collections.{NamedText};

    ghost Value = { List NamedText };

    ghost use Rattle.ix_text.specs.Docs.{named_text};

    ghost view = { λ c. map named_text c.docs.items };
}

impl<'a> Collection<'a> {
    ghost use Rattle.std.specs.Prelude.{◌⊎◌, IfOk, IfErr};
    ghost use Rattle.ix_text.specs.CollectionText.{IsCollectionText};
    ghost use Rattle.ix_text.specs.CollectionFaults.{IsCollectionFault};
    ghost use Rattle.ix_text.specs.Docs.{named_text};

    /// Reads a collection text of at most 2^28 bytes: UTF-8 text, each line of which is a name, a TAB, a text and an
    /// LF. The empty text has no documents. Names and texts stay where they are; only the list of them takes memory.
    ///
    /// The size is tested first (`TooLarge`), then that all is UTF-8 (`NotUtf8`), and then the lines in order, each
    /// for `NoTab`, `Name` and `NoLineEnd`. The first fault is the error, or `Memory` where memory is refused.
    pub fn read(alloc: Global, bytes: &'a [u8]) -> Result<Collection<'a>, CollectionError>
        ensures documents { IfOk result (λ documents. IsCollectionText bytes.now documents) }
        ensures fault { IfErr result
            (λ error. (error ≡ CollectionError.Memory) ⊎ IsCollectionFault bytes.now error) }
        ensures accepted { (documents : List NamedText) → IsCollectionText bytes.now documents
            → (result ≡ Ok documents) ⊎ (result ≡ Err CollectionError.Memory) }
    {
        if bytes.len() > MAX_TEXT_BYTES {
            return Err(CollectionError::TooLarge);
        }
        let text = from_utf8(bytes).map_err(|e| CollectionError::NotUtf8(e.valid_up_to()))?;
        let mut docs = Vec::new(alloc);
        let mut left = text;
        while !left.is_empty() {
            let (doc, next) = Doc::read_line(left, docs.len() + 1)?;
            docs.push(doc)?;
            left = next;
        }
        Ok(Collection { docs })
    }

    /// The documents, in order: at most 2^28, with at most 2^28 bytes of text together.
    pub fn docs(&self) -> &[Doc<'a>]
        ensures documents { map named_text result.now ≡ self.now }
        ensures small { AreSmall self.now }
    {
        self.docs.as_slice()
    }
}

/// Why a text is no collection text, or `Memory`. Lines are numbered from 1.
#[derive(Clone, Copy, Debug, PartialEq, Eq)]
pub enum CollectionError {
    /// The text has more than 2^28 bytes.
    TooLarge,
    /// The text is not UTF-8: the length in bytes of its longest front that is.
    NotUtf8(usize),
    /// The line has no TAB.
    NoTab(usize),
    /// The name before the line's first TAB has not 1 to 255 bytes.
    Name(usize),
    /// The last line has no LF at its end.
    NoLineEnd(usize),
    /// Memory was refused.
    Memory,
}

impl CollectionError {
    ghost use Rattle.ix_text.specs.CollectionErrors.{collection_error_number};

    /// The error's number in the list of this crate's collection errors, from 1.
    pub fn number(&self) -> u8
        ensures { result ≡ collection_error_number self.now }
    {
        match self {
            CollectionError::TooLarge => 1,
            CollectionError::NotUtf8(_) => 2,
            CollectionError::NoTab(_) => 3,
            CollectionError::Name(_) => 4,
            CollectionError::NoLineEnd(_) => 5,
            CollectionError::Memory => 6,
        }
    }
}

impl fmt::Display for CollectionError {
    ghost use Rattle.std.specs.Prelude.{Some};
    ghost use Rattle.ix_text.specs.CollectionErrors.{collection_error_name};

    ghost output = { λ error. Some (collection_error_name error) };

    fn fmt<W: fmt::Write>(&self, f: &mut fmt::Formatter<W>) -> fmt::Result {
        match self {
            CollectionError::TooLarge => f.write_str("TooLarge"),
            CollectionError::NotUtf8(length) => write!(f, "NotUtf8({length})"),
            CollectionError::NoTab(line) => write!(f, "NoTab({line})"),
            CollectionError::Name(line) => write!(f, "Name({line})"),
            CollectionError::NoLineEnd(line) => write!(f, "NoLineEnd({line})"),
            CollectionError::Memory => f.write_str("Memory"),
        }
    }
}

impl error::Error for CollectionError {}

impl<T: Drop> From<AllocFailed<T>> for CollectionError {
    ghost use Rattle.std.specs.Prelude.{◌≡◌};
    ghost use Rattle.ix_text.specs.declared.collection.CollectionError.TheVariants.{Memory};

    ghost from_gives = { λ _ e. e ≡ Memory };

    fn from(_error: AllocFailed<T>) -> CollectionError {
        CollectionError::Memory
    }
}

impl From<AllocError> for CollectionError {
    ghost use Rattle.std.specs.Prelude.{◌≡◌};
    ghost use Rattle.ix_text.specs.declared.collection.CollectionError.TheVariants.{Memory};

    ghost from_gives = { λ _ e. e ≡ Memory };

    fn from(_error: AllocError) -> CollectionError {
        CollectionError::Memory
    }
}

/// The first line of a text, without its LF, and what follows the LF, if it has one.
fn first_line(text: &str) -> (&str, Option<&str>)
    ensures { MatchOption result.1
        ((text.now ≡ result.0.now) × ¬ (Contains text.now 10))
        (λ next. IsCutAtFirst text.now 10 result.0.now next.now) }
{
    match cut_at(text, b'\n') {
        Some((line, next)) => (line, Some(next)),
        None => (text, None),
    }
}

/// Cuts a text at its first such byte, which is ASCII.
fn cut_at(text: &str, byte: u8) -> Option<(&str, &str)>
    requires { byte < 128 }
    ensures none { IfNone result (¬ (Contains text.now byte)) }
    ensures some { IfSome result (λ parts. IsCutAtFirst text.now byte parts.0.now parts.1.now) }
{
    let at = memchr(byte, text.as_bytes())?;
    Some((&text[..at], &text[at + 1..]))
}

/// Whether the text holds neither a TAB nor an LF, as a name has to.
pub fn is_unbroken(text: &str) -> bool
    ensures { IsTrue result ↔ All IsNameByte text.now }
{
    let bytes = text.as_bytes();
    !bytes.contains(&b'\t') && !bytes.contains(&b'\n')
}

/// A law: a text has one list of documents or one fault, and never both.
pub fn has_documents_or_a_fault()
    ensures one_list { HasOneListOfDocuments }
    ensures one_fault { HasOneFault }
    ensures refused { FaultsExcludeDocuments }
    ensures complete { HasDocumentsOrFault }
{}

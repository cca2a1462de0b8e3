//! The terms of a run with their coded lists, close together in memory.
ghost use Rattle.std.specs.Prelude.{◌≡◌, ◌+◌, ◌<◌, [], ◌∷◌, ◌++◌, length, take, IfOk, MatchOption, OnErr, OnOk};
ghost use Rattle.ix_run.specs.HeldTerms.{BeginsWithRow, ReadsRow, bytes_of_row};
ghost use Rattle.ix_run.specs.Runs.{term_shown};

use ix_text::Memory;
use ix_vbyte::{first_number, push_code};
use std::alloc::{AllocError, Global};
use std::marker::Model;

/// A term with its coded list.
#[derive(Clone, Copy)]
pub(crate) struct CodedTerm<'a> {
    /// 1 to 255 bytes.
    pub(crate) term: &'a str,
    /// How many documents have it.
    pub(crate) documents: u32,
    /// The last of these documents.
    pub(crate) last: u32,
    /// Its postings, as the run text has them, documents counted from 0 within the run.
    pub(crate) list: &'a [u8],
}

/// The numbers that are kept with the text and the list of a term.
#[derive(Clone, Copy)]
struct TermRow {
    // the bytes of its text and of its list
    text: u32,
    list: u32,
    documents: u32,
    last: u32,
}

/// A number of bytes as a row has it. Out of memory for 2^32 bytes or more.
pub(crate) fn byte_count(bytes: usize) -> Result<u32, Memory>
    ensures { IfOk result (λ count. count ≡ bytes) }
{
    u32::try_from(bytes).map_err(|_| AllocError)
}

/// Appends a term: its row, its text and its list. An error leaves the bytes as they were.
fn push_term(bytes: &mut Vec<u8>, row: TermRow, text: &[u8], list: &[u8]) -> Result<(), AllocError>
    ensures pushed { OnOk result (bytes.new.items
        ≡ bytes.old.items ++ (bytes_of_row row ++ (text.now ++ list.now))) }
    ensures kept { OnErr result (bytes.new.items ≡ bytes.old.items) }
{
    let start = bytes.len();
    let pushed = append_term(bytes, row, text, list);
    if pushed.is_err() {
        bytes.truncate(start);
    }
    pushed
}

/// The same, but an error may leave a beginning of what is appended.
fn append_term(
    bytes: &mut Vec<u8>,
    row: TermRow,
    text: &[u8],
    list: &[u8],
) -> Result<(), AllocError>
    ensures pushed { OnOk result (bytes.new.items
        ≡ bytes.old.items ++ (bytes_of_row row ++ (text.now ++ list.now))) }
    ensures kept { OnErr result (take (length bytes.old.items) bytes.new.items ≡ bytes.old.items) }
{
    append_row(bytes, row)?;
    bytes.extend_from_slice(text)?;
    bytes.extend_from_slice(list)
}

/// Appends the codes of a row's numbers. An error may leave some of them.
fn append_row(bytes: &mut Vec<u8>, row: TermRow) -> Result<(), AllocError>
    ensures pushed { OnOk result (bytes.new.items ≡ bytes.old.items ++ bytes_of_row row) }
    ensures kept { OnErr result (take (length bytes.old.items) bytes.new.items ≡ bytes.old.items) }
{
    push_code(bytes, row.text)?;
    push_code(bytes, row.list)?;
    push_code(bytes, row.documents)?;
    push_code(bytes, row.last)
}

/// The row at the front, and what follows it.
#[inline]
fn first_row(bytes: &[u8]) -> (TermRow, &[u8])
    requires { BeginsWithRow bytes.now }
    ensures { ReadsRow bytes.now result.0 result.1.now }
{
    let (text, rest) = first_number(bytes);
    let (list, rest) = first_number(rest);
    let (documents, rest) = first_number(rest);
    let (last, rest) = first_number(rest);
    let row = TermRow {
        text,
        list,
        documents,
        last,
    };
    (row, rest)
}

/// Terms with their coded lists. Contracts see the list of their values.
///
/// A run may have a million terms. A piece of memory for each text and each list would take more than these do, so one
/// vector has all of them.
#[derive(Drop)]
pub(crate) struct CodedTerms {
    // of each term its coded row, its text and its list, one term behind another
    bytes: Vec<u8>,
}

impl Model for CodedTerms {
    ghost use Rattle.std.specs.Prelude.{List};
    ghost use Rattle.ix_run.specs.HeldTerms.{HoldTerms, terms_in};
    ghost use Rattle.ix_run.specs.Runs.{TermValue};

    ghost Value = { List TermValue };

    ghost view = { λ terms. terms_in terms.bytes.items };

    ghost invariant = { λ terms. HoldTerms terms.bytes.items (terms_in terms.bytes.items) };
}

impl CodedTerms {
    /// No terms, with room for that many bytes.
    pub(crate) fn with_room(alloc: Global, bytes: usize) -> Result<CodedTerms, Memory>
        ensures { IfOk result (λ terms. terms ≡ []) }
    {
        Ok(CodedTerms {
            bytes: Vec::with_capacity(alloc, bytes)?,
        })
    }

    /// Adds a term behind the others. Out of memory, also for a text or a list of 2^32 bytes or more, leaves them as they
    /// were.
    pub(crate) fn push(&mut self, term: CodedTerm<'_>) -> Result<(), Memory>
        ensures pushed { OnOk result (self.new ≡ self.old ++ term_shown term.entry ∷ []) }
        ensures kept { OnErr result (self.new ≡ self.old) }
    {
        let text = term.term.as_bytes();
        let row = TermRow {
            text: byte_count(text.len())?,
            list: byte_count(term.list.len())?,
            documents: term.documents,
            last: term.last,
        };
        push_term(&mut self.bytes, row, text, term.list)?;
        Ok(())
    }

    /// The same terms in no more memory than they take.
    pub(crate) fn fit(mut self) -> CodedTerms
        ensures { result ≡ self }
    {
        self.bytes.shrink_to_fit();
        self
    }

    /// A walk over the terms.
    pub(crate) fn walk(&self) -> TermWalk<'_>
        ensures { result ≡ self.now }
    {
        TermWalk {
            bytes: self.bytes.as_slice(),
        }
    }
}

/// A walk over coded terms, in order. Contracts see the terms that are left.
#[derive(Drop)]
pub(crate) struct TermWalk<'a> {
    bytes: &'a [u8],
}

impl<'a> Model for TermWalk<'a> {
    ghost use Rattle.std.specs.Prelude.{List};
    ghost use Rattle.ix_run.specs.HeldTerms.{HoldTerms, terms_in};
    ghost use Rattle.ix_run.specs.Runs.{TermValue};

    ghost Value = { List TermValue };

    ghost view = { λ walk. terms_in walk.bytes.now };

    ghost invariant = { λ walk. HoldTerms walk.bytes.now (terms_in walk.bytes.now) };
}

impl<'a> TermWalk<'a> {
    /// The next term, or none behind the last.
    #[inline]
    pub(crate) fn next(&mut self) -> Option<CodedTerm<'a>>
        ensures { MatchOption result ((self.old ≡ []) × (self.new ≡ []))
            (λ term. self.old ≡ term_shown term ∷ self.new) }
    {
        if self.bytes.is_empty() {
            return None;
        }
        let (row, rest) = first_row(self.bytes);
        let (text, rest) = rest.split_at(row.text as usize);
        let (list, rest) = rest.split_at(row.list as usize);
        self.bytes = rest;
        // SAFETY: `push` got these bytes as text, and so the invariant has them.
        let term = unsafe { str::from_utf8_unchecked(text) };
        Some(CodedTerm {
            term,
            documents: row.documents,
            last: row.last,
            list,
        })
    }
}

//! The scan of a dictionary.
ghost use Rattle.std.specs.Prelude.{◌≡◌, ◌≤◌, ◌<◌, ◌+◌, ◌^◌, ◌++◌, ◌↔◌, [], ℕ, List, Some, length, take, All, IfOk, IfErr, OnOk};
ghost use Rattle.ix_text.specs.Terms.{IsTerm};
ghost use Rattle.ix_lookup.specs.Dictionaries.{AreFoundAt, IsNoDictionary};
ghost use Rattle.ix_lookup.specs.FoundTerms.{HasAtMostOneMore, IsAdded, IsNoted};
ghost use Rattle.ix_lookup.specs.TermOrder.{IsBelow};
ghost use Rattle.ix_lookup.specs.declared.lookup_error.LookupError.TheVariants.{Malformed};

use crate::pieces::Pieces;
use crate::row::{Row, read_row};
use crate::{Dictionary, FoundTerm, LookupError, TermMatcher};
use ix_files::ReadAt;
use std::alloc::{AllocError, Global};

/// Finds the terms that a matcher looks for in the DICTIONARY of a source. Returns them in their order.
///
/// The section is read in pieces, up to the last term that can be looked for. What is in memory of it is one piece.
///
/// # Errors
/// * `Malformed` if the bytes are not a dictionary of that many terms and bytes of lists. Not every fault is detected.
/// * `Read` if a read of the source failed.
/// * `Memory` if out of memory.
pub fn find_terms<S: ReadAt, M: TermMatcher>(
    alloc: Global,
    source: &S,
    dictionary: &Dictionary,
    matcher: &mut M,
) -> Result<Vec<FoundTerm>, LookupError>
    requires begun { M.is_at matcher.old [] }
    requires room { dictionary.now.start + dictionary.now.size < 2 ^ 64 }
    ensures found { (bytes : List ℕ) → S.contents source.now ≡ Some bytes
        → IfOk result (λ found.
        AreFoundAt dictionary.now bytes (M.wants matcher.old) found.items) }
    ensures within { IfOk result (λ found.
        All (λ one. one.start + one.size ≤ dictionary.now.postings) found.items) }
    ensures few { IfOk result (λ found. length found.items ≤ dictionary.now.terms) }
    ensures refused { IfErr result (λ error. error ≡ Malformed → (bytes : List ℕ)
        → S.contents source.now ≡ Some bytes → IsNoDictionary dictionary.now bytes) }
{
    let mut pieces = Pieces::new(alloc, dictionary.start, dictionary.size);
    let mut found = Vec::new(alloc);
    let mut start = 0usize;
    for place in 0..dictionary.terms {
        pieces.fill(source)?;
        let Some(row) = read_row(dictionary.version, place, pieces.rest()) else {
            return Err(LookupError::Malformed);
        };
        if row.size as usize > dictionary.postings - start {
            return Err(LookupError::Malformed);
        }
        note(alloc, &mut found, matcher, &row, start)?;
        start += row.size as usize;
        let rest = row.rest.len();
        pieces.keep(rest);
        if matcher.is_past() {
            return Ok(found);
        }
    }
    pieces.fill(source)?;
    if !pieces.rest().is_empty() || start != dictionary.postings {
        return Err(LookupError::Malformed);
    }
    Ok(found)
}

/// Steps to the term of a row, whose list begins at `start`, and appends it if it is looked for.
#[inline]
fn note<M: TermMatcher>(
    alloc: Global,
    found: &mut Vec<FoundTerm>,
    matcher: &mut M,
    row: &Row<'_>,
    start: usize,
) -> Result<(), AllocError>
    ensures same { (term : List ℕ) → M.wants matcher.new term ↔ M.wants matcher.old term }
    ensures moved { (before : List ℕ) → M.is_at matcher.old before
        → row.now.shared ≤ length before
        → IsBelow before (take row.now.shared before ++ row.now.own.now)
        → OnOk result (M.is_at matcher.new (take row.now.shared before ++ row.now.own.now)) }
    ensures noted { (before : List ℕ) → M.is_at matcher.old before
        → row.now.shared ≤ length before
        → IsBelow before (take row.now.shared before ++ row.now.own.now)
        → IsTerm (take row.now.shared before ++ row.now.own.now)
        → OnOk result (IsNoted (M.wants matcher.old)
        (take row.now.shared before ++ row.now.own.now)
        row.now.documents start row.now.size found.old.items found.new.items) }
    ensures kept { OnOk result (HasAtMostOneMore row.now.documents start row.now.size
        found.old.items found.new.items) }
{
    if matcher.step(row.shared, row.own)? {
        add(alloc, found, matcher.term(), row, start)?;
    }
    Ok(())
}

/// Appends a term that was found, whose list begins at `start`.
#[cold]
fn add(
    alloc: Global,
    found: &mut Vec<FoundTerm>,
    term: &str,
    row: &Row<'_>,
    start: usize,
) -> Result<(), AllocError>
    ensures { OnOk result (IsAdded term.now row.now.documents start row.now.size
        found.old.items found.new.items) }
{
    found.push(FoundTerm {
        term: String::from_str(alloc, term)?,
        documents: row.documents,
        start,
        size: row.size,
    })?;
    Ok(())
}

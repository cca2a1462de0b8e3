//! What a query finds in one segment.
ghost use Rattle.std.specs.Prelude.{◌≡◌, ◌↔◌, ◌+◌, ◌<◌, All, IfErr, IfOk, IsTrue, length, min, MatchBool};
ghost use Rattle.std.specs.List.Sorted.{IsStrictlyIncreasing};
ghost use Rattle.ix_text.specs.Collections.{Collection};
ghost use Rattle.ix_index_text.specs.Sections.{Version};
ghost use Rattle.ix_file.specs.Opened.{IsIndexOf, names_of};
ghost use Rattle.ix_extract.specs.Projections.{HasIndexText};
ghost use Rattle.ix_projection.specs.Asked.{KeepsAsked};
ghost use Rattle.ix_projection.specs.Kept.{Test, kept_collection};
ghost use Rattle.ix_query_text.specs.Grammar.{Reads};
ghost use Rattle.ix_query_text.specs.declared.tree.Tree.{Tree as SeenTree};
ghost use Rattle.ix_ask.specs.NameLines.{name_lines};
ghost use Rattle.ix_archive.specs.Findings.{AreLeft, FindsIn, IsGoneFrom, RefusesFinding, error_of_extract, error_of_open};

use crate::{ArchiveError, ReadError};
use ix_ask::Lines;
use ix_extract::{ExtractError, extract_query};
use ix_file::{Index, OpenError};
use ix_files::ReadAt;
use ix_projection::scans_alike;
use ix_query::{Query, answer};
use ix_removals::Removals;
use std::alloc::{AllocError, Global};

/// What a query finds in the segment that a source has, whose documents count from `first` on, or from a number that is
/// larger yet. The file has this number.
///
/// # Errors
/// `Memory`; `Read`; `Query`; `Segment` if a part that was read is not as an index text has it.
pub(crate) fn find_in<S: ReadAt>(
    alloc: Global,
    source: &S,
    file: u64,
    removals: &Removals,
    first: u64,
    query: &str,
) -> Result<Lines, ReadError>
    ensures found { IfOk result (λ lines. (version : Version) (collection : Collection)
        → HasIndexText (S.contents source.now) version collection
        → FindsIn collection removals.now first query.now lines.bytes.items lines.count) }
    ensures refused { IfErr result (λ error. (version : Version) (collection : Collection)
        → HasIndexText (S.contents source.now) version collection
        → RefusesFinding collection.stop query.now error) }
{
    let text = match extract_query(alloc, source, query) {
        Ok(text) => text,
        Err(error) => return Err(of_extract(file, error)),
    };
    match Index::open(alloc, &text) {
        Ok(index) => find_left(alloc, &index, removals, first, query),
        Err(error) => Err(of_open(file, error)),
    }
}

/// The error of opening the segment of a file.
pub(crate) fn of_open(file: u64, error: OpenError) -> ReadError
    ensures { result ≡ error_of_open file error }
{
    match error {
        OpenError::Memory => ReadError::Memory,
        error => ReadError::Archive(ArchiveError::Segment(file, error)),
    }
}

/// The error of an extraction from the segment of a file.
fn of_extract(file: u64, error: ExtractError) -> ReadError
    ensures { result ≡ error_of_extract file error }
{
    match error {
        ExtractError::Memory => ReadError::Memory,
        ExtractError::Read => ReadError::Read,
        ExtractError::Query(error) => ReadError::Query(error),
        ExtractError::Index(error) => ReadError::Archive(ArchiveError::Segment(file, error)),
    }
}

/// What a query finds in the index of a segment, whose documents count from `first` on. It is also what it finds in each
/// collection that has more terms than the index, if the query asks about none of the others.
///
/// # Errors
/// `Memory`; `Query`.
pub(crate) fn find_left(
    alloc: Global,
    index: &Index<'_>,
    removals: &Removals,
    first: u64,
    query: &str,
) -> Result<Lines, ReadError>
    ensures found { IfOk result (λ lines. (version : Version) (collection : Collection)
        → IsIndexOf index.now version collection
        → FindsIn collection removals.now first query.now lines.bytes.items lines.count) }
    ensures fewer { IfOk result (λ lines. (version : Version) (collection : Collection)
        (keeps : Test) (tree : SeenTree)
        → IsIndexOf index.now version (kept_collection keeps collection)
        → Reads collection.stop query.now tree → KeepsAsked keeps collection tree
        → FindsIn collection removals.now first query.now lines.bytes.items lines.count) }
    ensures refused { IfErr result (λ error. (version : Version) (collection : Collection)
        → IsIndexOf index.now version collection
        → RefusesFinding collection.stop query.now error) }
{
    let query = Query::parse(alloc, query, index.stop())?;
    scans_alike(query.tree());
    let numbers = answer(alloc, index, &query)?;
    let left = leave_out(alloc, &numbers, index, removals, first)?;
    let bytes = name_lines_of(alloc, index, &left)?;
    let count = left.len();
    Ok(Lines { bytes, count })
}

/// The names of the documents of these numbers, each with LF.
fn name_lines_of(alloc: Global, index: &Index<'_>, numbers: &[u32]) -> Result<Vec<u8>, AllocError>
    requires { All (λ number. number < length index.now.parts.rows) numbers.now }
    ensures { IfOk result (λ lines.
        lines.items ≡ name_lines (names_of index.now.parts.rows) numbers.now) }
{
    let mut lines = Vec::new(alloc);
    for &number in numbers {
        lines.extend_from_slice(index.name(number).as_bytes())?;
        lines.push(b'\n')?;
    }
    Ok(lines)
}

/// The numbers of documents that are not removed, of ascending ones. A name is looked up only if there are removals.
fn leave_out(
    alloc: Global,
    numbers: &[u32],
    index: &Index<'_>,
    removals: &Removals,
    first: u64,
) -> Result<Vec<u32>, AllocError>
    requires { All (λ number. number < length index.now.parts.rows) numbers.now }
    ensures left { IfOk result (λ left. IsStrictlyIncreasing numbers.now
        → AreLeft (IsGoneFrom removals.now first (names_of index.now.parts.rows)) numbers.now
        left.items) }
    ensures below { IfOk result (λ left.
        All (λ number. number < length index.now.parts.rows) left.items) }
{
    let mut left = Vec::new(alloc);
    for &number in numbers {
        if !is_gone(index, removals, first, number) {
            left.push(number)?;
        }
    }
    Ok(left)
}

/// Whether the document of a number is removed, if the documents count from `first` on.
pub(crate) fn is_gone(index: &Index<'_>, removals: &Removals, first: u64, number: u32) -> bool
    requires { number < length index.now.parts.rows }
    ensures { MatchBool result
        (IsGoneFrom removals.now first (names_of index.now.parts.rows) number)
        (¬ (IsGoneFrom removals.now first (names_of index.now.parts.rows) number)) }
{
    if removals.len() == 0 {
        return false;
    }
    // No removal has a bound that is larger, so a number that does not fit is not below any.
    let place = first.saturating_add(u64::from(number));
    removals.is_removed(index.name(number), place)
}

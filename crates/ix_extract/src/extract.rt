//! From a source to the index text that answers a question.

ghost use Rattle.std.specs.Prelude.{◌≡◌, ◌≤◌, ◌↔◌, [], ℕ, List, length, All, IfErr, IfOk, IsTrue, string_bytes};
ghost use Rattle.ix_text.specs.Collections.{Collection};
ghost use Rattle.ix_gram.specs.Patterns.{Matches};
ghost use Rattle.ix_index_text.specs.Sections.{Version as FormatVersion};
ghost use Rattle.ix_extract.specs.Framed.{IsTrailerIn};
ghost use Rattle.ix_extract.specs.Projections.{HasIndexText, IsProjection, IsQueryProjection};
ghost use Rattle.ix_extract.specs.Refusals.{IsFaultSomewhere, IsOutside, IsQueryRefused, IsReadFault};
ghost use Rattle.ix_extract.specs.Trailers.{HasRoom};

use crate::ExtractError;
use crate::assemble::{assemble, stop_text};
use crate::query_matcher::{match_pattern, match_query};
use crate::trailer::{Trailer, read_trailer};
use ix_file::{Index, OpenError};
use ix_files::ReadAt;
use ix_gram::Pattern;
use ix_index_text::{FRAME_BYTES, MARK_BYTES, TRAILER_BYTES};
use ix_lookup::{Dictionary, FoundTerm, TermMatcher, find_terms};
use ix_query_text::Query;
use ix_text::MAX_TERM_BYTES;
use std::alloc::Global;

/// Reads of a source what a query asks about, and returns an index text of version 1 that has these terms alone: in the
/// collection of which it is, the query has the same answers.
///
/// The query is read under the stop list of the source's index text.
///
/// # Errors
/// `Memory`; `Read`; `Query` if the text is no query; `Index` if the source has the index text of no collection. Not
/// every fault of an index text is detected.
pub fn extract_query<S: ReadAt>(
    alloc: Global,
    source: &S,
    query: &str,
) -> Result<Vec<u8>, ExtractError>
    ensures extracted { (version : FormatVersion) (collection : Collection)
        → HasIndexText (S.contents source.now) version collection
        → IfOk result (λ text. IsQueryProjection collection query.now text.items) }
    ensures refused { IfErr result (λ error. (version : FormatVersion) (collection : Collection)
        → HasIndexText (S.contents source.now) version collection
        → IsQueryRefused collection query.now error) }
    ensures lawful { IfErr result (IsFaultSomewhere query.now) }
{
    let trailer = read_frame(alloc, source)?;
    let text = stop_text(alloc, source, &trailer)?;
    let index = Index::open(alloc, text.as_slice())?;
    let query = Query::parse(alloc, query, index.stop())?;
    let mut matcher = match_query(alloc, query.tree())?;
    extract(alloc, source, &trailer, &mut matcher)
}

/// Reads of a source what a pattern asks about, and returns an index text of version 1 that has these terms alone: in
/// the collection of which it is, the pattern matches the same terms.
///
/// # Errors
/// `Memory`; `Read`; `Index` if the source has the index text of no collection. Not every fault of an index text is
/// detected.
pub fn extract_pattern<S: ReadAt>(
    alloc: Global,
    source: &S,
    pattern: &Pattern,
) -> Result<Vec<u8>, ExtractError>
    ensures extracted { (version : FormatVersion) (collection : Collection)
        → HasIndexText (S.contents source.now) version collection → IfOk result
        (λ text. IsProjection collection (λ term. Matches term pattern.now) text.items) }
    ensures refused { IfErr result (IsReadFault (S.contents source.now)) }
{
    let trailer = read_frame(alloc, source)?;
    let mut matcher = match_pattern(alloc, pattern);
    extract(alloc, source, &trailer, &mut matcher)
}

/// Reads of a source its stop terms and its documents, and returns an index text of version 1 that has these alone: the
/// documents have their names and as many tokens, and no terms.
///
/// # Errors
/// `Memory`; `Read`; `Index` if the source has the index text of no collection. Not every fault of an index text is
/// detected.
pub fn extract_documents<S: ReadAt>(alloc: Global, source: &S) -> Result<Vec<u8>, ExtractError>
    ensures extracted { (version : FormatVersion) (collection : Collection)
        → HasIndexText (S.contents source.now) version collection
        → IfOk result (λ text. IsProjection collection (λ term. ⊥) text.items) }
    ensures refused { IfErr result (IsReadFault (S.contents source.now)) }
{
    let trailer = read_frame(alloc, source)?;
    let text = assemble(alloc, source, &trailer, &[])?;
    Ok(text)
}

/// Reads both ends of an index text. The size of the source is compared with those of the sections before any of them
/// is read.
///
/// # Errors
/// `Memory`; `Read`; `Index` if the source does not have the ends of an index text of its size.
fn read_frame<S: ReadAt>(alloc: Global, source: &S) -> Result<Trailer, ExtractError>
    ensures trailer { IfOk result (IsTrailerIn (S.contents source.now)) }
    ensures room { IfOk result HasRoom }
    ensures refused { IfErr result (IsReadFault (S.contents source.now)) }
{
    let size = source.size()?;
    if size < FRAME_BYTES {
        return Err(ExtractError::Index(OpenError::Short));
    }
    let mut frame = Vec::new(alloc);
    source.append_at(&mut frame, 0, MARK_BYTES)?;
    source.append_at(&mut frame, size - TRAILER_BYTES, TRAILER_BYTES)?;
    let trailer = read_trailer(frame.as_slice(), size - FRAME_BYTES)?;
    Ok(trailer)
}

/// Reads of a source the terms that a matcher looks for, and returns an index text of version 1 that has these alone.
///
/// # Errors
/// `Memory`; `Read`; `Index` if the source has the index text of no collection.
fn extract<S: ReadAt, M: TermMatcher>(
    alloc: Global,
    source: &S,
    trailer: &Trailer,
    matcher: &mut M,
) -> Result<Vec<u8>, ExtractError>
    requires begun { M.is_at matcher.old [] }
    requires trailer { IsTrailerIn (S.contents source.now) trailer.now }
    requires room { HasRoom trailer.now }
    ensures extracted { (version : FormatVersion) (collection : Collection)
        → HasIndexText (S.contents source.now) version collection
        → IfOk result (λ text. IsProjection collection (M.wants matcher.old) text.items) }
    ensures refused { IfErr result (IsReadFault (S.contents source.now)) }
{
    let dictionary = Dictionary {
        version: trailer.version,
        start: MARK_BYTES + trailer.postings + trailer.stop + trailer.documents,
        size: trailer.dictionary,
        terms: trailer.terms,
        postings: trailer.postings,
    };
    let found = find_terms(alloc, source, &dictionary, matcher)?;
    if !are_short(found.as_slice()) {
        return Err(ExtractError::Index(OpenError::TermSize));
    }
    let text = assemble(alloc, source, trailer, found.as_slice())?;
    Ok(text)
}

/// Whether each term is as short as terms are.
fn are_short(found: &[FoundTerm]) -> bool
    ensures { IsTrue result ↔ All (λ one. length (string_bytes one.term) ≤ 255) found.now }
{
    for one in found {
        if one.term.len() > MAX_TERM_BYTES as usize {
            return false;
        }
    }
    true
}

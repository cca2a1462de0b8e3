//! Questions to an index text: the documents that satisfy a query, and the terms that match a pattern.
ghost use Rattle.std.specs.Prelude.{◌≡◌, ◌≤◌, Err, IfErr, IfOk, MatchResult, Ok};
ghost use Rattle.ix_text.specs.Collections.{Collection};
ghost use Rattle.ix_file.specs.Opened.{IsIndexOf};
ghost use Rattle.ix_file.specs.Sections.{Version};
ghost use Rattle.ix_ask.specs.Listing.{IsListed as IsListedOf};
ghost use Rattle.ix_ask.specs.Searching.{IsFound};
ghost use Rattle.ix_ask.specs.declared.refusal.Area.TheVariants as area;
ghost use Rattle.ix_c.specs.Searching.{AreFoundIn, AreListedIn, IsListed, IsSearched};
ghost use Rattle.ix_c.specs.Searching.{RefusesFinding, RefusesListing, RefusesMatching, RefusesSearching};
ghost use Rattle.ix_c.specs.Telling.{IsNotUtf8, IsRefused};

use crate::found::{Found, answer, tell, tell_not_utf8};
use ix_ask::{Area, AskError, EngineRefusal, Lines, find_names, find_terms};
use ix_file::{Index, OpenError};
use std::alloc::Global;
use std::str::from_utf8;

/// The names of the documents of an index that satisfy a query, each with LF, under the stop words of the index.
///
/// Returns 0 with the names in `out`, as many of their bytes as it has room for; 1 with the error line there;
/// 2 if the query is not UTF-8, with `out` as it was. `ix_search` of `include/ix.h`.
#[unsafe(no_mangle)]
pub extern "C" fn ix_search(
    alloc: Global,
    index: &[u8],
    query: &[u8],
    out: &mut [u8],
    found: &mut Found,
) -> u32
    ensures status { result ≤ 2 }
    ensures searched { result ≡ 0 → IsSearched index.now query.now out.old out.new found.new }
    ensures refused { result ≡ 1 →
        IsRefused (RefusesSearching index.now query.now) out.old out.new found.new }
    ensures not_utf8 { result ≡ 2 → (out.new ≡ out.old) × IsNotUtf8 area.Query query.now found.new }
{
    let Ok(query) = from_utf8(query) else {
        return tell_not_utf8(Area::Query, found);
    };
    match search_in(alloc, index, query) {
        Ok(names) => answer(names.count, &names.bytes, out, found),
        Err(refusal) => tell(&refusal, out, found),
    }
}

/// What the index of an index text finds for a query.
fn search_in(alloc: Global, index: &[u8], query: &str) -> Result<Lines, EngineRefusal>
    ensures found { IfOk result (λ names. AreFoundIn index.now query.now
        names.bytes.items names.count) }
    ensures refused { IfErr result (RefusesSearching index.now query.now) }
{
    match index_or_refusal(Index::open(alloc, index)) {
        Ok(index) => find_in(alloc, &index, query),
        Err(refusal) => Err(refusal),
    }
}

/// What was opened, or its error as that of the engine.
pub(crate) fn index_or_refusal<T>(opened: Result<T, OpenError>) -> Result<T, EngineRefusal>
    ensures { MatchResult opened
        (λ index. result ≡ Ok index)
        (λ error. result ≡ Err (EngineRefusal.Index error)) }
{
    match opened {
        Ok(index) => Ok(index),
        Err(error) => Err(EngineRefusal::Index(error)),
    }
}

/// What an opened index finds for a query.
pub(crate) fn find_in(alloc: Global, index: &Index<'_>, query: &str) -> Result<Lines, EngineRefusal>
    ensures found { IfOk result (λ names. (version : Version) (collection : Collection)
        → IsIndexOf index.now version collection
        → IsFound collection query.now names.bytes.items names.count) }
    ensures refused { IfErr result (λ reason. (version : Version) (collection : Collection)
        → IsIndexOf index.now version collection
        → RefusesFinding collection query.now reason) }
{
    match find_names(alloc, index, query) {
        Ok(names) => Ok(names),
        Err(AskError::Query(error)) => Err(EngineRefusal::Query(error)),
        Err(_) => Err(EngineRefusal::Memory),
    }
}

/// The terms of an index that match a pattern, each with a TAB, in how many documents it is, and LF.
///
/// Returns 0 with the lines in `out`, as many of their bytes as it has room for; 1 with the error line there;
/// 2 if the pattern is not UTF-8, with `out` as it was. `ix_terms` of `include/ix.h`.
#[unsafe(no_mangle)]
pub extern "C" fn ix_terms(
    alloc: Global,
    index: &[u8],
    pattern: &[u8],
    out: &mut [u8],
    found: &mut Found,
) -> u32
    ensures status { result ≤ 2 }
    ensures listed { result ≡ 0 → IsListed index.now pattern.now out.old out.new found.new }
    ensures refused { result ≡ 1 →
        IsRefused (RefusesListing index.now pattern.now) out.old out.new found.new }
    ensures not_utf8 { result ≡ 2 →
        (out.new ≡ out.old) × IsNotUtf8 area.Pattern pattern.now found.new }
{
    let Ok(pattern) = from_utf8(pattern) else {
        return tell_not_utf8(Area::Pattern, found);
    };
    match list_in(alloc, index, pattern) {
        Ok(rows) => answer(rows.count, &rows.bytes, out, found),
        Err(refusal) => tell(&refusal, out, found),
    }
}

/// The lines of the terms of the index of an index text that match a pattern.
fn list_in(alloc: Global, index: &[u8], pattern: &str) -> Result<Lines, EngineRefusal>
    ensures listed { IfOk result (λ rows. AreListedIn index.now pattern.now
        rows.bytes.items rows.count) }
    ensures refused { IfErr result (RefusesListing index.now pattern.now) }
{
    match index_or_refusal(Index::open(alloc, index)) {
        Ok(index) => match_in(alloc, &index, pattern),
        Err(refusal) => Err(refusal),
    }
}

/// The lines of the terms of an opened index that match a pattern.
pub(crate) fn match_in(
    alloc: Global,
    index: &Index<'_>,
    pattern: &str,
) -> Result<Lines, EngineRefusal>
    ensures listed { IfOk result (λ rows. (version : Version) (collection : Collection)
        → IsIndexOf index.now version collection
        → IsListedOf collection pattern.now rows.bytes.items rows.count) }
    ensures refused { IfErr result (RefusesMatching pattern.now) }
{
    match find_terms(alloc, index, pattern) {
        Ok(rows) => Ok(rows),
        Err(AskError::Pattern(error)) => Err(EngineRefusal::Pattern(error)),
        Err(_) => Err(EngineRefusal::Memory),
    }
}

//! Questions to an index text that nobody has checked: only what a question needs is read.
ghost use Rattle.std.specs.Prelude.{◌≡◌, ◌≢◌, IfOk, IfErr};
ghost use Rattle.std.specs.Io.KnownBytes.{Keeps};
ghost use Rattle.ix_text.specs.Collections.{Collection, IsLawful};
ghost use Rattle.ix_file.specs.Sections.{Version};
ghost use Rattle.ix_extract.specs.Projections.{HasIndexText};
ghost use Rattle.ix_ask.specs.Listing.{IsListed, IsPrinted, RefusesPattern};
ghost use Rattle.ix_ask.specs.Searching.{IsFound, IsSearched, RefusesQuery};
ghost use Rattle.ix_ask.specs.Trusting.{LeavesTrusting, LeavesTrustingListing, RefusesTrusting};
ghost use Rattle.ix_ask.specs.declared.ask_error.AskError.TheVariants as asking;
ghost use Rattle.ix_ask.specs.declared.trust_error.TrustError.TheVariants.{Ask};

use crate::ask_error::AskError;
use crate::list_index::{find_terms, read_pattern};
use crate::output::{Lines, write_whole};
use crate::search_index::find_names;
use crate::trust_error::TrustError;
use ix_extract::{extract_pattern, extract_query};
use ix_file::Index;
use ix_files::ReadAt;
use ix_output::WriteError;
use std::alloc::Global;
use std::io::Write;

/// Writes what [`search`](crate::search) writes of the index, if the source has an index text. Only the front mark, the
/// trailer, STOP, DOCS, the terms up to the last one that the query asks about and the lists of those that it asks about
/// are read. STOP, DOCS, these terms and their lists are checked as an index is opened; the other terms that are read are
/// only parsed.
///
/// # Errors
/// Those of `search`; `Read`; `Open` if a part that was checked is not as an index text has it.
pub fn search_trusting<S: ReadAt, W: Write>(
    alloc: Global,
    source: &S,
    query: &str,
    out: &mut W,
) -> Result<usize, TrustError>
    ensures answered { IfOk result (λ count. (version : Version) (collection : Collection)
        → HasIndexText (S.contents source.now) version collection
        → IsSearched collection query.now (W.contents out.old) (W.contents out.new) count) }
    ensures lawful { IfOk result (λ count. (collection : Collection) × IsLawful collection
        × IsSearched collection query.now (W.contents out.old) (W.contents out.new) count) }
    ensures refused { IfErr result (λ error. (version : Version) (collection : Collection)
        → HasIndexText (S.contents source.now) version collection
        → LeavesTrusting collection query.now (W.contents out.old) (W.contents out.new) error) }
    ensures kept { IfErr result (λ error. error ≢ Ask asking.Write
        → Keeps (W.contents out.old) (W.contents out.new)) }
{
    let names = find_names_trusting(alloc, source, query)?;
    match write_whole(out, &names.bytes) {
        Ok(()) => Ok(names.count),
        Err(WriteError::Write) => Err(TrustError::Ask(AskError::Write)),
    }
}

/// The names of the documents that satisfy the query, if the source has an index text.
///
/// # Errors
/// Those of [`search_trusting`] but `Write`.
pub fn find_names_trusting<S: ReadAt>(
    alloc: Global,
    source: &S,
    query: &str,
) -> Result<Lines, TrustError>
    ensures found { IfOk result (λ names. (version : Version) (collection : Collection)
        → HasIndexText (S.contents source.now) version collection
        → IsFound collection query.now names.bytes.items names.count) }
    ensures lawful { IfOk result (λ names. (collection : Collection) × IsLawful collection
        × IsFound collection query.now names.bytes.items names.count) }
    ensures refused { IfErr result (λ error. (version : Version) (collection : Collection)
        → HasIndexText (S.contents source.now) version collection
        → RefusesTrusting (RefusesQuery collection query.now) error) }
{
    let text = extract_query(alloc, source, query)?;
    let index = Index::open(alloc, &text)?;
    let names = find_names(alloc, &index, query)?;
    Ok(names)
}

/// Writes what [`list_terms`](crate::list_terms) writes of the index, if the source has an index text. Only the front
/// mark, the trailer, STOP, DOCS, the terms up to the last one that can match and the lists of those that match are read.
/// They are checked as in [`search_trusting`].
///
/// # Errors
/// Those of `list_terms`; `Read`; `Open` if a part that was checked is not as an index text has it.
pub fn list_terms_trusting<S: ReadAt, W: Write>(
    alloc: Global,
    source: &S,
    pattern: &str,
    out: &mut W,
) -> Result<usize, TrustError>
    ensures printed { IfOk result (λ count. (version : Version) (collection : Collection)
        → HasIndexText (S.contents source.now) version collection
        → IsPrinted collection pattern.now (W.contents out.old) (W.contents out.new) count) }
    ensures lawful { IfOk result (λ count. (collection : Collection) × IsLawful collection
        × IsPrinted collection pattern.now (W.contents out.old) (W.contents out.new) count) }
    ensures refused { IfErr result (λ error. (version : Version) (collection : Collection)
        → HasIndexText (S.contents source.now) version collection
        → LeavesTrustingListing collection pattern.now (W.contents out.old)
        (W.contents out.new) error) }
    ensures kept { IfErr result (λ error. error ≢ Ask asking.Write
        → Keeps (W.contents out.old) (W.contents out.new)) }
{
    let rows = find_terms_trusting(alloc, source, pattern)?;
    match write_whole(out, &rows.bytes) {
        Ok(()) => Ok(rows.count),
        Err(WriteError::Write) => Err(TrustError::Ask(AskError::Write)),
    }
}

/// The lines of the terms that match the pattern, if the source has an index text.
///
/// # Errors
/// Those of [`list_terms_trusting`] but `Write`.
pub fn find_terms_trusting<S: ReadAt>(
    alloc: Global,
    source: &S,
    pattern: &str,
) -> Result<Lines, TrustError>
    ensures listed { IfOk result (λ rows. (version : Version) (collection : Collection)
        → HasIndexText (S.contents source.now) version collection
        → IsListed collection pattern.now rows.bytes.items rows.count) }
    ensures lawful { IfOk result (λ rows. (collection : Collection) × IsLawful collection
        × IsListed collection pattern.now rows.bytes.items rows.count) }
    ensures refused { IfErr result (λ error. (version : Version) (collection : Collection)
        → HasIndexText (S.contents source.now) version collection
        → RefusesTrusting (RefusesPattern pattern.now) error) }
{
    let pieces = read_pattern(alloc, pattern)?;
    let text = extract_pattern(alloc, source, &pieces)?;
    let index = Index::open(alloc, &text)?;
    let rows = find_terms(alloc, &index, pattern)?;
    Ok(rows)
}

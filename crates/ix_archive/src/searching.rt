//! What a query finds in an archive.
ghost use Rattle.std.specs.Prelude.{◌≡◌, ◌⊎◌, ◌<◌, ℕ, Err, Result, length, slice_index_or, Contains, IfErr, IfOk};
ghost use Rattle.ix_ask.specs.declared.output.Lines.{Lines as SeenLines};
ghost use Rattle.ix_archive.specs.Archives.{Archive, IsArchiveFound};
ghost use Rattle.ix_archive.specs.Findings.{RefusesFinding};
ghost use Rattle.ix_archive.specs.OpenedArchives.{AnswersAt, IsOpenedArchive, first_after};
ghost use Rattle.ix_archive.specs.declared.read_error.ReadError.{ReadError as SeenError};
ghost use Rattle.ix_archive.specs.declared.read_error.ReadError.TheVariants.{Memory};
ghost use Rattle.ix_archive.specs.PartsOfAnswers.{AreJoined};

use crate::finding::find_in;
use crate::{Opened, ReadError};
use ix_ask::Lines;
use ix_files::ReadAt;
use ix_manifest::Segment;
use std::alloc::{AllocError, Global};
use std::thread::{Threads, map_indices};

/// The names of the documents that satisfy a query and are not removed, each with LF, in the order of the documents. Of
/// each segment only what the query asks about is read; the segments are asked side by side, in several threads if there
/// may be several.
///
/// # Errors
/// `Memory`; `Read`; `Query`; `Archive` with `Segment` if a part that was read is not as an index text has it.
pub fn find<R: Threads + Sync, S: ReadAt + Sync>(
    rt: &R,
    alloc: Global,
    opened: &Opened<S>,
    query: &str,
) -> Result<Lines, ReadError>
    ensures found { IfOk result (λ lines. (archive : Archive)
        → IsOpenedArchive S.contents archive opened.now
        → IsArchiveFound archive query.now lines.bytes.items lines.count) }
    ensures refused { IfErr result (λ error. (archive : Archive)
        → IsOpenedArchive S.contents archive opened.now
        → RefusesFinding archive.stop query.now error) }
{
    let parts = ask_all(rt, alloc, opened, query)?;
    join_parts(alloc, &parts)
}

/// What a query finds in each segment.
fn ask_all<R: Threads + Sync, S: ReadAt + Sync>(
    rt: &R,
    alloc: Global,
    opened: &Opened<S>,
    query: &str,
) -> Result<Vec<Result<Lines, ReadError>>, AllocError>
    ensures all { IfOk result (λ parts.
        length parts.items ≡ length opened.now.sources.items) }
    ensures each { IfOk result (λ parts. (place : ℕ) (d : Result SeenLines SeenError)
        → place < length opened.now.sources.items
        → AnswersAt S.contents opened.now place query.now (slice_index_or parts.items place d)) }
{
    let ask = |place: usize| -> Result<Lines, ReadError>
        requires { place < length opened.now.sources.items }
        ensures { AnswersAt S.contents opened.entry.now place query.entry.now result }
    { find_at(alloc, opened, place, query) };
    map_indices(rt, alloc, opened.sources.len(), &ask)
}

/// What a query finds in the segment of a place.
fn find_at<S: ReadAt>(
    alloc: Global,
    opened: &Opened<S>,
    place: usize,
    query: &str,
) -> Result<Lines, ReadError>
    requires { place < length opened.now.sources.items }
    ensures { AnswersAt S.contents opened.now place query.now result }
{
    let file = opened.manifest.segments[place].file;
    let first = first_behind(&opened.manifest.segments[..place]);
    find_in(
        alloc,
        &opened.sources[place],
        file,
        &opened.removals,
        first,
        query,
    )
}

/// How many documents segments have, or the largest number if that is fewer.
pub(crate) fn first_behind(segments: &[Segment]) -> u64
    ensures { result ≡ first_after segments.now }
{
    let mut first = 0u64;
    for segment in segments {
        first = first.saturating_add(u64::from(segment.documents));
    }
    first
}

/// The lines of all parts, one behind another, or the error of the first part that has one.
fn join_parts(alloc: Global, parts: &[Result<Lines, ReadError>]) -> Result<Lines, ReadError>
    ensures joined { IfOk result (AreJoined parts.now) }
    ensures refused { IfErr result (λ error.
        (error ≡ Memory) ⊎ Contains parts.now (Err error)) }
{
    let mut bytes = Vec::new(alloc);
    let mut count = 0usize;
    for part in parts {
        match part {
            Ok(lines) => {
                bytes.extend_from_slice(&lines.bytes)?;
                // So many lines have no room in memory.
                count = count.checked_add(lines.count).ok_or(ReadError::Memory)?;
            }
            Err(error) => return Err(*error),
        }
    }
    Ok(Lines { bytes, count })
}

//! The documents of an archive that a removal takes.

ghost use Rattle.std.specs.Prelude.{◌≡◌, ◌+◌, ◌<◌, ◌^◌, ◌++◌, List, ℕ, IfOk, OnOk, length, map, string_bytes};
ghost use Rattle.ix_files.specs.Locations.{place_of};
ghost use Rattle.ix_files.specs.Slots.{Kept};
ghost use Rattle.ix_text.specs.Collections.{Document};
ghost use Rattle.ix_folder.specs.Standings.{AreKept};
ghost use Rattle.ix_removals.specs.RemovalsText.{Removal};
ghost use Rattle.ix_archive.specs.Archives.{joined};
ghost use Rattle.ix_archive.specs.Folders.{segment_files, segment_place};
ghost use Rattle.ix_archive.specs.Layouts.{AreSegmentsOf, IsSegmentOf};
ghost use Rattle.ix_archive_writer.specs.Changes.{names_in, texts_in};
ghost use Rattle.ix_archive_writer.specs.Takings.{AreTaken, AsksFor};

use crate::ChangeError;
use crate::documents::read_documents;
use crate::removals::removals_with;
use crate::taking::take_names;
use ix_archive::{ArchiveError, segment_at};
use ix_file::Index;
use ix_files::Files;
use ix_manifest::Segment;
use ix_removals::Removals;
use std::alloc::Global;

/// The names of the documents that have one of these names and are not removed, and the number of all documents.
pub(crate) fn find_taken<F: Files>(
    alloc: Global,
    files: &F,
    folder: &str,
    segments: &[Segment],
    names: &[&str],
    removed: &Removals,
) -> Result<(Vec<String>, u64), ChangeError>
    ensures small { IfOk result (λ found. found.1 < 2 ^ 64) }
    ensures found { IfOk result (λ found. (F.view files.now).honest
        → (stop : List (List ℕ)) (texts : List (List ℕ)) (lists : List (List Document))
        → AreSegmentsOf stop segments.now texts lists
        → AreKept (segment_files folder.now segments.now texts) (F.view files.now).slots
        → (asked : List Removal) × AsksFor (texts_in names.now) asked
        × AreTaken asked removed.now (names_in (joined lists)) (map string_bytes found.0.items)
        × (found.1 ≡ length (joined lists))) }
{
    let none = Removals::new(alloc);
    let asked = removals_with(alloc, &none, names, u64::MAX)?;
    find_asked(alloc, files, folder, segments, &asked, removed)
}

/// The names of the documents that are asked for and not removed, and the number of all documents.
fn find_asked<F: Files>(
    alloc: Global,
    files: &F,
    folder: &str,
    segments: &[Segment],
    asked: &Removals,
    removed: &Removals,
) -> Result<(Vec<String>, u64), ChangeError>
    ensures small { IfOk result (λ found. found.1 < 2 ^ 64) }
    ensures found { IfOk result (λ found. (F.view files.now).honest
        → (stop : List (List ℕ)) (texts : List (List ℕ)) (lists : List (List Document))
        → AreSegmentsOf stop segments.now texts lists
        → AreKept (segment_files folder.now segments.now texts) (F.view files.now).slots
        → AreTaken asked.now removed.now (names_in (joined lists))
        (map string_bytes found.0.items)
        × (found.1 ≡ length (joined lists))) }
{
    let mut taken = Vec::new(alloc);
    let mut next = 0;
    for segment in segments {
        next = take_segment(
            alloc, files, folder, segment, next, asked, removed, &mut taken,
        )?;
    }
    Ok((taken, next))
}

/// Appends the names of those documents of a segment, whose numbers are from `first` on, and returns the number behind them.
fn take_segment<F: Files>(
    alloc: Global,
    files: &F,
    folder: &str,
    segment: &Segment,
    first: u64,
    asked: &Removals,
    removed: &Removals,
    taken: &mut Vec<String>,
) -> Result<u64, ChangeError>
    ensures small { IfOk result (λ next. next < 2 ^ 64) }
    ensures taken { IfOk result (λ next. (F.view files.now).honest
        → (stop : List (List ℕ)) (text : List ℕ) (documents : List Document)
        → ((F.view files.now).slots (segment_place folder.now segment.now.file)).now ≡ Kept text
        → IsSegmentOf stop segment.now text documents
        → (before : List (List ℕ)) → length before ≡ first
        → AreTaken asked.now removed.now before (map string_bytes taken.old.items)
        → AreTaken asked.now removed.now (before ++ names_in documents)
        (map string_bytes taken.new.items)
        × (next ≡ first + length documents)) }
{
    let at = segment_at(alloc, folder, segment.file)?;
    let text = read_documents(alloc, files, &at, segment)?;
    let index = match Index::open(alloc, text.as_slice()) {
        Ok(index) => index,
        Err(error) => return Err(ChangeError::of_segment(segment.file, error)),
    };
    let Some(next) = first.checked_add(u64::from(index.doc_count())) else {
        return Err(ChangeError::Archive(ArchiveError::TooLarge));
    };
    take_names(alloc, &index, first, asked, removed, taken)?;
    Ok(next)
}

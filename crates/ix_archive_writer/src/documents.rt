//! What is read of a segment's file by ranges: its stop terms, and the names of its documents.

ghost use Rattle.std.specs.Prelude.{◌≡◌, ◌+◌, ◌++◌, ℕ, List, length, map, IfOk, OnOk, string_bytes};
ghost use Rattle.ix_files.specs.Locations.{place_of};
ghost use Rattle.ix_files.specs.Slots.{Kept};
ghost use Rattle.ix_text.specs.Collections.{Document};
ghost use Rattle.ix_extract.specs.Projections.{IsProjection};
ghost use Rattle.ix_scan.specs.ScansWithout.{of_documents};
ghost use Rattle.ix_archive.specs.Layouts.{IsSegmentOf};

use crate::ChangeError;
use ix_archive::ArchiveError;
use ix_extract::extract_documents;
use ix_file::Index;
use ix_files::{Files, Location};
use ix_manifest::Segment;
use ix_text::StopList;
use std::alloc::Global;

/// The index text of a segment without its terms.
pub(crate) fn read_documents<F: Files>(
    alloc: Global,
    files: &F,
    at: &Location,
    segment: &Segment,
) -> Result<Vec<u8>, ChangeError>
    ensures { IfOk result (λ read. (F.view files.now).honest
        → (stop : List (List ℕ)) (documents : List Document) (text : List ℕ)
        → ((F.view files.now).slots (place_of at.now)).now ≡ Kept text
        → IsSegmentOf stop segment.now text documents
        → IsProjection (of_documents stop documents) (λ term. ⊥) read.items) }
{
    let Some(source) = files.open_at(at)? else {
        return Err(ChangeError::Archive(ArchiveError::Missing(segment.file)));
    };
    match extract_documents(alloc, &source) {
        Ok(text) => Ok(text),
        Err(error) => Err(ChangeError::of_documents(segment.file, error)),
    }
}

/// The stop terms of a segment.
pub(crate) fn read_stop<F: Files>(
    alloc: Global,
    files: &F,
    at: &Location,
    segment: &Segment,
) -> Result<StopList, ChangeError>
    ensures { IfOk result (λ read. (F.view files.now).honest
        → (stop : List (List ℕ)) (documents : List Document) (text : List ℕ)
        → ((F.view files.now).slots (place_of at.now)).now ≡ Kept text
        → IsSegmentOf stop segment.now text documents → read ≡ stop) }
{
    let text = read_documents(alloc, files, at, segment)?;
    match Index::open(alloc, text.as_slice()) {
        Ok(index) => Ok(index.stop().copy(alloc)?),
        Err(error) => Err(ChangeError::of_segment(segment.file, error)),
    }
}

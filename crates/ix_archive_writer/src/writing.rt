//! New files of an archive.

ghost use Rattle.std.specs.Prelude.{◌≡◌, ◌+◌, ◌<◌, ◌≤◌, ◌^◌, ℕ, List, Some, length, IfOk, OnOk, string_bytes};
ghost use Rattle.hex.specs.Hex.{IsBytes};
ghost use Rattle.sha2.specs.Sha256.{sha256};
ghost use Rattle.ix_files.specs.Changes.{ChangesOnly};
ghost use Rattle.ix_files.specs.Locations.{place_of};
ghost use Rattle.ix_files.specs.Slots.{Kept};
ghost use Rattle.ix_files.specs.Views.{GoesOn};
ghost use Rattle.ix_text.specs.Collections.{NamedText};
ghost use Rattle.ix_build.specs.RunPieces.{AreRunsOfTexts};
ghost use Rattle.ix_manifest.specs.ManifestText.{manifest_text, view_of};
ghost use Rattle.ix_archive_writer.specs.Changes.{IsFit, IsNewSegment, IsWritten, documents_under, with_segment};

use crate::ChangeError;
use crate::digest::{Digested, digest_at};
use ix_build::InvertedBlocks;
use ix_files::{Files, Location};
use ix_folder::{begin_file, drop_file, end_file};
use ix_manifest::{Manifest, Segment};
use std::alloc::{AllocError, Global};

/// Writes the index text of the collection of which the blocks have the runs, as the segment of the next file. After an error
/// the file is removed.
pub(crate) fn write_blocks<F: Files>(
    alloc: Global,
    files: &mut F,
    at: &Location,
    file: u64,
    blocks: InvertedBlocks,
    documents: u32,
) -> Result<Segment, ChangeError>
    requires { documents ≤ 2 ^ 28 }
    ensures fit { IfOk result (IsNewSegment file documents) }
    ensures written { IfOk result (λ segment. (F.view files.new).honest
        → (stop : List (List ℕ)) (texts : List NamedText) → AreRunsOfTexts stop texts blocks
        → documents ≡ length texts
        → IsWritten stop segment (documents_under stop texts)
        ((F.view files.new).slots (place_of at.now)).now) }
    ensures changes { ChangesOnly (λ place. place ≡ place_of at.now) (F.view files.old)
        (F.view files.new) }
    ensures goes_on { GoesOn (F.view files.old) (F.view files.new) }
{
    let mut writer = begin_file(files, at)?;
    match blocks.merge_into(alloc, &mut writer) {
        Ok(()) => end_segment(alloc, files, at, file, writer, documents),
        Err(error) => {
            drop_file(files, at);
            Err(ChangeError::Build(error))
        }
    }
}

/// Ends the file of a segment. After an error it is removed.
fn end_segment<F: Files>(
    alloc: Global,
    files: &mut F,
    at: &Location,
    file: u64,
    writer: F::Writer,
    documents: u32,
) -> Result<Segment, ChangeError>
    requires { documents ≤ 2 ^ 28 }
    ensures fit { IfOk result (IsNewSegment file documents) }
    ensures kept { IfOk result (λ segment. (F.view files.new).honest
        → (text : List ℕ) → F.Writer.contents writer ≡ Some text
        → ((F.view files.new).slots (place_of at.now)).now ≡ Kept text) }
    ensures digested { IfOk result (λ segment. (F.view files.new).honest
        → (text : List ℕ) → F.Writer.contents writer ≡ Some text
        → (segment.bytes ≡ length text) × (segment.digest ≡ sha256 text)) }
    ensures changes { ChangesOnly (λ place. place ≡ place_of at.now) (F.view files.old)
        (F.view files.new) }
    ensures goes_on { GoesOn (F.view files.old) (F.view files.new) }
{
    match keep_segment(alloc, files, at, file, writer, documents) {
        Ok(segment) => Ok(segment),
        Err(error) => {
            drop_file(files, at);
            Err(error)
        }
    }
}

/// Ends the file of a segment, and reads its bytes for their digest.
fn keep_segment<F: Files>(
    alloc: Global,
    files: &mut F,
    at: &Location,
    file: u64,
    writer: F::Writer,
    documents: u32,
) -> Result<Segment, ChangeError>
    requires { documents ≤ 2 ^ 28 }
    ensures fit { IfOk result (IsNewSegment file documents) }
    ensures kept { IfOk result (λ segment. (F.view files.new).honest
        → (text : List ℕ) → F.Writer.contents writer ≡ Some text
        → ((F.view files.new).slots (place_of at.now)).now ≡ Kept text) }
    ensures digested { IfOk result (λ segment. (F.view files.new).honest
        → (text : List ℕ) → F.Writer.contents writer ≡ Some text
        → (segment.bytes ≡ length text) × (segment.digest ≡ sha256 text)) }
    ensures changes { ChangesOnly (λ place. place ≡ place_of at.now) (F.view files.old)
        (F.view files.new) }
    ensures goes_on { GoesOn (F.view files.old) (F.view files.new) }
{
    end_file(files, at, writer)?;
    match digest_at(alloc, files, at) {
        Ok(Some(digested)) => Ok(segment_of(file, documents, digested)),
        Ok(None) => Err(ChangeError::Read),
        Err(error) => Err(ChangeError::of_read(error)),
    }
}

/// The segment of a file with these documents.
fn segment_of(file: u64, documents: u32, digested: Digested) -> Segment
    requires { documents ≤ 2 ^ 28 }
    ensures new { IsNewSegment file documents result }
    ensures bytes { result.bytes ≡ digested.bytes }
    ensures digest { result.digest ≡ digested.digest }
{
    let Digested { bytes, digest } = digested;
    note_octets(&digest);
    Segment {
        file,
        documents,
        bytes,
        digest,
    }
}

/// States that the elements of a digest are bytes. A proof has this fact at a call that takes the array.
pub(crate) fn note_octets(_digest: &[u8; 32])
    requires { IsBytes _digest.now }
    ensures { IsBytes _digest.now }
{}

/// The text of a manifest with one segment more.
pub(crate) fn text_with_segment(
    alloc: Global,
    mut manifest: Manifest,
    segment: Segment,
) -> Result<String, AllocError>
    requires { manifest.next + 1 < 2 ^ 64 }
    ensures { IfOk result (λ text. string_bytes text
        ≡ manifest_text (with_segment (view_of manifest) segment)) }
{
    manifest.segments.push(segment)?;
    manifest.next += 1;
    manifest.text(alloc)
}

//! The merge of sources into an index text.
ghost use Rattle.std.specs.Prelude.{◌≡◌, ◌^◌, ◌<◌, ℕ, Some, None, All, IfErr, OnErr, OnOk, length, map};
ghost use Rattle.std.specs.Io.KnownBytes.{Keeps};
ghost use Rattle.ix_run.specs.Sources.{IsUnread};
ghost use Rattle.ix_file.specs.Rows.{document_row};
ghost use Rattle.ix_file.specs.Writers.{IsReady, sink, sink_name};
ghost use Rattle.ix_merge.specs.Covers.{IsGap, IsOverlap};
ghost use Rattle.ix_merge.specs.Beginnings.{BeginsWith};
ghost use Rattle.ix_merge.specs.Pieces.{LeavesFront, LeavesYieldedPart, WritesConcatenation};
ghost use Rattle.ix_merge.specs.Refusals.{AreMergeable, AreTooLarge, DifferInStop, HaveOneStop, IsEarly, IsOrMemory, IsRefusal, TellsFault};

use crate::MergeError;
use crate::overview::collect_rows;
use crate::terms::merge_terms;
use crate::turn::put_error;
use ix_file::{DocRow, IndexWriter};
use ix_run::Source;
use ix_text::StopList;
use std::alloc::Global;
use std::io::Write;

/// Merges sources into the index text, version 2, of the concatenation of what they yield: the documents of all of
/// them, by number, under their common stop terms (IIR 4.3). The sources may come in any order, and nothing was read from
/// them yet. A source with n documents covers n numbers, its first one and those that follow; one without documents
/// covers none, but its stop terms count. No sources give the empty collection without stop terms.
///
/// # Errors
///
/// The first that applies of the first four, before anything is written:
///
/// * `Gap(number)`, `Overlap(number)`: no source covers the number, or several do; it is the lowest such number below the
///   greatest that a source covers.
/// * `StopDiffers`: two sources have different stop terms.
/// * `TooLarge`: the sources have more than 2^28 tokens.
///
/// Then, with a prefix written, perhaps nothing of it, of the index text of the concatenation of what the sources may yield, if
/// each is sure to yield something, as runs in memory, indexes and run texts of lawful collections are, and all of it only after
/// `Write`; else of the index text of some collection with the heads of the sources:
///
/// * `Source(place, error)`: the source at this place of the list returned `error`.
/// * `Write`: a write or the flush failed.
///
/// * `Memory`: out of memory, at any time.
pub fn merge<S: Source + Drop, W: Write>(
    alloc: Global,
    mut sources: Vec<S>,
    out: &mut W,
) -> Result<(), MergeError<S::Error>>
    requires unread { All (IsUnread S.gives) sources.items }

    ensures written { OnOk result (WritesConcatenation S.yields S.heading sources.items
        (W.contents out.old) (W.contents out.new)) }
    ensures mergeable { OnOk result (AreMergeable (map S.heading sources.items)) }

    // Which error comes.
    ensures gap { (number : ℕ) → IsGap (map S.heading sources.items) number
        → IsOrMemory result (MergeError.Gap number) }
    ensures overlap { (number : ℕ) → IsOverlap (map S.heading sources.items) number
        → IsOrMemory result (MergeError.Overlap number) }
    ensures stop_differs { DifferInStop (map S.heading sources.items)
        → IsOrMemory result MergeError.StopDiffers }
    ensures too_large { AreTooLarge (map S.heading sources.items)
        → IsOrMemory result MergeError.TooLarge }
    ensures refused { IfErr result (IsRefusal (map S.heading sources.items)) }
    ensures fault { IfErr result (TellsFault S.faults sources.items) }

    // What an error leaves.
    ensures early { IfErr result (λ error. IsEarly error
        → Keeps (W.contents out.old) (W.contents out.new)) }
    ensures front { OnErr result (LeavesFront (map S.heading sources.items)
        (W.contents out.old) (W.contents out.new)) }
    ensures unfinished { All S.sure sources.items
        → IfErr result (λ error. LeavesYieldedPart S.yields S.heading sources.items
        (W.contents out.old) (W.contents out.new) (error ≡ MergeError.Write)) }
{
    let mut writer = {
        let rows = collect_rows(alloc, sources.as_slice())?;
        begin(alloc, sources.as_slice(), rows.as_slice(), out)
    };
    if !writer.is_ready() {
        return Err(MergeError::Memory);
    }
    merge_terms(alloc, sources.as_mut_slice(), &mut writer)?;
    match writer.finish() {
        Ok(()) => Ok(()),
        Err(error) => Err(put_error(error)),
    }
}

/// Begins the text of these rows, and of the stop terms that all sources have.
fn begin<'a, S: Source, W: Write>(
    alloc: Global,
    sources: &[S],
    rows: &[DocRow<'_>],
    out: &'a mut W,
) -> IndexWriter<'a, W>
    requires few { length rows.now < 2 ^ 32 }
    requires names { All (λ row. length row.name.now < 2 ^ 32) rows.now }
    requires stop { HaveOneStop (map S.heading sources.now) }
    ensures same_writer { sink_name result ≡ out.entry.ghost_name }
    ensures nothing_written { sink result ≡ out.entry.now }
    ensures told { IsReady result → BeginsWith W.contents (W.contents out.entry.now) result
        (map S.heading sources.now) (map document_row rows.now) }
{
    match sources.first() {
        None => IndexWriter::begin(alloc, out, &StopList::empty(alloc), rows),
        Some(source) => IndexWriter::begin(alloc, out, &source.head().stop, rows),
    }
}

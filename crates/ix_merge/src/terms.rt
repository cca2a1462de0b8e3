//! The merging of sources, term by term.
ghost use Rattle.std.specs.Prelude.{◌≡◌, ◌≤◌, ◌*◌, ◌^◌, ℕ, List, Option, None, [], All, IfErr, IfOk, OnErr, OnOk, is_some, length, map};
ghost use Rattle.ix_file.specs.Told.{Told, entries_of};
ghost use Rattle.ix_file.specs.Writers.{WasTold, sink, sink_name};
ghost use Rattle.ix_run.specs.Sources.{IsUnread, KeepsFaults};
ghost use Rattle.ix_merge.specs.Gathered.{IsNewEntry};
ghost use Rattle.ix_merge.specs.Keys.{keys_of};
ghost use Rattle.ix_merge.specs.Merged.{HasMergedSome};
ghost use Rattle.ix_merge.specs.Merging.{AreApart, IsRefusalAt, IsRefusalOf, KeepFaults, TellsAll, WasToldNoTerm};
ghost use Rattle.ix_merge.specs.Rows.{tokens_under};
ghost use Rattle.ix_merge.specs.Starting.{HasStarted, HaveStarted};
ghost use Rattle.ix_merge.specs.Unfinished.{LeavesMergedFront};
ghost use Rattle.ix_merge.specs.WinnerTrees.{IsWinnerTree};

use crate::MergeError;
use crate::pending_entry::PendingEntry;
use crate::turn::{put_error, take_turn};
use crate::winner_tree::{no_winners, root, update};
use ix_file::IndexWriter;
use ix_run::Source;
use std::alloc::Global;
use std::io::Write;

/// Writes the terms of all sources, each once and in order, with the documents of those that have it. Nothing was read
/// from the sources yet; they cover no number twice, and have at most 2^28 tokens in all. The writer has returned no
/// error, and was given no term.
///
/// # Errors
///
/// * `Source(place, error)`: the source at that place returned `error`.
/// * `Write`: a write failed.
/// * `Memory`: out of memory.
pub(crate) fn merge_terms<S: Source, W: Write>(
    alloc: Global,
    sources: &mut [S],
    writer: &mut IndexWriter<'_, W>,
) -> Result<(), MergeError<S::Error>>
    requires unread { All (IsUnread S.gives) sources.old }
    requires apart { AreApart (map S.heading sources.old) }
    requires few { tokens_under (map S.heading sources.old) ≤ 2 ^ 28 }
    requires told { WasToldNoTerm W.contents writer.old }
    ensures same_writer { sink_name writer.new ≡ sink_name writer.old }
    ensures merged { (before : Option (List ℕ)) (told : Told)
        → WasTold W.contents before writer.old told → entries_of told ≡ []
        → OnOk result (TellsAll S.yields S.heading W.contents sources.old before told writer.new) }
    ensures some { (before : Option (List ℕ)) (told : Told)
        → WasTold W.contents before writer.old told → entries_of told ≡ []
        → OnErr result (HasMergedSome (map S.heading sources.old) before
        (W.contents (sink writer.new))) }
    ensures unfinished { All S.sure sources.old
        → (before : Option (List ℕ)) (told : Told)
        → WasTold W.contents before writer.old told → entries_of told ≡ []
        → OnErr result (LeavesMergedFront S.yields S.heading W.contents sources.old before
        writer.old writer.new) }
    ensures refused { IfErr result (IsRefusalOf S.faults sources.old) }
{
    let Ok(mut tree) = no_winners(alloc, sources.len()) else {
        return Err(MergeError::Memory);
    };
    merge_by(sources, &mut tree, &mut PendingEntry::none(alloc), writer)
}

/// The same, with a tree of winners and a pending entry that are both empty.
fn merge_by<S: Source, W: Write>(
    sources: &mut [S],
    tree: &mut [Option<usize>],
    entry: &mut PendingEntry,
    writer: &mut IndexWriter<'_, W>,
) -> Result<(), MergeError<S::Error>>
    requires sized { length tree.old ≡ 2 * length sources.old }
    requires empty { All (λ holder. holder ≡ None) tree.old }
    requires none { IsNewEntry entry.old }
    requires unread { All (IsUnread S.gives) sources.old }
    requires apart { AreApart (map S.heading sources.old) }
    requires few { tokens_under (map S.heading sources.old) ≤ 2 ^ 28 }
    requires told { WasToldNoTerm W.contents writer.old }
    ensures same_writer { sink_name writer.new ≡ sink_name writer.old }
    ensures merged { (before : Option (List ℕ)) (told : Told)
        → WasTold W.contents before writer.old told → entries_of told ≡ []
        → OnOk result (TellsAll S.yields S.heading W.contents sources.old before told writer.new) }
    ensures some { (before : Option (List ℕ)) (told : Told)
        → WasTold W.contents before writer.old told → entries_of told ≡ []
        → OnErr result (HasMergedSome (map S.heading sources.old) before
        (W.contents (sink writer.new))) }
    ensures unfinished { All S.sure sources.old
        → (before : Option (List ℕ)) (told : Told)
        → WasTold W.contents before writer.old told → entries_of told ≡ []
        → OnErr result (LeavesMergedFront S.yields S.heading W.contents sources.old before
        writer.old writer.new) }
    ensures refused { IfErr result (IsRefusalOf S.faults sources.old) }
{
    begin_all(sources, tree)?;
    while let Some(place) = root(tree) {
        let more = take_turn(place, &mut sources[place], entry, writer)?;
        update(sources, tree, place, more);
    }
    match entry.send(writer) {
        Ok(()) => Ok(()),
        Err(error) => Err(put_error(error)),
    }
}

/// Reads the first term of each source, and makes the tree of winners, which is empty before.
fn begin_all<S: Source>(
    sources: &mut [S],
    tree: &mut [Option<usize>],
) -> Result<(), MergeError<S::Error>>
    requires sized { length tree.old ≡ 2 * length sources.old }
    requires empty { All (λ holder. holder ≡ None) tree.old }
    requires unread { All (IsUnread S.gives) sources.old }
    ensures started { OnOk result
        (HaveStarted S.heading S.current S.yields S.gives sources.old sources.new) }
    ensures tree { OnOk result (IsWinnerTree (keys_of S.heading S.current sources.new) tree.new) }
    ensures no_more_faults { OnOk result (KeepFaults S.faults sources.old sources.new) }
    ensures sure { OnOk result (All S.sure sources.old → All S.sure sources.new) }
    ensures refused { IfErr result (IsRefusalOf S.faults sources.old) }
{
    for place in 0..sources.len() {
        let more = begin_source(place, &mut sources[place])?;
        update(sources, tree, place, more);
    }
    Ok(())
}

/// Reads the first term of a source, and returns whether it has one.
fn begin_source<S: Source>(place: usize, source: &mut S) -> Result<bool, MergeError<S::Error>>
    requires unread { IsUnread S.gives source.old }
    ensures started { OnOk result
        (HasStarted S.heading S.current S.yields S.gives source.old source.new) }
    ensures more { IfOk result (λ more. more ≡ is_some (S.current source.new)) }
    ensures no_more_faults { OnOk result (KeepsFaults S.faults source.old source.new) }
    ensures sure { OnOk result (S.sure source.old → S.sure source.new) }
    ensures refused { IfErr result (IsRefusalAt place (S.faults source.old)) }
{
    source
        .next_term()
        .map_err(|error| MergeError::Source(place, error))
}

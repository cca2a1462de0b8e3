//! A source's turn in a merge: its current list goes to the pending entry, and its next term is read.
ghost use Rattle.std.specs.Prelude.{◌≡◌, ◌≢◌, ◌+◌, ℕ, List, Option, IfOk, IfErr, OnOk, OnErr, IsSome, is_some, string_bytes};
ghost use Rattle.ix_text.specs.Parts.{DictionaryEntry};
ghost use Rattle.ix_file.specs.Told.{Told};
ghost use Rattle.ix_file.specs.Writers.{sink_name};
ghost use Rattle.ix_run.specs.Sources.{KeepsFaults};
ghost use Rattle.ix_merge.specs.Gathered.{HasGathered};
ghost use Rattle.ix_merge.specs.Merging.{IsOfWriter, IsRefusalAt, told_of_list};
ghost use Rattle.ix_merge.specs.Turns.{HasToldSome, HasTurned, MayTurn, MayTurnSomehow};

use crate::MergeError;
use crate::pending_entry::PendingEntry;
use ix_file::{IndexWriter, PutError};
use ix_run::{ListError, Source};
use std::io::Write;

/// Appends the source's current list to the pending entry and advances the source; returns whether it has another term.
/// If the pending entry has another term, it is written first; and its lists are written once they have 64 KiB or more.
/// `place` is the source's place among those that are merged.
///
/// # Errors
///
/// * `Source(place, error)`: the source returned `error`.
/// * `Write`: a write failed.
/// * `Memory`: out of memory.
pub(crate) fn take_turn<S: Source, W: Write>(
    place: usize,
    source: &mut S,
    entry: &mut PendingEntry,
    writer: &mut IndexWriter<'_, W>,
) -> Result<bool, MergeError<S::Error>>
    requires at_hand { IsSome (S.current source.old) }
    requires may { MayTurnSomehow S.heading S.current S.gives W.contents source.old
        entry.old writer.old }
    ensures same_writer { sink_name writer.new ≡ sink_name writer.old }
    ensures heading { S.heading source.new ≡ S.heading source.old }
    ensures more { IfOk result (λ more. more ≡ is_some (S.current source.new)) }
    ensures turned { (before : Option (List ℕ)) (told : Told) (given : List DictionaryEntry)
        → HasGathered W.contents before writer.old entry.old told
        → MayTurn S.heading S.current S.gives source.old given told
        (string_bytes entry.old.term) entry.old.end
        → OnOk result (HasTurned S.heading S.current S.yields S.gives W.contents before
        source.old source.new given told (string_bytes entry.old.term) entry.old.end
        writer.new entry.new) }
    ensures some { (before : Option (List ℕ)) (told : Told) (given : List DictionaryEntry)
        → HasGathered W.contents before writer.old entry.old told
        → MayTurn S.heading S.current S.gives source.old given told
        (string_bytes entry.old.term) entry.old.end
        → OnErr result (HasToldSome S.heading S.current S.yields S.sure W.contents before
        source.old given told (string_bytes entry.old.term) entry.old.end writer.new) }
    ensures no_more_faults { OnOk result (KeepsFaults S.faults source.old source.new) }
    ensures sure { OnOk result (S.sure source.old → S.sure source.new) }
    ensures refused { IfErr result (IsRefusalAt place (S.faults source.old)) }
{
    if let Err(error) = entry.begin(source.term(), writer) {
        return Err(put_error(error));
    }
    let listed = match source.take_list(entry.end, &mut entry.list) {
        Ok(listed) => listed,
        Err(error) => return Err(list_error(place, error)),
    };
    entry.documents += listed.documents;
    entry.end = listed.next;
    if let Err(error) = entry.send_if_full(writer) {
        return Err(put_error(error));
    }
    source
        .next_term()
        .map_err(|error| MergeError::Source(place, error))
}

/// The error of a writer that had returned none before.
pub(crate) fn put_error<E>(error: PutError) -> MergeError<E>
    requires { error ≢ PutError.Failed }
    ensures of_writer { IsOfWriter result }
    ensures memory { result ≢ MergeError.Write → error ≡ PutError.Memory }
{
    match error {
        PutError::Write => MergeError::Write,
        PutError::Memory => MergeError::Memory,
        PutError::Failed => unreachable!(),
    }
}

/// The error that the source at a place returned for its list.
fn list_error<E>(place: usize, error: ListError<E>) -> MergeError<E>
    ensures { result ≡ told_of_list place error }
{
    match error {
        ListError::Memory => MergeError::Memory,
        ListError::Source(error) => MergeError::Source(place, error),
    }
}

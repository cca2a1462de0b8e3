//! `ix upgrade`: writes the collection of an index file anew, in the newest version.

ghost use Rattle.std.specs.Prelude.{◌⊎◌, ◌≤◌, ◌^◌, IfErr, OnErr, OnOk, length};
ghost use Rattle.ix_text.specs.Collections.{Collection};
ghost use Rattle.ix_file.specs.Endings.{WritesIndexText};
ghost use Rattle.ix_file.specs.Opened.{IsIndexOf};
ghost use Rattle.ix_file.specs.Sections.{Version};
ghost use Rattle.ix_command.specs.Refusals.{IsUnsaved};
ghost use Rattle.ix_files.specs.Outputs.{LeavesOthers, LeavesTarget, now_in, saved_in};
ghost use Rattle.ix_files.specs.Reading.{held_in};
ghost use Rattle.ix_command.specs.SavedIndexes.{SavesIndex};
ghost use Rattle.ix_command.specs.Upgrades.{IsUpgradeRefused, IsUpgraded};

use crate::index_file::open_index;
use crate::outputs::{begin, end};
use crate::refusal::Refusal;
use ix_file::{Index, Volume};
use ix_files::{FileError, Files};
use ix_merge::{IndexSource, MergeError, merge};
use std::alloc::Global;
use std::io::Write;
use std::thread::Threads;

/// Writes an index file of version 2 of the collection that an index file holds, which may be of
/// version 1 or 2.
///
/// The output is begun once the old file was read; it may be the same, and is untouched until it ends.
pub fn run<'a, R: Threads + Sync, F: Files>(
    rt: &R,
    alloc: Global,
    files: &mut F,
    old: &'a str,
    new: &'a str,
) -> Result<(), Refusal<'a>>
    ensures upgraded { OnOk result (IsUpgraded (held_in (F.view files.old))
        (saved_in (F.sent files.new) (F.view files.old) (F.view files.new))
        old.entry.now new.entry.now) }
    ensures refused { IfErr result (IsUpgradeRefused (held_in (F.view files.old))
        old.entry.now new.entry.now) }

    // No other file changes, and after an error there is what was there, or the folder could not be synced.
    ensures others { (F.view files.new).honest
        → LeavesOthers new.entry.now (F.view files.old) (F.view files.new) }
    ensures undone { OnErr result ((F.view files.new).honest
        → LeavesTarget new.entry.now (F.view files.old) (F.view files.new)
        ⊎ IsUpgraded (held_in (F.view files.old)) (now_in (F.view files.old) (F.view files.new))
        old.entry.now new.entry.now) }
{
    let volume = open_index(rt, alloc, files, old)?;
    save(alloc, files, &volume, new)
}

/// Saves the index text of the collection of an index.
fn save<'a, F: Files>(
    alloc: Global,
    files: &mut F,
    volume: &Volume,
    path: &'a str,
) -> Result<(), Refusal<'a>>
    ensures saved { (version : Version) (collection : Collection)
        → IsIndexOf volume.now version collection → OnOk result
        (SavesIndex (saved_in (F.sent files.new) (F.view files.old) (F.view files.new))
        path.entry.now collection) }
    ensures refused { IfErr result (IsUnsaved path.entry.now) }
    ensures others { (F.view files.new).honest
        → LeavesOthers path.entry.now (F.view files.old) (F.view files.new) }
    ensures undone { (version : Version) (collection : Collection)
        → IsIndexOf volume.now version collection → OnErr result ((F.view files.new).honest
        → LeavesTarget path.entry.now (F.view files.old) (F.view files.new)
        ⊎ SavesIndex (now_in (F.view files.old) (F.view files.new)) path.entry.now collection) }
{
    let index = volume.index();
    let mut output = begin(alloc, files, path)?;
    let written = match put_index(alloc, &index, &mut output.writer) {
        Ok(()) => Ok(()),
        Err(error) => Err(Refusal::unsaved(path, error)),
    };
    end(files, path, output, written)
}

/// Writes the index text of the collection of an index.
fn put_index<W: Write>(alloc: Global, index: &Index<'_>, out: &mut W) -> Result<(), FileError>
    requires { length index.now.parts.rows ≤ 2 ^ 28 }
    ensures { (version : Version) (collection : Collection)
        → IsIndexOf index.now version collection
        → OnOk result (WritesIndexText (W.contents out.old) (W.contents out.new) collection) }
{
    let source = IndexSource::new(alloc, index, 0)?;
    let Ok(sources) = vec![in alloc; source] else {
        return Err(FileError::Memory);
    };
    match merge(alloc, sources, out) {
        Ok(()) => Ok(()),
        Err(MergeError::Write) => Err(FileError::Failed),
        Err(MergeError::Source(_, _) | MergeError::Memory) => Err(FileError::Memory),
        // One source whose documents count from 0 is its own concatenation.
        Err(
            MergeError::Gap(_)
            | MergeError::Overlap(_)
            | MergeError::StopDiffers
            | MergeError::TooLarge,
        ) => unreachable!(),
    }
}

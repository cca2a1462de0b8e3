//! `ix merge`: merges run files and index files into an index file.

ghost use Rattle.std.specs.Prelude.{◌⊎◌, All, IfErr, OnErr, OnOk, map};
ghost use Rattle.ix_merge.specs.AnySources.{SourceHasGiven, SourceMayYield, heading_of_source};
ghost use Rattle.ix_run.specs.Sources.{IsUnread};
ghost use Rattle.ix_files.specs.Outputs.{LeavesOthers, LeavesTarget, now_in, saved_in};
ghost use Rattle.ix_files.specs.Reading.{held_in};
ghost use Rattle.ix_line.specs.Lines.{texts_of};
ghost use Rattle.ix_command.specs.MergedRuns.{IsMerged, IsMergeRefused, RefusesMerge, SavesConcatenation};

mod inputs;
mod sources;

use crate::outputs::{begin, end};
use crate::refusal::Refusal;
use inputs::{Inputs, open_all};
use ix_ask::EngineRefusal;
use ix_files::Files;
use ix_merge::{AnySource, merge};
use sources::{indexes_of, sources_of};
use std::alloc::{AllocError, Global};
use std::io::Read;
use std::thread::Threads;

/// Merges run files and index files into an index file of version 2.
///
/// A run tells the number of its first document, so runs may come in any order. An index counts its
/// documents from 0, and stands behind all files that are named before it: its first document gets
/// the number above the greatest that one of those has, or 0 where they have none.
///
/// Each run file is read as a stream, and each index file as a whole. The output is begun once all of them were opened; it may be
/// one of them, and is untouched until it ends.
pub fn run<'a, R: Threads + Sync, F: Files>(
    rt: &R,
    alloc: Global,
    files: &mut F,
    index: &'a str,
    inputs: &[&'a str],
) -> Result<(), Refusal<'a>>
    ensures merged { OnOk result (IsMerged (held_in (F.view files.old))
        (saved_in (F.sent files.new) (F.view files.old) (F.view files.new))
        (texts_of inputs.now) index.entry.now) }
    ensures refused { IfErr result (IsMergeRefused (held_in (F.view files.old))
        (texts_of inputs.now) index.entry.now) }

    // No other file changes, and after an error there is what was there, or the folder could not be synced.
    ensures others { (F.view files.new).honest
        → LeavesOthers index.entry.now (F.view files.old) (F.view files.new) }
    ensures undone { OnErr result ((F.view files.new).honest
        → LeavesTarget index.entry.now (F.view files.old) (F.view files.new)
        ⊎ IsMerged (held_in (F.view files.old)) (now_in (F.view files.old) (F.view files.new))
        (texts_of inputs.now) index.entry.now) }
{
    let opened = open_all(rt, alloc, files, inputs)?;
    let Inputs {
        parts,
        volumes,
        end: _,
    } = opened;
    let indexes = match indexes_of(alloc, &volumes) {
        Ok(indexes) => indexes,
        Err(AllocError) => return Err(Refusal::Engine(EngineRefusal::Memory)),
    };
    let sources = match sources_of(alloc, parts, &indexes) {
        Ok(sources) => sources,
        Err(AllocError) => return Err(Refusal::Engine(EngineRefusal::Memory)),
    };
    save(alloc, files, sources, index)
}

/// Saves the index text of the concatenation of what the sources yield.
fn save<'a, R: Read + Drop, F: Files>(
    alloc: Global,
    files: &mut F,
    sources: Vec<AnySource<'_, R>>,
    path: &'a str,
) -> Result<(), Refusal<'a>>
    requires { All (IsUnread SourceHasGiven) sources.items }
    ensures saved { OnOk result (SavesConcatenation (SourceMayYield R.remaining) heading_of_source
        sources.entry.items (saved_in (F.sent files.new) (F.view files.old) (F.view files.new))
        path.entry.now) }
    ensures refused { IfErr result
        (RefusesMerge (map heading_of_source sources.entry.items) path.entry.now) }
    ensures others { (F.view files.new).honest
        → LeavesOthers path.entry.now (F.view files.old) (F.view files.new) }
    ensures undone { OnErr result ((F.view files.new).honest
        → LeavesTarget path.entry.now (F.view files.old) (F.view files.new)
        ⊎ SavesConcatenation (SourceMayYield R.remaining) heading_of_source
        sources.entry.items (now_in (F.view files.old) (F.view files.new)) path.entry.now) }
{
    let mut output = begin(alloc, files, path)?;
    let written = match merge(alloc, sources, &mut output.writer) {
        Ok(()) => Ok(()),
        Err(error) => Err(Refusal::Engine(EngineRefusal::Merge(error))),
    };
    end(files, path, output, written)
}

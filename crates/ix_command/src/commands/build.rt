//! `ix build`: builds an index file of a collection file.

ghost use Rattle.std.specs.Prelude.{◌⊎◌, ℕ, List, IfOk, IfErr, OnErr, OnOk};
ghost use Rattle.ix_text.specs.Collections.{NamedText, collection_of};
ghost use Rattle.ix_text.specs.CollectionText.{IsCollectionText};
ghost use Rattle.ix_build.specs.Plans.{PlanValue};
ghost use Rattle.ix_build.specs.RunNames.{IsRunOf};
ghost use Rattle.ix_build.specs.RunPieces.{AreRunsOfTexts};
ghost use Rattle.ix_command.specs.BuiltIndexes.{AreOfFiles, ComeBack, IsBuildRefused, IsBuilt, IsUnbuilt, RefusesDocuments};
ghost use Rattle.ix_command.specs.BuiltRuns.{IsOfRuns, LeavesNoRuns, RemovesRuns};
ghost use Rattle.ix_command.specs.Files.{keeping_of};
ghost use Rattle.ix_command.specs.SavedIndexes.{SavesAlike, SavesIndex};
ghost use Rattle.ix_files.specs.Outputs.{LeavesOthers, LeavesTarget, now_in, saved_in};
ghost use Rattle.ix_files.specs.Reading.{held_in};

use crate::commands::ask::{read_file, read_stop_list};
use crate::outputs::{begin, check_output, end, keep_apart, lock_runs};
use crate::refusal::Refusal;
use ix_ask::EngineRefusal;
use ix_build::{InvertedBlocks, Plan, Watch, build, invert_all, is_run_of};
use ix_files::Files;
use ix_text::{Collection, StopList};
use std::alloc::Global;
use std::sync::Wait;
use std::thread::Threads;

/// Builds an index file of version 2 of the collection of a collection file, whatever the plan. The
/// words of the stop file, if one is named, are left out.
///
/// What is at the output's path is untouched until the output ends. If the runs are kept in memory, the collection is let go
/// before they are merged, and the output begins then.
pub fn run<'a, R: Threads + Wait + Sync, F: Files, V: Watch>(
    rt: &R,
    alloc: Global,
    files: &mut F,
    watch: &V,
    stop: Option<&'a str>,
    plan: &Plan,
    collection: &'a str,
    output: &'a str,
) -> Result<(), Refusal<'a>>
    ensures built { OnOk result (IsBuilt (held_in (F.view files.old))
        (saved_in (F.sent files.new) (F.view files.old) (F.view files.new))
        (keeping_of F.Shared.Reader.remaining F.Shared.shared F.Shared.back)
        stop.entry plan.now collection.entry.now output.entry.now) }
    ensures refused { IfErr result (IsBuildRefused (held_in (F.view files.old))
        stop.entry plan.now collection.entry.now output.entry.now) }

    // No other file changes but those of the runs, of which none is left; and after an error there is what was there, or the folder
    // could not be synced.
    ensures others { (F.view files.new).honest
        → LeavesOthers output.entry.now (F.view files.old) (F.view files.new)
        ⊎ LeavesNoRuns stop.entry plan.now collection.entry.now output.entry.now (F.view files.old)
        (F.view files.new) }
    ensures undone { OnErr result ((F.view files.new).honest
        → LeavesTarget output.entry.now (F.view files.old) (F.view files.new)
        ⊎ IsBuilt (held_in (F.view files.old)) (now_in (F.view files.old) (F.view files.new))
        (keeping_of F.Shared.Reader.remaining F.Shared.shared F.Shared.back)
        stop.entry plan.now collection.entry.now output.entry.now) }
{
    let stop_list = read_stop_list(alloc, files, stop)?;
    let text = read_file(alloc, files, collection)?;
    if let Some(path) = stop {
        keep_apart(files, path, output)?;
    }
    keep_apart(files, collection, output)?;
    check_output(files, output)?;
    let documents = documents_of(alloc, &text)?;
    if plan.folder().is_some() {
        keep_from_runs(alloc, files, &documents, plan, stop, collection, output)?;
        return save(
            rt, alloc, files, watch, &documents, &stop_list, plan, output,
        );
    }
    let blocks = invert(rt, alloc, watch, &documents, &stop_list, plan)?;
    // The text is most of what is held, and the runs have nothing of it.
    drop(documents);
    drop(text);
    save_merged(alloc, files, blocks, output)
}

/// The documents of a collection text.
pub fn documents_of<'t, 'a>(alloc: Global, text: &'t [u8]) -> Result<Collection<'t>, Refusal<'a>>
    ensures read { IfOk result (IsCollectionText text.now) }
    ensures refused { IfErr result (RefusesDocuments text.now) }
{
    match Collection::read(alloc, text) {
        Ok(documents) => Ok(documents),
        Err(error) => Err(Refusal::Engine(EngineRefusal::Collection(error))),
    }
}

/// Returns an error if the stop file, the collection file or the output is a run of the plan.
fn keep_from_runs<'a, F: Files>(
    alloc: Global,
    files: &F,
    documents: &Collection<'_>,
    plan: &Plan,
    stop: Option<&'a str>,
    collection: &'a str,
    output: &'a str,
) -> Result<(), Refusal<'a>>
    ensures apart { OnOk result ((F.view files.now).honest → ¬ (IsRunOf plan.now documents.now
        (F.view files.now) ((F.view files.now).place output.entry.now))) }
    ensures refused { (terms : List (List ℕ)) → AreOfFiles (held_in (F.view files.now)) stop.entry
        collection.entry.now terms documents.now
        → IfErr result (IsBuildRefused (held_in (F.view files.now)) stop.entry plan.now
        collection.entry.now output.entry.now) }
{
    if let Some(path) = stop {
        keep_from(alloc, files, documents, plan, path)?;
    }
    keep_from(alloc, files, documents, plan, collection)?;
    keep_from(alloc, files, documents, plan, output)
}

/// Returns an error if a path leads to a run of the plan.
fn keep_from<'a, F: Files>(
    alloc: Global,
    files: &F,
    documents: &Collection<'_>,
    plan: &Plan,
    path: &'a str,
) -> Result<(), Refusal<'a>>
    ensures apart { OnOk result ((F.view files.now).honest → ¬ (IsRunOf plan.now documents.now
        (F.view files.now) ((F.view files.now).place path.entry.now))) }
    ensures refused { IfErr result (IsOfRuns (F.view files.now) plan.now documents.now
        path.entry.now) }
{
    match is_run_of(alloc, files, documents, plan, path) {
        Ok(false) => Ok(()),
        Ok(true) => Err(Refusal::Same(path)),
        Err(error) => Err(Refusal::Engine(EngineRefusal::Build(error))),
    }
}

/// Inverts the blocks of these documents.
fn invert<'a, R: Threads + Wait + Sync, V: Watch>(
    rt: &R,
    alloc: Global,
    watch: &V,
    documents: &Collection<'_>,
    stop: &StopList,
    plan: &Plan,
) -> Result<InvertedBlocks, Refusal<'a>>
    ensures inverted { IfOk result (AreRunsOfTexts stop.now documents.now) }
    ensures refused { (path : List ℕ) → IfErr result (IsUnbuilt plan.now documents.now path) }
{
    match invert_all(rt, alloc, documents, stop, plan, watch) {
        Ok(blocks) => Ok(blocks),
        Err(error) => Err(Refusal::Engine(EngineRefusal::Build(error))),
    }
}

/// Saves the index text of the collection of which the blocks have the runs.
fn save_merged<'a, F: Files>(
    alloc: Global,
    files: &mut F,
    blocks: InvertedBlocks,
    path: &'a str,
) -> Result<(), Refusal<'a>>
    ensures saved { (stop : List (List ℕ)) (documents : List NamedText)
        → AreRunsOfTexts stop documents blocks → OnOk result
        (SavesIndex (saved_in (F.sent files.new) (F.view files.old) (F.view files.new))
        path.entry.now (collection_of stop documents)) }
    ensures refused { (plan : PlanValue) (documents : List NamedText)
        → IfErr result (IsUnbuilt plan documents path.entry.now) }
    ensures others { (F.view files.new).honest
        → LeavesOthers path.entry.now (F.view files.old) (F.view files.new) }
    ensures undone { (stop : List (List ℕ)) (documents : List NamedText)
        → AreRunsOfTexts stop documents blocks → OnErr result ((F.view files.new).honest
        → LeavesTarget path.entry.now (F.view files.old) (F.view files.new)
        ⊎ SavesIndex (now_in (F.view files.old) (F.view files.new)) path.entry.now
        (collection_of stop documents)) }
{
    let mut output = begin(alloc, files, path)?;
    let written = match blocks.merge_into(alloc, &mut output.writer) {
        Ok(()) => Ok(()),
        Err(error) => Err(Refusal::Engine(EngineRefusal::Build(error))),
    };
    end(files, path, output, written)
}

/// Saves the index text of the collection of these documents, by runs in a folder that the plan names. The path is that of no
/// run.
fn save<'a, R: Threads + Wait + Sync, F: Files, V: Watch>(
    rt: &R,
    alloc: Global,
    files: &mut F,
    watch: &V,
    documents: &Collection<'_>,
    stop: &StopList,
    plan: &Plan,
    path: &'a str,
) -> Result<(), Refusal<'a>>
    requires apart { (F.view files.old).honest
        → ¬ (IsRunOf plan.now documents.now (F.view files.old)
        ((F.view files.old).place path.now)) }
    ensures saved { OnOk result (ComeBack
        (keeping_of F.Shared.Reader.remaining F.Shared.shared F.Shared.back)
        plan.now stop.now documents.now
        → SavesIndex (saved_in (F.sent files.new) (F.view files.old) (F.view files.new))
        path.entry.now (collection_of stop.now documents.now)) }
    ensures alike { OnOk result (SavesAlike
        (saved_in (F.sent files.new) (F.view files.old) (F.view files.new)) path.entry.now
        (collection_of stop.now documents.now)) }
    ensures refused { IfErr result (IsUnbuilt plan.now documents.now path.entry.now) }
    ensures others { (F.view files.new).honest
        → LeavesOthers path.entry.now (F.view files.old) (F.view files.new)
        ⊎ RemovesRuns plan.now documents.now path.entry.now (F.view files.old) (F.view files.new) }
    ensures undone { OnErr result ((F.view files.new).honest
        → LeavesTarget path.entry.now (F.view files.old) (F.view files.new)
        ⊎ ((ComeBack (keeping_of F.Shared.Reader.remaining F.Shared.shared F.Shared.back)
        plan.now stop.now documents.now
        → SavesIndex (now_in (F.view files.old) (F.view files.new))
        path.entry.now (collection_of stop.now documents.now))
        × SavesAlike (now_in (F.view files.old) (F.view files.new)) path.entry.now
        (collection_of stop.now documents.now))) }
{
    let lock = lock_runs(alloc, files, plan)?;
    let mut output = begin(alloc, files, path)?;
    let out = &mut output.writer;
    let written = match build(rt, alloc, files, documents, stop, plan, watch, out) {
        Ok(()) => Ok(()),
        Err(error) => Err(Refusal::Engine(EngineRefusal::Build(error))),
    };
    let ended = end(files, path, output, written);
    // Another build may have the folder now.
    drop(lock);
    ended
}

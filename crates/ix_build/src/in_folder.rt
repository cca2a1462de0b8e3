//! Building the index text of a collection with the runs of its blocks where the plan says.
ghost use Rattle.std.specs.Prelude.{◌≡◌, ◌⊎◌, ℕ, List, None, Some, vec_len, All, IfErr, IfOk, OnErr, OnOk};
ghost use Rattle.std.specs.Io.KnownBytes.{Keeps};
ghost use Rattle.ix_files.specs.Changes.{ChangesOnly};
ghost use Rattle.ix_files.specs.Slots.{IsSame};
ghost use Rattle.ix_files.specs.Views.{GoesOn};
ghost use Rattle.ix_text.specs.Collections.{collection_of};
ghost use Rattle.ix_merge.specs.Endings.{WritesIndexText};
ghost use Rattle.ix_build.specs.AlikeFronts.{LeavesAlikeFront, WritesAlike};
ghost use Rattle.ix_build.specs.BuildErrors.{IsBeforeWriting, IsBuildRefusal, IsFolderRefusal};
ghost use Rattle.ix_build.specs.FolderStores.{files_of};
ghost use Rattle.ix_build.specs.GivenBack.{GivesBlocksBack};
ghost use Rattle.ix_build.specs.OwnParts.{LeavesOwnPart};
ghost use Rattle.ix_build.specs.ReadBack.{TellBytes, TellsUnread};
ghost use Rattle.ix_build.specs.RunNames.{AreRunNames, AreRunNamesOf, HasNoRuns, IsRunOf, MayComeBack};

use crate::build_error::BuildError;
use crate::folder_store::FolderStore;
use crate::in_memory::build_watched;
use crate::over_stores::{BuiltOver, build_over};
use crate::plan::Plan;
use crate::run_names::names_of_runs;
use crate::watch::Watch;
use crate::watched_files::WatchedFiles;
use ix_files::{Files, SharedFiles, remove_all};
use ix_text::{Collection, Memory, StopList};
use std::alloc::Global;
use std::io::Write;
use std::sync::Wait;
use std::thread::Threads;

/// Writes the index text, version 2, of a collection under a stop list, whatever the plan: its blocks are inverted by the
/// plan's workers, each in a thread of its own, and their runs are merged (IIR 4.3). The runs are kept where the plan says:
/// in memory, or in files of a folder, which has to exist.
///
/// In a folder each run is saved in a file `run-` and the block's place in ten digits. Memory holds only its head until
/// the merge, which reads all of them as it goes, each through an open file. Files of those names are overwritten, and
/// afterwards removed, after an error too; one that cannot be removed stays. With runs in memory `files` is not used.
/// Calls `watch` for each block once it is inverted, or its run saved.
///
/// # Errors
/// `Thread` if a thread cannot be started, before anything is written; `Spill` with the place, from 0, of a block whose
/// run was not saved in the folder or not given back, never with runs in memory; `Write` if a write or the flush fails;
/// `Memory` if out of memory. After these a prefix of this index text is written, perhaps nothing of it, and all of it
/// only after `Write`. With runs in a folder that is proved if the bytes of the files are known and they give back only
/// the runs; else a prefix of an index text with the collection's stop terms, names and token counts is written.
pub fn build<W: Write, F: Files, R: Threads + Wait + Sync, V: Watch>(
    rt: &R,
    alloc: Global,
    files: &mut F,
    collection: &Collection<'_>,
    stop: &StopList,
    plan: &Plan,
    watch: &V,
    out: &mut W,
) -> Result<(), BuildError>
    // With runs in memory it is the collection's own index text.
    ensures written { plan.now.folder ≡ None → OnOk result (WritesIndexText
        (W.contents out.old) (W.contents out.new) (collection_of stop.now collection.now)) }
    ensures refused { plan.now.folder ≡ None → IfErr result (IsBuildRefusal plan.now.workers) }

    // With runs in a folder it is too, if the bytes of the files are known and they give nothing back but the runs.
    ensures exact { (folder : List ℕ) → plan.now.folder ≡ Some folder
        → TellBytes F.Shared.Reader.remaining
        → GivesBlocksBack plan.now.cut collection.now stop.now
        (MayComeBack F.Shared.shared F.Shared.back)
        → OnOk result (WritesIndexText (W.contents out.old) (W.contents out.new)
        (collection_of stop.now collection.now)) }

    // Whatever they give back, it has the same stop terms, names and token counts.
    ensures alike { OnOk result (WritesAlike (collection_of stop.now collection.now)
        (W.contents out.old) (W.contents out.new)) }
    ensures spilled { IfErr result (IsFolderRefusal plan.now collection.now) }
    ensures early { IfErr result (λ error. IsBeforeWriting error
        → Keeps (W.contents out.old) (W.contents out.new)) }

    // If `Spill` comes after bytes were written, something came back of the block's file that may
    // not be read to its end.
    ensures unread { (folder : List ℕ) → plan.now.folder ≡ Some folder
        → IfErr result (TellsUnread F.Shared.Reader.remaining
        (MayComeBack F.Shared.shared F.Shared.back) (W.contents out.old) (W.contents out.new)) }

    // An error leaves a prefix of the collection's own index text, with runs in a folder under the
    // premises of `exact`; and whatever the files give back, one of an index text like it.
    ensures front { OnErr result (LeavesAlikeFront (collection_of stop.now collection.now)
        (W.contents out.old) (W.contents out.new)) }
    ensures unfinished { plan.now.folder ≡ None → IfErr result (λ error. LeavesOwnPart
        (collection_of stop.now collection.now) (W.contents out.old) (W.contents out.new)
        (error ≡ BuildError.Write)) }
    ensures unfinished_in_folder { (folder : List ℕ) → plan.now.folder ≡ Some folder
        → TellBytes F.Shared.Reader.remaining
        → GivesBlocksBack plan.now.cut collection.now stop.now
        (MayComeBack F.Shared.shared F.Shared.back)
        → IfErr result (λ error. LeavesOwnPart (collection_of stop.now collection.now)
        (W.contents out.old) (W.contents out.new) (error ≡ BuildError.Write)) }

    // No file but those of the runs changes, and in the end none of these is left, unless the system fails.
    ensures changes { ChangesOnly (IsRunOf plan.now collection.now (F.view files.old))
        (F.view files.old) (F.view files.new) }
    ensures gone { (F.view files.new).honest → OnOk result
        (HasNoRuns plan.now collection.now (F.view files.old) (F.view files.new)) }
    ensures left { (F.view files.new).honest → OnErr result
        (IsSame (F.view files.old).slots (F.view files.new).slots
        ⊎ HasNoRuns plan.now collection.now (F.view files.old) (F.view files.new)) }
    ensures goes_on { GoesOn (F.view files.old) (F.view files.new) }
{
    let Some(folder) = plan.folder() else {
        return build_watched(rt, alloc, collection, stop, plan, watch, out);
    };
    let shared = share_runs(alloc, files, folder, collection, plan)?;
    let result = build_in_files(rt, alloc, &shared, collection, stop, plan, watch, out);
    remove_all(files, shared.names());
    result
}

/// Files in the plan's folder for the runs of all blocks.
fn share_runs<F: Files>(
    alloc: Global,
    files: &mut F,
    folder: &str,
    collection: &Collection<'_>,
    plan: &Plan,
) -> Result<F::Shared, BuildError>
    requires { plan.now.folder ≡ Some folder.now }
    ensures named { IfOk result (λ shared. (at : List ℕ)
        × AreRunNames at (F.Shared.shared shared)) }
    ensures runs { IfOk result (λ shared. (F.view files.new).honest
        → AreRunNamesOf plan.now collection.now (F.view files.old) (F.Shared.shared shared)) }
    ensures spilled { IfErr result (IsFolderRefusal plan.now collection.now) }
    ensures unchanged { OnErr result ((F.view files.new).honest
        → IsSame (F.view files.old).slots (F.view files.new).slots) }
    ensures changes { ChangesOnly (IsRunOf plan.now collection.now (F.view files.old))
        (F.view files.old) (F.view files.new) }
    ensures goes_on { GoesOn (F.view files.old) (F.view files.new) }
{
    let names = names_of_runs(alloc, files, folder, collection, plan)?;
    match files.share(names) {
        Ok(shared) => Ok(shared),
        Err(_) => Err(BuildError::Memory),
    }
}

/// Builds with the runs in these files.
fn build_in_files<W: Write, S: SharedFiles, R: Threads + Wait + Sync, V: Watch>(
    rt: &R,
    alloc: Global,
    files: &S,
    collection: &Collection<'_>,
    stop: &StopList,
    plan: &Plan,
    watch: &V,
    out: &mut W,
) -> Result<(), BuildError>
    ensures exact { TellBytes S.Reader.remaining
        → GivesBlocksBack plan.now.cut collection.now stop.now (S.back files.now)
        → OnOk result (WritesIndexText (W.contents out.old) (W.contents out.new)
        (collection_of stop.now collection.now)) }
    ensures alike { OnOk result (WritesAlike (collection_of stop.now collection.now)
        (W.contents out.old) (W.contents out.new)) }
    ensures spilled { IfErr result (IsFolderRefusal plan.now collection.now) }
    ensures early { IfErr result (λ error. IsBeforeWriting error
        → Keeps (W.contents out.old) (W.contents out.new)) }
    ensures unread { IfErr result (TellsUnread S.Reader.remaining (S.back files.now)
        (W.contents out.old) (W.contents out.new)) }
    ensures front { OnErr result (LeavesAlikeFront (collection_of stop.now collection.now)
        (W.contents out.old) (W.contents out.new)) }
    ensures unfinished { TellBytes S.Reader.remaining
        → GivesBlocksBack plan.now.cut collection.now stop.now (S.back files.now)
        → IfErr result (λ error. LeavesOwnPart (collection_of stop.now collection.now)
        (W.contents out.old) (W.contents out.new) (error ≡ BuildError.Write)) }
{
    let watched = WatchedFiles { files, watch };
    let Ok(stores) = stores_over(alloc, &watched, plan.workers()) else {
        return Err(BuildError::Memory);
    };
    let BuiltOver { stores: _, result } = build_over(
        rt, alloc, collection, stop, plan, stores, out,
    );
    result
}

/// `workers` stores that keep runs in these files.
fn stores_over<'a, F>(
    alloc: Global,
    files: &'a F,
    workers: usize,
) -> Result<Vec<FolderStore<'a, F>>, Memory>
    ensures as_many { IfOk result (λ stores. vec_len stores ≡ workers) }
    ensures each { IfOk result (λ stores. All (λ store. files_of store ≡ files.now) stores.items) }
{
    let mut stores = Vec::with_capacity(alloc, workers)?;
    for _ in 0..workers {
        stores.push_reserved(FolderStore::new(alloc, files));
    }
    Ok(stores)
}

//! Building the index text of a collection with the runs of its blocks in memory.
ghost use Rattle.std.specs.Prelude.{◌≡◌, ◌<◌, length, map, vec_len, All, IfErr, IfOk, OnOk};
ghost use Rattle.std.specs.Io.KnownBytes.{Keeps};
ghost use Rattle.ix_text.specs.Collections.{collection_of};
ghost use Rattle.ix_text.specs.Docs.{named_text};
ghost use Rattle.ix_text.specs.Sizes.{AreSmall};
ghost use Rattle.ix_merge.specs.Endings.{WritesIndexText};
ghost use Rattle.ix_build.specs.BlockMakers.{IsMakerOf};
ghost use Rattle.ix_build.specs.Balanced.{balanced_cut};
ghost use Rattle.ix_build.specs.Blocks.{AreBounds, AscendUpTo};
ghost use Rattle.ix_build.specs.BuildErrors.{IsBeforeWriting, IsBuildRefusal, IsInvertRefusal};
ghost use Rattle.ix_build.specs.OwnParts.{LeavesOwnPart};
ghost use Rattle.ix_build.specs.RunPieces.{AreRunsOfTexts};

use crate::balanced::balanced_cut;
use crate::block_maker::BlockMaker;
use crate::blocks::{block_count, bounds_of};
use crate::build_error::BuildError;
use crate::by_makers::{Built, build_by};
use crate::inverted_blocks::InvertedBlocks;
use crate::plan::Plan;
use crate::watch::{Unwatched, Watch};
use ix_pool::{Outcome, work_all};
use ix_text::{Collection, Doc, Memory, StopList};
use std::alloc::Global;
use std::io::Write;
use std::sync::Wait;
use std::thread::Threads;

/// Writes the index text, version 2, of a collection under a stop list, whatever the plan: its blocks are inverted by
/// the plan's workers, each in a thread of its own, and their runs are merged (IIR 4.3). A block of the plan is cut further
/// if some of the workers would have too little to do. Runs are kept in memory, even if the plan has a folder for them;
/// `build` uses the folder.
///
/// # Errors
/// `Thread` if a thread cannot be started, before anything is written; `Write` if a write or the flush fails; `Memory` if
/// out of memory. After these a prefix of this index text is written, perhaps nothing of it, and all of it only after
/// `Write`. Never `Spill`.
pub fn build_in_memory<W: Write, R: Threads + Wait + Sync>(
    rt: &R,
    alloc: Global,
    collection: &Collection<'_>,
    stop: &StopList,
    plan: &Plan,
    out: &mut W,
) -> Result<(), BuildError>
    ensures written { OnOk result (WritesIndexText (W.contents out.old) (W.contents out.new)
        (collection_of stop.now collection.now)) }
    ensures refused { IfErr result (IsBuildRefusal plan.now.workers) }
    ensures early { IfErr result (λ error. IsBeforeWriting error
        → Keeps (W.contents out.old) (W.contents out.new)) }
    ensures unfinished { IfErr result (λ error. LeavesOwnPart
        (collection_of stop.now collection.now) (W.contents out.old) (W.contents out.new)
        (error ≡ BuildError.Write)) }
{
    build_watched(rt, alloc, collection, stop, plan, &Unwatched, out)
}

/// The same, and calls `watch` for each block once it is inverted.
pub(crate) fn build_watched<W: Write, R: Threads + Wait + Sync, V: Watch>(
    rt: &R,
    alloc: Global,
    collection: &Collection<'_>,
    stop: &StopList,
    plan: &Plan,
    watch: &V,
    out: &mut W,
) -> Result<(), BuildError>
    ensures written { OnOk result (WritesIndexText (W.contents out.old) (W.contents out.new)
        (collection_of stop.now collection.now)) }
    ensures refused { IfErr result (IsBuildRefusal plan.now.workers) }
    ensures early { IfErr result (λ error. IsBeforeWriting error
        → Keeps (W.contents out.old) (W.contents out.new)) }
    ensures unfinished { IfErr result (λ error. LeavesOwnPart
        (collection_of stop.now collection.now) (W.contents out.old) (W.contents out.new)
        (error ≡ BuildError.Write)) }
{
    let docs = collection.docs();
    let Ok(bounds) = balanced_bounds(alloc, docs, plan) else {
        return Err(BuildError::Memory);
    };
    let bounds = bounds.as_slice();
    let Ok(makers) = makers_of(alloc, docs, stop, bounds, watch, plan.workers()) else {
        return Err(BuildError::Memory);
    };
    let Built { makers: _, result } = build_by(rt, alloc, makers, block_count(bounds), out);
    match result {
        Ok(()) => Ok(()),
        Err(error) => Err(BuildError::of_building(error)),
    }
}

/// Inverts the blocks of a collection under a stop list, by the plan's workers, each in a thread of its own (IIR 4.3).
/// A block of the plan is cut further if some of the workers would have too little to do.
/// The runs are kept in memory, even if the plan has a folder for them, and borrow nothing of the collection: it and its
/// text may be dropped before the runs are merged. Calls `watch` for each block once it is inverted.
///
/// # Errors
/// `Thread` if a thread cannot be started; `Memory` if out of memory. Never `Spill` or `Write`.
pub fn invert_all<R: Threads + Wait + Sync, V: Watch>(
    rt: &R,
    alloc: Global,
    collection: &Collection<'_>,
    stop: &StopList,
    plan: &Plan,
    watch: &V,
) -> Result<InvertedBlocks, BuildError>
    ensures inverted { IfOk result (AreRunsOfTexts stop.now collection.now) }
    ensures refused { IfErr result (IsInvertRefusal plan.now.workers) }
{
    let docs = collection.docs();
    let Ok(bounds) = balanced_bounds(alloc, docs, plan) else {
        return Err(BuildError::Memory);
    };
    let bounds = bounds.as_slice();
    let Ok(makers) = makers_of(alloc, docs, stop, bounds, watch, plan.workers()) else {
        return Err(BuildError::Memory);
    };
    let Outcome { makers: _, result } = work_all(rt, alloc, makers, block_count(bounds));
    match result {
        Ok(runs) => Ok(InvertedBlocks::new(runs)),
        Err(error) => Err(BuildError::of_work(error)),
    }
}

/// The bounds of the plan's blocks, which are cut further if some of the workers would have too little to do.
fn balanced_bounds(alloc: Global, docs: &[Doc<'_>], plan: &Plan) -> Result<Vec<usize>, Memory>
    ensures bounds { IfOk result (λ bounds.
        AreBounds (balanced_cut plan.now.cut plan.now.workers (map named_text docs.now))
        (map named_text docs.now) bounds.items) }
    ensures ascending { IfOk result (λ bounds. AscendUpTo (length docs.now) bounds.items) }
{
    let cut = balanced_cut(docs, plan.cut(), plan.workers());
    bounds_of(alloc, docs, cut)
}

/// `workers` makers of the blocks between the bounds.
fn makers_of<'a, V>(
    alloc: Global,
    docs: &'a [Doc<'a>],
    stop: &'a StopList,
    bounds: &'a [usize],
    watch: &'a V,
    workers: usize,
) -> Result<Vec<BlockMaker<'a, V>>, Memory>
    requires ascending { AscendUpTo (length docs.now) bounds.now }
    requires small { AreSmall (map named_text docs.now) }
    ensures as_many { IfOk result (λ makers. vec_len makers ≡ workers) }
    ensures each { IfOk result (λ makers.
        All (IsMakerOf (map named_text docs.now) stop.now bounds.now) makers.items) }
{
    let mut makers = Vec::with_capacity(alloc, workers)?;
    for _ in 0..workers {
        makers.push_reserved(BlockMaker::new(alloc, docs, stop, bounds, watch));
    }
    Ok(makers)
}

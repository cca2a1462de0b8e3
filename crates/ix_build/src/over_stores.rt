//! Building the index text of a collection over run stores.
ghost use Rattle.std.specs.Prelude.{◌≡◌, Some, IfErr, OnErr, OnOk, slice_get, vec_len};
ghost use Rattle.ix_text.specs.Collections.{collection_of};
ghost use Rattle.ix_merge.specs.Endings.{WritesIndexText};
ghost use Rattle.ix_build.specs.AlikeFronts.{LeavesAlikeFront, WritesAlike};
ghost use Rattle.ix_build.specs.BuiltOver.{AreBlocksSaved, FailsOver};
ghost use Rattle.ix_build.specs.GivenBack.{GivesBlocksBack};
ghost use Rattle.ix_build.specs.KeptHeadings.{IsHeadingOfBlock};
ghost use Rattle.ix_build.specs.OwnParts.{LeavesOwnPart};
ghost use Rattle.ix_build.specs.ReadBack.{TellBytes, TellsCause};
ghost use Rattle.ix_build.specs.Stores.{HasRefused};

use crate::blocks::{block_count, bounds_of};
use crate::build_error::BuildError;
use crate::plan::Plan;
use crate::read_back::merge_saved;
use crate::save::{Saved, save_blocks};
use crate::store::RunStore;
use ix_text::{Collection, StopList};
use std::alloc::Global;
use std::io::Write;
use std::sync::Wait;
use std::thread::Threads;

/// The stores that come back, and whether the index text was written.
pub struct BuiltOver<T> {
    /// The stores, in the order in which they were handed in. After `Thread` nothing is said of them.
    pub stores: Vec<T>,
    /// Nothing, or why the index text was not written whole.
    pub result: Result<(), BuildError>,
}

/// Writes the index text, version 2, of a collection under a stop list, as `build` does, but keeps each block's run in a
/// store until all are merged (IIR 4.3): one store for each worker of the plan. Only the head of each run stays in memory.
/// The first store gives all runs back, and the merge reads them as it goes.
///
/// What is written has the stop terms, and the names and token counts of the documents, of the collection; it is the
/// collection's own index text if the first store gives back no other bytes than the runs of the blocks, and the bytes of
/// its readers are known.
///
/// # Errors
/// Before anything is written: `Thread` if a thread cannot be started; `Spill` with the lowest place whose run a store did
/// not save, or else with the lowest that was not given back with the head that was kept of it. `Spill` too if a run that
/// is read turns out not to be one; `Write` if a write or the flush fails; `Memory` if out of memory. After these a
/// prefix of such a text is written, perhaps nothing of it; if the first store gives back only the runs, and the bytes of
/// its readers are known, a prefix of the collection's own, and all of it only after `Write`.
pub fn build_over<T: RunStore, W: Write, R: Threads + Wait + Sync>(
    rt: &R,
    alloc: Global,
    collection: &Collection<'_>,
    stop: &StopList,
    plan: &Plan,
    stores: Vec<T>,
    out: &mut W,
) -> BuiltOver<T>
    requires { vec_len stores ≡ plan.now.workers }

    ensures written { OnOk result.result (WritesAlike (collection_of stop.now collection.now)
        (W.contents out.old) (W.contents out.new)) }
    ensures exact { OnOk result.result ((first : T) → slice_get stores.items 0 ≡ Some first
        → TellBytes T.Reader.remaining
        → GivesBlocksBack plan.now.cut collection.now stop.now (T.back first)
        → WritesIndexText (W.contents out.old) (W.contents out.new)
        (collection_of stop.now collection.now)) }

    // Each block's run was saved once, by one store.
    ensures saved { OnOk result.result (AreBlocksSaved T.places T.refusals T.back
        plan.now.cut collection.now stores.items result.stores.items) }

    // What an error says, and what it leaves.
    ensures failed { IfErr result.result (FailsOver T.places T.refusals T.back
        plan.now.cut collection.now stores.items result.stores.items
        (W.contents out.old) (W.contents out.new)) }

    // Before anything is written `Spill` comes only if a store refused a call, or if what the first
    // one gave back for the place is no run, or one with another head; and afterwards only if it
    // may not be read to its end.
    ensures caused { (first : T) → slice_get stores.items 0 ≡ Some first
        → IfErr result.result (TellsCause T.Reader.remaining
        (HasRefused T.refusals stores.items result.stores.items)
        (IsHeadingOfBlock plan.now.cut collection.now stop.now) (T.back first)
        (W.contents out.old) (W.contents out.new)) }
    ensures front { OnErr result.result (LeavesAlikeFront (collection_of stop.now collection.now)
        (W.contents out.old) (W.contents out.new)) }
    ensures unfinished { (first : T) → slice_get stores.items 0 ≡ Some first
        → TellBytes T.Reader.remaining
        → GivesBlocksBack plan.now.cut collection.now stop.now (T.back first)
        → IfErr result.result (λ error. LeavesOwnPart (collection_of stop.now collection.now)
        (W.contents out.old) (W.contents out.new) (error ≡ BuildError.Write)) }
{
    // One store for each worker.
    let workers = plan.workers();
    prove!(stores.len() == workers);
    let docs = collection.docs();
    let Ok(bounds) = bounds_of(alloc, docs, plan.cut()) else {
        return BuiltOver {
            stores,
            result: Err(BuildError::Memory),
        };
    };
    let bounds = bounds.as_slice();
    let count = block_count(bounds);
    let Saved { mut stores, result } = save_blocks(rt, alloc, docs, stop, bounds, count, stores);
    let heads = match result {
        Ok(heads) => heads,
        Err(error) => {
            return BuiltOver {
                stores,
                result: Err(error),
            };
        }
    };
    let result = merge_saved(alloc, &mut stores[0], heads.as_slice(), out);
    BuiltOver { stores, result }
}

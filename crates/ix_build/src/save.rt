//! Saving the runs of blocks, by workers that each have a store of their own.
ghost use Rattle.std.specs.Prelude.{◌≡◌, ◌+◌, ◌<◌, ◌≤◌, [], length, map, vec_len, All, IfErr, IfOk, OnOk};
ghost use Rattle.std.specs.Vec.{vec_capacity};
ghost use Rattle.ix_text.specs.Docs.{named_text};
ghost use Rattle.ix_text.specs.Sizes.{AreSmall};
ghost use Rattle.ix_build.specs.Blocks.{AscendUpTo};
ghost use Rattle.ix_build.specs.SavedBlocks.{AreHeadsOf, FailsToSave, unsaved_at};
ghost use Rattle.ix_build.specs.SavingMakers.{IsSavingMakerOf, store_of};
ghost use Rattle.ix_build.specs.Stores.{AreSaved};

use crate::block_maker::BlockMaker;
use crate::build_error::BuildError;
use crate::saving_maker::SavingMaker;
use crate::store::RunStore;
use crate::watch::Unwatched;
use ix_pool::{MakeError, Outcome, WorkError, work_all};
use ix_run::RunHead;
use ix_text::{Doc, StopList};
use std::alloc::Global;
use std::sync::Wait;
use std::thread::Threads;

/// The stores that come back, and the heads of the runs of all blocks, or why there are none.
pub(crate) struct Saved<T> {
    /// The stores, in the order in which they were handed in. After `Thread` nothing is said of them.
    pub(crate) stores: Vec<T>,
    /// The head of each block's run, or why not all were saved.
    pub(crate) result: Result<Vec<RunHead>, BuildError>,
}

/// A maker of the blocks over each store, pushed onto `makers` without an allocation.
fn makers_over<'a, T: Drop>(
    alloc: Global,
    docs: &'a [Doc<'a>],
    stop: &'a StopList,
    bounds: &'a [usize],
    stores: Vec<T>,
    mut makers: Vec<SavingMaker<'a, T>>,
) -> Vec<SavingMaker<'a, T>>
    requires ascending { AscendUpTo (length docs.now) bounds.now }
    requires small { AreSmall (map named_text docs.now) }
    requires room { (makers.items ≡ []) × (vec_len stores ≤ vec_capacity makers) }
    ensures stores { map store_of result.items ≡ stores.items }
    ensures each { All (IsSavingMakerOf (map named_text docs.now) stop.now bounds.now)
        result.items }
{
    for store in stores {
        let inverter = BlockMaker::new(alloc, docs, stop, bounds, &Unwatched);
        makers.push_reserved(SavingMaker { inverter, store });
    }
    makers
}

/// The stores of the makers, pushed onto `stores` without an allocation.
fn stores_of<T: Drop>(makers: Vec<SavingMaker<'_, T>>, mut stores: Vec<T>) -> Vec<T>
    requires room { (stores.items ≡ []) × (vec_len makers ≤ vec_capacity stores) }
    ensures { result.items ≡ map store_of makers.entry.items }
{
    for maker in makers {
        stores.push_reserved(maker.store);
    }
    stores
}

/// Why the run of a place was not saved.
fn unsaved(place: usize, error: MakeError) -> BuildError
    ensures { result ≡ unsaved_at place error }
{
    match error {
        MakeError::Refused => BuildError::Spill(place),
        MakeError::Memory => BuildError::Memory,
    }
}

/// Saves the run of each block between the bounds, by workers that each have a store and a thread of their own.
///
/// # Errors
/// `Thread` if a thread cannot be started; `Spill` with the lowest place whose run was not saved; `Memory` if out of
/// memory.
pub(crate) fn save_blocks<T: RunStore, R: Threads + Wait + Sync>(
    rt: &R,
    alloc: Global,
    docs: &[Doc<'_>],
    stop: &StopList,
    bounds: &[usize],
    count: usize,
    stores: Vec<T>,
) -> Saved<T>
    requires ascending { AscendUpTo (length docs.now) bounds.now }
    requires small { AreSmall (map named_text docs.now) }
    requires all { count + 1 ≡ length bounds.now }
    requires few { (0 < vec_len stores) × (vec_len stores ≤ 64) }
    ensures saved { OnOk result.result (AreSaved T.places T.refusals T.back stores.items count
        result.stores.items) }
    ensures heads { IfOk result.result (λ heads.
        AreHeadsOf (map named_text docs.now) stop.now bounds.now heads.items) }
    ensures failed { IfErr result.result (λ error. FailsToSave T.places T.refusals T.back
        stores.items count result.stores.items error) }
{
    let (Ok(makers), Ok(room)) = (
        Vec::with_capacity(alloc, stores.len()),
        Vec::with_capacity(alloc, stores.len()),
    ) else {
        return Saved {
            stores,
            result: Err(BuildError::Memory),
        };
    };
    let makers = makers_over(alloc, docs, stop, bounds, stores, makers);
    let Outcome { makers, result } = work_all(rt, alloc, makers, count);
    match result {
        Ok(heads) => Saved {
            stores: stores_of(makers, room),
            result: Ok(heads),
        },
        Err(WorkError::Thread(worker)) => Saved {
            stores: room,
            result: Err(BuildError::Thread(worker)),
        },
        Err(WorkError::Make(place, error)) => Saved {
            stores: stores_of(makers, room),
            result: Err(unsaved(place, error)),
        },
        Err(WorkError::Memory) => Saved {
            stores: stores_of(makers, room),
            result: Err(BuildError::Memory),
        },
    }
}

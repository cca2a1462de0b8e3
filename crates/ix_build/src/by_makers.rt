//! Building an index text of the runs that makers make.
ghost use Rattle.std.specs.Prelude.{◌<◌, ◌≤◌, IfErr, OnOk, vec_len};
ghost use Rattle.ix_build.specs.Built.{FailsToBuild, IsBuilt};

use crate::inverted_blocks::merge_runs;
use ix_merge::MergeError;
use ix_pool::{MakeError, Maker, Outcome, WorkError, work_all};
use ix_run::Run;
use ix_text::Memory;
use std::alloc::Global;
use std::io::Write;
use std::sync::Wait;
use std::thread::Threads;
use thiserror::Error;

/// Why makers of runs built no index.
#[derive(Debug, Drop, PartialEq, Eq, Error)]
pub enum ByError {
    /// The thread of the worker with this number, from 0, could not be started.
    #[error("Thread({0})")]
    Thread(usize),
    /// The lowest place that a maker did not make, and why.
    #[error("Make({0}, {1})")]
    Make(usize, MakeError),
    /// All runs were made, and their merge failed.
    #[error("Merge({0})")]
    Merge(MergeError<Memory>),
    /// Out of memory in the work that the makers share.
    #[error("Memory")]
    Memory,
}

impl ByError {
    ghost use Rattle.std.specs.Prelude.{◌≡◌};
    ghost use Rattle.ix_build.specs.ByErrors.{by_error_number};

    /// The error's number in the list of these errors, from 1.
    pub fn number(&self) -> u8
        ensures { result ≡ by_error_number self.now }
    {
        match self {
            ByError::Thread(_) => 1,
            ByError::Make(_, _) => 2,
            ByError::Merge(_) => 3,
            ByError::Memory => 4,
        }
    }
}

/// The makers that come back, and whether the index text was written.
pub struct Built<M: Maker> {
    /// The makers, in the order in which they were handed in. After `Thread` nothing is said of them.
    pub makers: Vec<M>,
    /// Nothing, or why the index text was not written whole.
    pub result: Result<(), ByError>,
}

/// Has a run made of each place below `count`, by makers that each work in a thread of their own, and merges the runs
/// into the index text, version 2, of the concatenation of their collections (IIR 4.3). The makers come back in their
/// order.
///
/// # Errors
/// Before anything is written: `Thread` if a thread cannot be started, after which nothing is said of the makers;
/// `Memory` if the work that they share is out of memory; `Make` with the lowest place that was not made. `Merge` if all
/// runs are made and their merge fails; a prefix of the index text is then written, perhaps nothing of it, and all of
/// it only if the merge fails with `Write`.
pub fn build_by<M: Maker<Piece = Run>, W: Write, R: Threads + Wait + Sync>(
    rt: &R,
    alloc: Global,
    makers: Vec<M>,
    count: usize,
    out: &mut W,
) -> Built<M>
    requires { (0 < vec_len makers) × (vec_len makers ≤ 64) }
    ensures written { OnOk result.result (IsBuilt M.askings M.gives M.follows makers.items count
        result.makers.items (W.contents out.old) (W.contents out.new)) }
    ensures failed { IfErr result.result (FailsToBuild M.askings M.gives M.follows makers.items
        count result.makers.items (W.contents out.old) (W.contents out.new)) }
{
    let Outcome { makers, result } = work_all(rt, alloc, makers, count);
    let result = match result {
        Ok(runs) => match merge_runs(alloc, runs.as_slice(), out) {
            Ok(()) => Ok(()),
            Err(error) => Err(ByError::Merge(error)),
        },
        Err(WorkError::Thread(worker)) => Err(ByError::Thread(worker)),
        Err(WorkError::Make(place, error)) => Err(ByError::Make(place, error)),
        Err(WorkError::Memory) => Err(ByError::Memory),
    };
    Built { makers, result }
}

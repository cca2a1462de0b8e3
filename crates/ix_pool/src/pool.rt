//! Work on all places, shared among makers.
ghost use Rattle.std.specs.Prelude.{◌≡◌, ◌<◌, ◌≤◌, [], Option, Some, None, IsSome, map, All, IfOk, IfErr, vec_len, vec_capacity};
ghost use Rattle.ix_board.specs.Desks.{fresh_desks};
ghost use Rattle.ix_pool.specs.Outcomes.{IsMade, Fails};
ghost use Rattle.ix_pool.specs.Endings.{IsEnded, HasNoGap};

use crate::maker::{MakeError, Maker};
use crate::threads::{Handle, work_in_threads};
use crate::worker::Report;
use ix_board::{Board, Desk};
use std::alloc::Global;
use std::sync::Wait;
use std::thread::Threads;
use thiserror::Error;

/// Why the work gave no pieces.
#[derive(Clone, Copy, Debug, PartialEq, Eq, Error)]
pub enum WorkError {
    /// The thread of the worker with this number, from 0, could not be started.
    #[error("Thread({0})")]
    Thread(usize),
    /// The lowest place that a maker did not make, and why.
    #[error("Make({0}, {1})")]
    Make(usize, MakeError),
    /// Out of memory in the work itself: for the board, the threads' handles, the pieces, or a maker's list.
    #[error("Memory")]
    Memory,
}

impl WorkError {
    ghost use Rattle.ix_pool.specs.Errors.{work_error_number};

    /// The error's number in the list of these errors, from 1.
    pub fn number(&self) -> u8
        ensures { result ≡ work_error_number self.now }
    {
        match self {
            WorkError::Thread(_) => 1,
            WorkError::Make(_, _) => 2,
            WorkError::Memory => 3,
        }
    }
}

/// The makers that come back, and the pieces of all places in order, or why there are none.
pub struct Outcome<M: Maker> {
    /// The makers, in the order in which they were handed in. After `Thread` nothing is said of them.
    pub makers: Vec<M>,
    /// The piece of each place, or why there is none.
    pub result: Result<Vec<M::Piece>, WorkError>,
}

// Everything that the work allocates: the threads' handles, the pieces, and the board with its desks.
struct Workspace<M: Maker> {
    handles: Vec<Handle<M>>,
    pieces: Vec<M::Piece>,
    board: Board<M::Piece>,
    desks: Vec<Desk<M::Piece>>,
}

fn prepare<M: Maker>(alloc: Global, workers: usize, count: usize) -> Result<Workspace<M>, WorkError>
    requires { (0 < workers) × (workers ≤ 64) }
    ensures handles { IfOk result (λ workspace. (workspace.handles.items ≡ [])
        × (vec_capacity workspace.handles ≡ workers)) }
    ensures pieces { IfOk result (λ workspace. (workspace.pieces.items ≡ [])
        × (vec_capacity workspace.pieces ≡ count)) }
    ensures board { IfOk result (λ workspace. (workspace.board.count ≡ count)
        × (workspace.board.workers ≡ workers)) }
    ensures desks { IfOk result (λ workspace.
        workspace.desks.items ≡ fresh_desks workspace.board workers) }
    ensures as_many { IfOk result (λ workspace. vec_len workspace.desks ≡ workers) }
    ensures own { IfOk result (λ workspace.
        All (λ d. d.board ≡ workspace.board) workspace.desks.items) }
    ensures memory { IfErr result (λ error. error ≡ WorkError.Memory) }
{
    let (Ok(handles), Ok(pieces)) = (
        Vec::with_capacity(alloc, workers),
        Vec::with_capacity(alloc, count),
    ) else {
        return Err(WorkError::Memory);
    };
    let Ok((board, desks)) = Board::open(alloc, count, workers) else {
        return Err(WorkError::Memory);
    };
    Ok(Workspace {
        handles,
        pieces,
        board,
        desks,
    })
}

// The pieces of all places, each of which has one.
fn unwrap_all<P: Drop>(found: Vec<Option<P>>, mut pieces: Vec<P>) -> Vec<P>
    requires whole { All IsSome found.items }
    requires room { (pieces.items ≡ []) × (vec_len found ≤ vec_capacity pieces) }
    ensures { map Some result.items ≡ found.items }
{
    for piece in found {
        let Some(piece) = piece else { unreachable!() };
        pieces.push_reserved(piece);
    }
    pieces
}

// The pieces of all places, or why there are none, once the workers have ended as reported.
fn collect<P: Drop>(
    board: Board<P>,
    desks: Vec<Desk<P>>,
    report: Report,
    pieces: Vec<P>,
) -> Result<Vec<P>, WorkError>
    requires own { All (λ d. d.board ≡ board) desks.items }
    requires all { vec_len desks ≡ board.workers }
    requires no_gap { HasNoGap board desks.items report.lowest report.stopped }
    requires room { (pieces.items ≡ []) × (board.count ≤ vec_capacity pieces) }
    ensures { IsEnded board desks.items report.lowest report.stopped result }
{
    let found = board.close(desks);
    if report.stopped {
        return Err(WorkError::Memory);
    }
    match report.lowest {
        Some(refusal) => Err(WorkError::Make(refusal.place, refusal.error)),
        None => Ok(unwrap_all(found, pieces)),
    }
}

/// Has each place below `count` made once, by makers that each work in a thread of their own: maker w begins with place w,
/// and each takes the next open place when it has done one. A place that its maker does not make is given up, and the work
/// goes on. The makers come back in their order.
///
/// # Errors
/// `Thread` if a thread cannot be started; nothing is then said of the makers. `Memory` if out of memory. `Make` with the
/// lowest place that was not made.
pub fn work_all<M: Maker, R: Threads + Wait + Sync>(
    rt: &R,
    alloc: Global,
    makers: Vec<M>,
    count: usize,
) -> Outcome<M>
    requires { (0 < vec_len makers) × (vec_len makers ≤ 64) }
    ensures made { IfOk result.result (λ pieces.
        IsMade M.askings M.gives M.follows makers.items count result.makers.items pieces.items) }
    ensures failed { IfErr result.result (λ error.
        Fails M.askings M.gives M.follows makers.items count result.makers.items error) }
{
    let workspace = match prepare(alloc, makers.len(), count) {
        Ok(workspace) => workspace,
        Err(error) => {
            return Outcome {
                makers,
                result: Err(error),
            };
        }
    };
    let Workspace {
        handles,
        pieces,
        board,
        desks,
    } = workspace;
    match work_in_threads(rt, &board, makers, desks, handles) {
        Err(worker) => Outcome {
            makers: Vec::new(alloc),
            result: Err(WorkError::Thread(worker)),
        },
        Ok((makers, desks, report)) => Outcome {
            makers,
            result: collect(board, desks, report, pieces),
        },
    }
}

//! All workers, each in a thread of its own.
ghost use Rattle.std.specs.Prelude.{◌≡◌, ◌+◌, ◌<◌, ◌≤◌, [], map, reverse, IfOk, IfErr, OnOk, All, vec_len, vec_capacity};
ghost use Rattle.ix_pool.specs.Shifts.{HaveWorked};
ghost use Rattle.ix_pool.specs.Working.{WholeStint};

use crate::maker::Maker;
use crate::worker::{Report, work};
use ix_board::{Board, Desk};
use std::snapshot::Snapshot;
use std::sync::Wait;
use std::thread;
use std::thread::{Promise, PromisedHandle, Scope, Threads, scope_env};

/// The maker and the desk with which a worker began: its thread promises to come back with both, after a whole stint.
#[derive(Drop)]
pub(crate) struct Begun<M: Maker> {
    pub(crate) maker: Snapshot<M>,
    pub(crate) desk: Snapshot<Desk<M::Piece>>,
}

impl<M: Maker> Promise<(M, Desk<M::Piece>, Report)> for Begun<M> {
    ghost use Rattle.ix_pool.specs.Working.{WholeStint};

    ghost kept_by = { λ begun back. WholeStint M.askings M.gives M.follows
        begun.maker.value begun.desk.value back.0 back.1 back.2.lowest back.2.stopped };
}

/// A worker's thread, which is still to be joined.
pub(crate) type Handle<M> = PromisedHandle<(M, Desk<<M as Maker>::Piece>, Report), Begun<M>>;

// Starts a thread for each maker and its desk, the last one first. Err: the number of the worker whose thread could not
// be started, behind which all were.
fn start_all<'s, E: 's, M: Maker + 's, R: Threads + Wait + Sync + 's>(
    scope: &Scope<'s, E>,
    rt: &'s R,
    board: &'s Board<M::Piece>,
    makers: &mut Vec<M>,
    desks: &mut Vec<Desk<M::Piece>>,
    handles: &mut Vec<Handle<M>>,
) -> Result<(), usize>
    requires own { All (λ d. d.board ≡ board.now) desks.old.items }
    requires as_many { vec_len desks.old ≡ vec_len makers.old }
    requires none { handles.old.items ≡ [] }
    requires room { vec_len makers.old ≤ vec_capacity handles.old }
    ensures makers { OnOk result (reverse (map (λ h. h.promise.maker.value)
        handles.new.items) ≡ makers.old.items) }
    ensures desks { OnOk result (reverse (map (λ h. h.promise.desk.value)
        handles.new.items) ≡ desks.old.items) }
    ensures all { OnOk result (vec_len handles.new ≡ vec_len makers.old) }
    ensures emptied { OnOk result ((makers.new.items ≡ []) × (desks.new.items ≡ [])) }
    ensures makers_room { vec_capacity makers.new ≡ vec_capacity makers.old }
    ensures desks_room { vec_capacity desks.new ≡ vec_capacity desks.old }
    ensures refused { IfErr result
        (λ worker. worker + vec_len handles.new + 1 ≡ vec_len makers.old) }
{
    while let Some(maker) = makers.pop() {
        let Some(desk) = desks.pop() else {
            unreachable!()
        };
        let begun = Begun {
            maker: Snapshot::of(&maker),
            desk: Snapshot::of(&desk),
        };
        let worker = move || -> (M, Desk<M::Piece>, Report)
            requires { desk.board ≡ board.now }
            ensures { WholeStint M.askings M.gives M.follows maker desk result.0 result.1
                result.2.lowest result.2.stopped }
        { work(rt, board, maker, desk) };
        let Ok(handle) = scope.spawn_with(begun, worker) else {
            return Err(makers.len());
        };
        handles.push_reserved(handle);
    }
    Ok(())
}

// Joins all threads. Their makers and desks come back in their order, without an allocation.
fn join_all<M: Maker, R: Threads>(
    rt: &R,
    handles: &mut Vec<Handle<M>>,
    makers: &mut Vec<M>,
    desks: &mut Vec<Desk<M::Piece>>,
) -> Report
    requires none { (makers.old.items ≡ []) × (desks.old.items ≡ []) }
    requires room { (vec_len handles.old ≤ vec_capacity makers.old)
        × (vec_len handles.old ≤ vec_capacity desks.old) }
    ensures { HaveWorked M.askings M.gives M.follows
        (reverse (map (λ h. h.promise.maker.value) handles.old.items))
        (reverse (map (λ h. h.promise.desk.value) handles.old.items))
        makers.new.items desks.new.items result.lowest result.stopped }
{
    let mut all = Report {
        lowest: None,
        stopped: false,
    };
    while let Some(handle) = handles.pop() {
        let (maker, desk, report) = handle.join(rt);
        makers.push_reserved(maker);
        desks.push_reserved(desk);
        all = all.with(report);
    }
    all
}

/// Each maker works at its desk in a thread of its own, until no place of the board is open. Err: the number of the worker
/// whose thread could not be started.
pub(crate) fn work_in_threads<M: Maker, R: Threads + Wait + Sync>(
    rt: &R,
    board: &Board<M::Piece>,
    makers: Vec<M>,
    desks: Vec<Desk<M::Piece>>,
    handles: Vec<Handle<M>>,
) -> Result<(Vec<M>, Vec<Desk<M::Piece>>, Report), usize>
    requires own { All (λ d. d.board ≡ board.now) desks.items }
    requires as_many { vec_len desks ≡ vec_len makers }
    requires none { handles.items ≡ [] }
    requires room { vec_len makers ≤ vec_capacity handles }
    ensures worked { IfOk result (λ back. HaveWorked M.askings M.gives M.follows makers.items
        desks.items
        back.0.items back.1.items back.2.lowest back.2.stopped) }
    ensures refused { IfErr result (λ worker. worker < vec_len makers) }
{
    thread::scope(
        scope_env(),
        rt,
        move |scope| -> Result<(Vec<M>, Vec<Desk<M::Piece>>, Report), usize>
            requires own { All (λ d. d.board ≡ board.now) desks.items }
            requires as_many { vec_len desks ≡ vec_len makers }
            requires none { handles.items ≡ [] }
            requires room { vec_len makers ≤ vec_capacity handles }
            ensures worked { IfOk result (λ back. HaveWorked M.askings M.gives M.follows
                makers.items desks.items
                back.0.items back.1.items back.2.lowest back.2.stopped) }
            ensures refused { IfErr result (λ worker. worker < vec_len makers) }
        {
            let mut makers = makers;
            let mut desks = desks;
            let mut handles = handles;
            start_all(scope, rt, board, &mut makers, &mut desks, &mut handles)?;
            let report = join_all(rt, &mut handles, &mut makers, &mut desks);
            Ok((makers, desks, report))
        },
    )
}

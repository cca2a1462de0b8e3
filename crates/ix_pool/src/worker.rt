//! One worker: it takes place after place until none is open.
ghost use Rattle.std.specs.Prelude.{◌≡◌, false, List, ◌++◌, Some, IfSome, IfNone};
ghost use Rattle.ix_board.specs.Desks.{place_held};
ghost use Rattle.ix_pool.specs.declared.maker.Asked.{Asked};
ghost use Rattle.ix_pool.specs.Lowest.{IsLowest};
ghost use Rattle.ix_pool.specs.Working.{WholeStint};
ghost use Rattle.ix_pool.specs.Taking.{TakesPlace, FindsNone, HandsIn};

use crate::maker::{MakeError, Maker};
use ix_board::{Board, Desk};
use std::sync::Wait;

/// A place that a maker did not make, and why.
#[derive(Clone, Copy)]
pub(crate) struct Refusal {
    pub(crate) place: usize,
    pub(crate) error: MakeError,
}

/// The one of two refusals with the lower place, or the only one.
pub(crate) fn lower(first: Option<Refusal>, second: Option<Refusal>) -> Option<Refusal>
    ensures { (askings more : List Asked) → IsLowest askings first → IsLowest more second →
        IsLowest (askings ++ more) result }
{
    let Some(one) = first else {
        return second;
    };
    let Some(other) = second else {
        return first;
    };
    if one.place <= other.place {
        first
    } else {
        second
    }
}

/// How a worker's work ended.
#[derive(Clone, Copy)]
pub(crate) struct Report {
    /// The lowest place that its maker did not make.
    pub(crate) lowest: Option<Refusal>,
    /// Whether it stopped because there was no memory for a further asking.
    pub(crate) stopped: bool,
}

impl Report {
    /// How the work of two workers ended.
    pub(crate) fn with(self, other: Report) -> Report
        ensures lowest { (askings more : List Asked) → IsLowest askings self.lowest →
            IsLowest more other.lowest
            → IsLowest (askings ++ more) result.lowest }
        ensures stopped { result.stopped ≡ false → (self.stopped ≡ false)
            × (other.stopped ≡ false) }
    {
        Report {
            lowest: lower(self.lowest, other.lowest),
            stopped: self.stopped || other.stopped,
        }
    }
}

// The place to work on: the one that the desk holds, or else one that it claims. None: no place is open.
fn next_place<P>(board: &Board<P>, desk: &mut Desk<P>) -> Option<usize>
    requires { desk.old.board ≡ board.now }
    ensures some { IfSome result (TakesPlace desk.old desk.new) }
    ensures none { IfNone result (FindsNone desk.old desk.new) }
{
    match desk.held() {
        Some(place) => Some(place),
        None => desk.claim(board),
    }
}

// Delivers the piece of the place that the desk holds, or gives the place up if none was made.
fn hand_in<P: Drop>(
    board: &Board<P>,
    desk: &mut Desk<P>,
    place: usize,
    made: Result<P, MakeError>,
) -> Option<Refusal>
    requires board { desk.old.board ≡ board.now }
    requires held { place_held desk.old ≡ Some place }
    ensures { HandsIn desk.old desk.new place made result }
{
    match made {
        Ok(piece) => {
            desk.deliver(board, piece);
            None
        }
        Err(error) => {
            desk.give_up(board);
            Some(Refusal { place, error })
        }
    }
}

/// Takes places and has the maker make them, one after another. Room for an asking is made before its place is taken;
/// if that fails the worker stops.
pub(crate) fn work<M: Maker, R: Wait>(
    rt: &R,
    board: &Board<M::Piece>,
    mut maker: M,
    mut desk: Desk<M::Piece>,
) -> (M, Desk<M::Piece>, Report)
    requires { desk.board ≡ board.now }
    ensures { WholeStint M.askings M.gives M.follows maker desk result.0 result.1 result.2.lowest
        result.2.stopped }
{
    let mut lowest = None;
    for _ in rt.forever() {
        if maker.reserve(1).is_err() {
            let report = Report {
                lowest,
                stopped: true,
            };
            return (maker, desk, report);
        }
        let Some(place) = next_place(board, &mut desk) else {
            let report = Report {
                lowest,
                stopped: false,
            };
            return (maker, desk, report);
        };
        let made = maker.make(place);
        lowest = lower(lowest, hand_in(board, &mut desk, place, made));
    }
    unreachable!()
}

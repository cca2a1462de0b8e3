//! What no clause says: that a board opens, that its calls answer, and the worked rows.
ghost use Rattle.std.specs.Prelude.{◌≡◌, ◌<◌, ◌≤◌, IfOk, IfSome, All};

mod threads;

use ix_board::{Board, Desk};
use std::alloc::{AllocError, Global};
use std::process::Abort;
use std::test::Fail;

// Delivers a piece at the place that a desk holds.
fn deliver<P>(rt: &impl Abort, board: &Board<P>, desk: &mut Desk<P>, piece: P)
    requires { desk.old.board ≡ board.now }
    ensures { desk.new.board ≡ board.now }
{
    let held = desk.held();
    assert!(rt; held.is_some());
    desk.deliver(board, piece);
}

// What a desk claims that holds no place.
fn claim<P>(rt: &impl Abort, board: &Board<P>, desk: &mut Desk<P>) -> Option<usize>
    requires { desk.old.board ≡ board.now }
    ensures { desk.new.board ≡ board.now }
{
    let held = desk.held();
    assert!(rt; held.is_none());
    desk.claim(board)
}

// Gives up the place that a desk holds.
fn give_up<P>(rt: &impl Abort, board: &Board<P>, desk: &mut Desk<P>)
    requires { desk.old.board ≡ board.now }
    ensures { desk.new.board ≡ board.now }
{
    let held = desk.held();
    assert!(rt; held.is_some());
    desk.give_up(board);
}

// The place that a desk holds.
fn held<P>(desk: &Desk<P>) -> Option<usize> {
    desk.held()
}

// A board and its desks.
fn open<P>(
    alloc: Global,
    count: usize,
    workers: usize,
) -> Result<(Board<P>, Vec<Desk<P>>), AllocError>
    requires { (0 < workers) × (workers ≤ 64) }
    ensures own { IfOk result (λ r. All (λ d. d.board ≡ r.0) r.1.items) }
    ensures workers { IfOk result (λ r. r.0.workers ≡ workers) }
{
    Board::open(alloc, count, workers)
}

// The last of some desks.
fn pop<P>(board: &Board<P>, desks: &mut Vec<Desk<P>>) -> Option<Desk<P>>
    requires { All (λ d. d.board ≡ board.now) desks.old.items }
    ensures rest { All (λ d. d.board ≡ board.now) desks.new.items }
    ensures own { IfSome result (λ d. d.board ≡ board.now) }
{
    desks.pop()
}

// A board with two desks, which are desk 0 and desk 1.
fn open_two<P: Drop>(alloc: Global, count: usize) -> Result<(Board<P>, Desk<P>, Desk<P>), Fail>
    ensures own { IfOk result (λ r. (r.1.board ≡ r.0) × (r.2.board ≡ r.0)) }
    ensures workers { IfOk result (λ r. r.0.workers ≡ 2) }
{
    let (board, mut desks) = open(alloc, count, 2)?;
    let Some(one) = pop(&board, &mut desks) else {
        return Err("desk 1")?;
    };
    let Some(zero) = pop(&board, &mut desks) else {
        return Err("desk 0")?;
    };
    Ok((board, zero, one))
}

// The pieces of a board, to which its two desks come back in this order.
fn close_two<P: Drop>(
    alloc: Global,
    board: Board<P>,
    first: Desk<P>,
    second: Desk<P>,
) -> Result<Vec<Option<P>>, AllocError>
    requires own { (first.board ≡ board) × (second.board ≡ board) }
    requires workers { board.workers ≡ 2 }
{
    let mut desks = Vec::with_capacity(alloc, 2)?;
    desks.push_reserved(first);
    desks.push_reserved(second);
    Ok(board.close(desks))
}

// The pieces with a blank behind each, and `-` for none.
fn told(alloc: Global, pieces: &[Option<&str>]) -> Result<String, AllocError> {
    let mut told = String::new(alloc);
    for piece in pieces {
        told.push_str(piece.unwrap_or("-"))?;
        told.push(' ')?;
    }
    Ok(told)
}

// Of three places desk 1 does two, and finds no other.
fn do_two(rt: &impl Abort, board: &Board<&'static str>, one: &mut Desk<&'static str>)
    requires { one.old.board ≡ board.now }
    ensures { one.new.board ≡ board.now }
{
    deliver(rt, board, one, "B");
    let second = claim(rt, board, one);
    assert_eq!(rt; second, Some(2));
    deliver(rt, board, one, "C");
    let third = claim(rt, board, one);
    assert_eq!(rt; third, None);
}

// Desk 0 gives up its place, and finds no other.
fn do_none(rt: &impl Abort, board: &Board<&'static str>, zero: &mut Desk<&'static str>)
    requires { zero.old.board ≡ board.now }
    ensures { zero.new.board ≡ board.now }
{
    give_up(rt, board, zero);
    let other = claim(rt, board, zero);
    assert_eq!(rt; other, None);
}

#[test]
fn two_desks_do_three_places(rt: HostRuntime) -> Result<(), Fail> {
    let (board, mut zero, mut one) = open_two(rt.alloc(), 3)?;
    assert_eq!(rt; held(&zero), Some(0));
    assert_eq!(rt; held(&one), Some(1));
    do_two(&rt, &board, &mut one);
    do_none(&rt, &board, &mut zero);
    let pieces = close_two(rt.alloc(), board, zero, one)?;
    assert_eq!(rt; told(rt.alloc(), &pieces)?.as_str(), "- B C ");
    Ok(())
}

#[test]
fn pieces_stand_in_their_places(rt: HostRuntime) -> Result<(), Fail> {
    let (board, mut zero, mut one) = open_two(rt.alloc(), 2)?;
    deliver(&rt, &board, &mut one, "B");
    deliver(&rt, &board, &mut zero, "A");
    // The desks come back in another order than they were dealt.
    let pieces = close_two(rt.alloc(), board, one, zero)?;
    assert_eq!(rt; told(rt.alloc(), &pieces)?.as_str(), "A B ");
    Ok(())
}

#[test]
fn boards_without_room_are_refused(rt: HostRuntime) {
    // The words of the first have no length, those of the second no block.
    assert!(rt; Board::<u64>::open(rt.alloc(), usize::MAX, 1).is_err());
    assert!(rt; Board::<u64>::open(rt.alloc(), 1 << 60, 1).is_err());
}

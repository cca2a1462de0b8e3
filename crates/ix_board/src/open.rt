//! Opening a board: the room for it, for its desks and for what closing it gives.
ghost use Rattle.std.specs.Prelude.{◌≡◌, ◌+◌, ◌<◌, ◌≤◌, IfOk, All, vec_len};
ghost use Rattle.ix_board.specs.Starts.{AreFirstWords};
ghost use Rattle.ix_board.specs.Desks.{fresh_desks};
ghost use Rattle.ix_board.specs.Rooms.{HasRoom};
ghost use Rattle.ix_board.specs.Seats.{IsDealer};

use crate::Memory;
use crate::board::Board;
use crate::desk::Desk;
use crate::rule::{BoardSeat, HELD, OPEN};
use std::alloc::{AllocError, Global};

// The words of a new board.
fn first_words(alloc: Global, count: usize, workers: usize) -> Result<Vec<u64>, Memory>
    ensures { IfOk result (λ v. AreFirstWords count workers v.items) }
{
    if count == usize::MAX {
        return Err(AllocError);
    }
    let mut words = vec![in alloc; OPEN; count + 1]?;
    for place in 0..count.min(workers) {
        words[place] = HELD;
    }
    Ok(words)
}

// The room for the pieces, and that for the desks.
fn empty_rooms<P>(
    alloc: Global,
    count: usize,
    workers: usize,
) -> Result<(Vec<Option<P>>, Vec<Desk<P>>), Memory>
    ensures { IfOk result (λ r. HasRoom count r.0 × HasRoom workers r.1) }
{
    let pieces = Vec::with_capacity(alloc, count)?;
    match Vec::with_capacity(alloc, workers) {
        Ok(desks) => Ok((pieces, desks)),
        Err(_) => {
            pieces.destroy_empty();
            Err(AllocError)
        }
    }
}

// The desks of all workers, in order. Desk 0 keeps the room for the pieces.
fn seat_all<P>(
    alloc: Global,
    board: &Board<P>,
    mut dealer: BoardSeat<P>,
    workers: usize,
    pieces: Vec<Option<P>>,
    mut desks: Vec<Desk<P>>,
) -> Vec<Desk<P>>
    requires dealer { IsDealer board.now 0 dealer }
    requires workers { (workers ≡ board.now.workers) × (0 < workers) }
    requires pieces { HasRoom board.now.count pieces }
    requires desks { HasRoom workers desks }
    ensures desks { result.items ≡ fresh_desks board.now workers }
    ensures as_many { vec_len result ≡ workers }
    ensures own { All (λ d. d.board ≡ board.now) result.items }
{
    let seat = board.deal(&mut dealer, 0);
    desks.push_reserved(Desk::new(board, seat, 0, workers, pieces));
    for number in 1..workers {
        let seat = board.deal(&mut dealer, number);
        desks.push_reserved(Desk::new(board, seat, number, workers, Vec::new(alloc)));
    }
    desks
}

impl<P> Board<P> {
    /// A board with `count` places, numbered from 0, and a desk for each worker. Desk w holds place w already where w is below
    /// `count`, and the other desks hold none. Fails with `Memory` where a growth is refused, for the board, its desks or
    /// the list that `close` gives.
    pub fn open(
        alloc: Global,
        count: usize,
        workers: usize,
    ) -> Result<(Board<P>, Vec<Desk<P>>), Memory>
        requires { (0 < workers) × (workers ≤ 64) }
        ensures board { IfOk result (λ r. (r.0.count ≡ count) × (r.0.workers ≡ workers)) }
        ensures desks { IfOk result (λ r. r.1.items ≡ fresh_desks r.0 workers) }
        ensures as_many { IfOk result (λ r. vec_len r.1 ≡ workers) }
        ensures own { IfOk result (λ r. All (λ d. d.board ≡ r.0) r.1.items) }
    {
        let words = first_words(alloc, count, workers)?;
        let (pieces, desks) = empty_rooms(alloc, count, workers)?;
        match Board::with_words(alloc, words.as_slice(), count, workers) {
            Ok((board, dealer)) => {
                let desks = seat_all(alloc, &board, dealer, workers, pieces, desks);
                Ok((board, desks))
            }
            Err(refused) => {
                pieces.destroy_empty();
                desks.destroy_empty();
                Err(refused)
            }
        }
    }
}

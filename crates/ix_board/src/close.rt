//! Closing a board: the desks are handed back, and the pieces come out of their slots.
ghost use Rattle.std.specs.Prelude.{◌≡◌, ◌<◌, [], ◌⊎◌, map, Some, None, IfSome, IfNone, All};
ghost use Rattle.std.specs.Option.{ForSome};
ghost use Rattle.std.specs.Vec.{vec_len};
ghost use Rattle.std.specs.Slots.{slots_items, slots_len, IsFull};
ghost use Rattle.ix_board.specs.Desks.{ClosesWith};
ghost use Rattle.ix_board.specs.Rooms.{HasRoom, RoomAmong};
ghost use Rattle.ix_board.specs.Seats.{IsCrewSeat, settled_member};

use crate::board::Board;
use crate::desk::Desk;
use crate::rule::BoardSeat;
use atomic_table::Closed;
use std::alloc::Global;

// The room that there is, where there is one. Both are empty.
fn either_room<P>(
    first: Option<Vec<Option<P>>>,
    second: Option<Vec<Option<P>>>,
) -> Option<Vec<Option<P>>>
    requires { ForSome second (λ v. v.items ≡ []) }
    ensures some { IfSome result (λ v. (first ≡ Some v) ⊎ (second ≡ Some v)) }
    ensures none { IfNone result ((first ≡ None) × (second ≡ None)) }
{
    match (first, second) {
        (Some(room), Some(spare)) => {
            spare.destroy_empty();
            Some(room)
        }
        (Some(room), None) => Some(room),
        (None, second) => second,
    }
}

// One seat that steps for the workers of all desks, which hold none any more, and the room that one of them kept.
fn gather<P>(board: &Board<P>, mut desks: Vec<Desk<P>>) -> (BoardSeat<P>, Option<Vec<Option<P>>>)
    requires own { All (λ d. d.board ≡ board.now) desks.items }
    requires some { 0 < vec_len desks }
    ensures seat { IsCrewSeat board.now (map settled_member desks.items) result.0 }
    ensures room { RoomAmong board.now.count desks.items result.1 }
{
    let Some(last) = desks.pop() else {
        unreachable!()
    };
    let (mut seat, mut room) = last.hand_back(board);
    while let Some(desk) = desks.pop() {
        let (other, its_room) = desk.hand_back(board);
        board.join_seats(&mut seat, other);
        room = either_room(room, its_room);
    }
    desks.destroy_empty();
    (seat, room)
}

// All pieces, in the order of their slots.
fn take_pieces<P>(
    mut closed: Closed<Option<P>, Global>,
    mut pieces: Vec<Option<P>>,
) -> Vec<Option<P>>
    requires full { IsFull closed.slots }
    requires room { HasRoom (slots_len closed.slots) pieces }
    ensures { result.items ≡ slots_items closed.slots }
{
    for place in 0..closed.slot_count() {
        pieces.push_reserved(closed.take(place));
    }
    closed.free();
    pieces
}

impl<P> Board<P> {
    /// Ends the work. All desks of the board are handed back, in any order, and each that still holds a place gives it up
    /// first. At each place stands the piece that was delivered for it, or none.
    pub fn close(self, desks: Vec<Desk<P>>) -> Vec<Option<P>>
        requires own { All (λ d. d.board ≡ self) desks.items }
        requires all { vec_len desks ≡ self.workers }
        ensures closed { ClosesWith self desks.items result.items }
        ensures as_many { vec_len result ≡ self.count }
    {
        let (seat, room) = gather(&self, desks);
        let closed = self.into_closed(seat);
        let Some(pieces) = room else { unreachable!() };
        take_pieces(closed, pieces)
    }
}

//! A worker's desk. Contracts see it as the list of the steps that it made.
ghost use Rattle.std.specs.Prelude.{◌≡◌, ◌+◌, ◌<◌, ◌≤◌, [], ◌∷◌, length, Some, None, IfSome, IfNone, IsSome};
ghost use Rattle.std.specs.List.{count_by};
ghost use Rattle.ix_board.specs.declared.step.Step.TheVariants.{Deliver, GiveUp};
ghost use Rattle.ix_board.specs.Laws.{is_try};
ghost use Rattle.ix_board.specs.Desks.{fresh_desk, with_steps, IsSameDesk, place_held, LooksThenClaims, LooksOnly, HasSeenAll};
ghost use Rattle.ix_board.specs.Seats.{IsDeskSeat, IsCrewSeat, number_in, steps_in, settled_member};
ghost use Rattle.ix_board.specs.Rooms.{HasRoom, RoomAmong};
ghost use Rattle.ix_board.specs.Machine.{first_held};

use crate::board::Board;
use crate::rule::BoardSeat;
use crate::tour::Tour;
use std::marker::Model;

/// A desk of a board, for one worker. It may be sent to that worker's thread.
#[derive(Drop)]
pub struct Desk<P> {
    seat: BoardSeat<P>,
    number: usize,
    held: Option<usize>,
    tour: Tour,
    // Desk 0 keeps the room for the pieces.
    room: Vec<Option<P>>,
}

impl<P> Model for Desk<P> {
    ghost use Rattle.ix_board.specs.Desks.{DeskView};

    ghost Value = { DeskView P };

    ghost use Rattle.ix_board.specs.DeskFields.{desk_view, IsSoundDesk};

    ghost view = { desk_view };

    ghost invariant = { IsSoundDesk };
}

// What came of one try for a place.
pub(crate) enum Attempt {
    Claimed(usize),
    Taken(usize),
    Done,
}

impl<P> Desk<P> {
    ghost use Rattle.ix_board.specs.Attempts.{IsAttempt};

    // The desk of a worker that has just got its seat.
    pub(crate) fn new(
        board: &Board<P>,
        seat: BoardSeat<P>,
        number: usize,
        workers: usize,
        room: Vec<Option<P>>,
    ) -> Desk<P>
        requires workers { workers ≡ board.now.workers }
        requires number { number < workers }
        requires seat { IsDeskSeat board.now (first_held board.now.count board.now.workers number)
            seat }
        requires worker { (number_in seat.me.0 ≡ number) × (steps_in seat.me.0 ≡ []) }
        requires empty { room.items ≡ [] }
        requires room { number ≡ 0 → HasRoom board.now.count room }
        ensures { result ≡ fresh_desk board.now number }
    {
        let count = board.count();
        Desk {
            seat,
            number,
            held: if number < count { Some(number) } else { None },
            tour: Tour::of_worker(count, workers, number),
            room,
        }
    }

    /// The place that the desk holds, which is one of its board.
    pub fn held(&self) -> Option<usize>
        ensures held { result ≡ place_held self.now }
        ensures place { IfSome result (λ k. k < self.now.board.count) }
    {
        self.held
    }

    // Tries the next place of the tour.
    fn attempt(&mut self, board: &Board<P>) -> Attempt
        requires board { self.old.board ≡ board.now }
        requires free { place_held self.old ≡ None }
        ensures attempt { IsAttempt self.old self.new result }
        ensures few_tries { count_by is_try self.new.steps ≤ board.now.count }
    {
        let Some(place) = self.tour.next_place() else {
            return Attempt::Done;
        };
        if board.try_place(&mut self.seat, place) {
            self.held = Some(place);
            Attempt::Claimed(place)
        } else {
            Attempt::Taken(place)
        }
    }

    /// Claims an open place, or answers `None` where there is none any more. It takes at most as many steps as there
    /// are places, and so do all claims of a desk together.
    pub fn claim(&mut self, board: &Board<P>) -> Option<usize>
        requires board { self.old.board ≡ board.now }
        requires free { place_held self.old ≡ None }
        ensures some { IfSome result (λ k. (k < board.now.count) × LooksThenClaims self.old self.new
            k) }
        ensures none { IfNone result (LooksOnly self.old self.new × HasSeenAll self.new) }
        ensures held { place_held self.new ≡ result }
        ensures same { IsSameDesk self.old self.new }
        ensures few_steps { length self.new.steps ≤ length self.old.steps + board.now.count }
        ensures few_tries { count_by is_try self.new.steps ≤ board.now.count }
    {
        loop {
            match self.attempt(board) {
                Attempt::Claimed(place) => return Some(place),
                Attempt::Taken(_) => {}
                Attempt::Done => return None,
            }
        }
    }

    /// The place that the desk holds is done, with this piece.
    pub fn deliver(&mut self, board: &Board<P>, piece: P)
        requires board { self.old.board ≡ board.now }
        requires held { IsSome (place_held self.old) }
        ensures delivered { IfSome (place_held self.old)
            (λ k. self.new ≡ with_steps self.old (Deliver k piece ∷ [])) }
        ensures free { place_held self.new ≡ None }
        ensures same { IsSameDesk self.old self.new }
    {
        let Some(place) = self.held else {
            unreachable!()
        };
        self.held = None;
        board.finish_place(&mut self.seat, place, piece);
    }

    /// The place that the desk holds is given up.
    pub fn give_up(&mut self, board: &Board<P>)
        requires board { self.old.board ≡ board.now }
        requires held { IsSome (place_held self.old) }
        ensures given_up { IfSome (place_held self.old)
            (λ k. self.new ≡ with_steps self.old (GiveUp k ∷ [])) }
        ensures free { place_held self.new ≡ None }
        ensures same { IsSameDesk self.old self.new }
    {
        let Some(place) = self.held else {
            unreachable!()
        };
        self.held = None;
        board.leave_place(&mut self.seat, place);
    }

    // Gives up what the desk holds. Then its seat remains, and the room where this desk kept it.
    pub(crate) fn hand_back(mut self, board: &Board<P>) -> (BoardSeat<P>, Option<Vec<Option<P>>>)
        requires { self.board ≡ board.now }
        ensures seat { IsCrewSeat board.now (settled_member self ∷ []) result.0 }
        ensures room { RoomAmong board.now.count (self ∷ []) result.1 }
    {
        if self.held().is_some() {
            self.give_up(board);
        }
        let Desk {
            seat,
            number,
            held: _,
            tour: _,
            room,
        } = self;
        if number == 0 {
            (seat, Some(room))
        } else {
            room.destroy_empty();
            (seat, None)
        }
    }
}

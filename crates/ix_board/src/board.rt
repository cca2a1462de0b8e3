//! The board, which workers share by `&`. It is done with no lock and no queue: each step is one compare-exchange on the word of its place.
ghost use Rattle.std.specs.Prelude.{◌≡◌, ◌+◌, ◌<◌, [], ◌∷◌, ◌++◌, length, IfOk, Some, None};
ghost use Rattle.std.specs.Slots.{slots_items, slots_len, IsFull};
ghost use Rattle.ix_board.specs.declared.step.Step.TheVariants.{Deliver, GiveUp};
ghost use Rattle.ix_board.specs.Machine.{first_held};
ghost use Rattle.ix_board.specs.Crews.{desk_crew, after_try};
ghost use Rattle.ix_board.specs.Ends.{EndsWith};
ghost use Rattle.ix_board.specs.Seats.{number_in, steps_in, held_in, IsDeskSeat, IsCrewSeat, IsDealer, AreIdle};
ghost use Rattle.ix_board.specs.Starts.{AreFirstWords};

use crate::Memory;
use crate::rule::{
    BoardSeat, BoardTable, Claiming, DONE, Dealing, Delivering, Fetching, GIVEN_UP, Gathering,
    GivingUp, HELD, OPEN, Shape,
};
use atomic_table::{Closed, Table};
use std::alloc::Global;
use std::marker::Model;

/// A row of places, counted from 0. Contracts see which board it is, how many places it has and for how many workers.
#[derive(Drop)]
pub struct Board<P> {
    table: BoardTable<P>,
}

impl<P> Model for Board<P> {
    ghost use Rattle.std.specs.Prelude.{◌≡◌, ◌+◌, ◌<◌};
    ghost use Rattle.ix_board.specs.Desks.{BoardView};

    ghost Value = { BoardView };

    ghost view = { λ b. record {
      table = b.table.shared.table_id;
      count = b.table.shared.key.count;
      workers = b.table.shared.key.workers;
    } };

    ghost invariant = { λ b. (b.table.shared.table_id.words ≡ b.table.shared.key.count + 1)
        × (b.table.shared.table_id.slots ≡ b.table.shared.key.count)
        × (0 < b.table.shared.key.workers) };
}

impl<P> Board<P> {
    // A board with these words, and the seat that deals.
    pub(crate) fn with_words(
        alloc: Global,
        words: &[u64],
        count: usize,
        workers: usize,
    ) -> Result<(Board<P>, BoardSeat<P>), Memory>
        requires words { AreFirstWords count workers words.now }
        requires workers { 0 < workers }
        ensures board { IfOk result (λ r. (r.0.count ≡ count) × (r.0.workers ≡ workers)) }
        ensures dealer { IfOk result (λ r. IsDealer r.0 0 r.1) }
    {
        let (table, dealer) = Table::vacant(alloc, words, count, &Shape { count, workers })?;
        Ok((Board { table }, dealer))
    }

    /// How many places there are.
    pub fn count(&self) -> usize
        ensures { result ≡ self.now.count }
    {
        self.table.slot_count()
    }

    // The next worker gets a seat, with the slot of its first place where it has one.
    pub(crate) fn deal(&self, dealer: &mut BoardSeat<P>, number: usize) -> BoardSeat<P>
        requires dealer { IsDealer self.now number dealer.old }
        requires number { number < self.now.workers }
        ensures dealer { IsDealer self.now (number + 1) dealer.new }
        ensures seat { IsDeskSeat self.now (first_held self.now.count self.now.workers number)
            result }
        ensures worker { (number_in result.me.0 ≡ number) × (steps_in result.me.0 ≡ []) }
    {
        let mut seat = self.table.shared.split_seat::<Dealing>(dealer);
        if number < self.table.slot_count() {
            self.table.shared.load::<Fetching>(&mut seat, number);
        }
        seat
    }

    // Claims the place where it is open, and else looks at it.
    pub(crate) fn try_place(&self, seat: &mut BoardSeat<P>, place: usize) -> bool
        requires seat { IsDeskSeat self.now None seat.old }
        requires free { held_in self.now seat.old.me.0 ≡ None }
        requires place { place < self.now.count }
        ensures table { seat.new.table_id ≡ seat.old.table_id }
        ensures tried { seat.new.me ≡ after_try self.now.count self.now.workers
            (number_in seat.old.me.0) (steps_in seat.old.me.0) place result }
    {
        let found = self
            .table
            .shared
            .compare_exchange::<Claiming>(seat, place, OPEN, HELD);
        found == OPEN
    }

    // The place that the seat's worker holds is done with the piece.
    pub(crate) fn finish_place(&self, seat: &mut BoardSeat<P>, place: usize, piece: P)
        requires seat { IsDeskSeat self.now (Some place) seat.old }
        requires held { held_in self.now seat.old.me.0 ≡ Some place }
        requires place { place < self.now.count }
        ensures table { seat.new.table_id ≡ seat.old.table_id }
        ensures done { seat.new.me ≡ (
          desk_crew self.now.count self.now.workers
              (number_in seat.old.me.0) (steps_in seat.old.me.0 ++ Deliver place piece ∷ []),
          [],
        ) }
    {
        let before = self.table.shared.exchange(seat, place, Some(piece));
        let None = before else { unreachable!() };
        self.table
            .shared
            .compare_exchange::<Delivering>(seat, place, HELD, DONE);
    }

    // The place that the seat's worker holds is given up.
    pub(crate) fn leave_place(&self, seat: &mut BoardSeat<P>, place: usize)
        requires seat { IsDeskSeat self.now (Some place) seat.old }
        requires held { held_in self.now seat.old.me.0 ≡ Some place }
        requires place { place < self.now.count }
        ensures table { seat.new.table_id ≡ seat.old.table_id }
        ensures left { seat.new.me ≡ (
          desk_crew self.now.count self.now.workers
              (number_in seat.old.me.0) (steps_in seat.old.me.0 ++ GiveUp place ∷ []),
          [],
        ) }
    {
        self.table
            .shared
            .compare_exchange::<GivingUp>(seat, place, HELD, GIVEN_UP);
    }

    // The seat steps for the workers of the other seat too, which come before its own.
    pub(crate) fn join_seats(&self, seat: &mut BoardSeat<P>, other: BoardSeat<P>)
        requires seat { IsCrewSeat self.now seat.old.me.0.members seat.old }
        requires other { IsCrewSeat self.now other.me.0.members other }
        ensures { IsCrewSeat self.now (other.me.0.members ++ seat.old.me.0.members) seat.new }
    {
        self.table.shared.join_seat::<Gathering>(seat, other);
    }

    // Closes the table with a seat that steps for all workers, of which none holds a place.
    pub(crate) fn into_closed(self, seat: BoardSeat<P>) -> Closed<Option<P>, Global>
        requires seat { IsCrewSeat self seat.me.0.members seat }
        requires all { length seat.me.0.members ≡ self.workers }
        requires idle { AreIdle self seat.me.0.members }
        ensures slots { (slots_len result.slots ≡ self.count) × IsFull result.slots }
        ensures ends { EndsWith self.count self.workers seat.me.0.members
            (slots_items result.slots) }
        ensures workers { 0 < self.workers }
    {
        let Board { table } = self;
        table.close_with(seat)
    }
}

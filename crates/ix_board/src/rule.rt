//! What the seats of a board know, the rule that each step keeps, and what each step tells its seat.
//! Word k is 0 while place k is open, 1 while it is held, 2 once it is done, and 3 once it is given up. Slot k has the piece.
use crate::step::Step;
use atomic_table::{Join, Play, Seat, Split, Table, TableRule};
use std::alloc::Global;
use std::collections::LinkedList;

pub const OPEN: u64 = 0;

pub const HELD: u64 = 1;

pub const DONE: u64 = 2;

pub const GIVEN_UP: u64 = 3;

/// How many places a board has, and for how many workers.
#[derive(Clone, Copy)]
pub struct Shape {
    pub count: usize,
    pub workers: usize,
}

/// What a seat knows of a worker that it steps for. No value of it is made.
pub struct Member<P> {
    pub number: usize,
    /// The worker holds its first place, and has not fetched the slot yet.
    pub owed: bool,
    pub steps: LinkedList<Step<P>>,
}

/// What a seat knows: the board's shape, and the workers that it steps for. No value of it is made.
pub struct Crew<P> {
    pub count: usize,
    pub workers: usize,
    pub members: LinkedList<Member<P>>,
}

pub struct Rules;

impl<P> TableRule<Option<P>, Crew<P>, Shape> for Rules {
    ghost use Rattle.ix_board.specs.Crews.{all_hands};
    ghost use Rattle.ix_board.specs.Kept.{IsKept};

    ghost holds = { λ key s. IsKept key.count key.workers s };

    ghost first = { λ key. all_hands key.count key.workers };
}

pub type BoardTable<P> = Table<Option<P>, Crew<P>, Shape, Rules, Global>;

pub type BoardSeat<P> = Seat<Option<P>, Crew<P>>;

/// The place becomes held where it is open, and is looked at where it is not.
pub struct Claiming;

impl<P> Play<Option<P>, Crew<P>> for Claiming {
    ghost use Rattle.ix_board.specs.Crews.{ClaimsOrLooks};

    ghost then = { ClaimsOrLooks };
}

/// The place that the seat holds becomes done with the piece in its slot.
pub struct Delivering;

impl<P> Play<Option<P>, Crew<P>> for Delivering {
    ghost use Rattle.ix_board.specs.Crews.{Delivers};

    ghost then = { Delivers };
}

/// The place that the seat holds becomes given up.
pub struct GivingUp;

impl<P> Play<Option<P>, Crew<P>> for GivingUp {
    ghost use Rattle.ix_board.specs.Crews.{GivesUp};

    ghost then = { GivesUp };
}

/// A worker that holds its first place fetches the slot.
pub struct Fetching;

impl<P> Play<Option<P>, Crew<P>> for Fetching {
    ghost use Rattle.ix_board.specs.Crews.{Fetches};

    ghost then = { Fetches };
}

/// The first worker of a seat gets a seat of its own.
pub struct Dealing;

impl<P> Split<Crew<P>> for Dealing {
    ghost use Rattle.ix_board.specs.Crews.{all_but_first, first_alone};

    ghost left = { all_but_first };

    ghost right = { first_alone };
}

/// A seat steps for the workers of another seat too, which come before its own.
pub struct Gathering;

impl<P> Join<Crew<P>> for Gathering {
    ghost use Rattle.ix_board.specs.Crews.{both_crews, no_crew};

    ghost both = { both_crews };

    ghost spent = { no_crew };
}

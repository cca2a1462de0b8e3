//! The laws of the machine, over every possible run. The functions do nothing: what they ensure is a fact about the definitions.
ghost use Rattle.ix_board.specs.Laws.{HeldAsOwnStepsTell, HeldByOne, NeverOpenAgain, DoneKeepsItsPiece, ClaimedOnce, FinishedOnce, DoneAsDelivered, SeenIsNotOpen};
ghost use Rattle.ix_board.specs.DeskLaws.{FinishedByDesks, NoneHeldAtTheEnd};

/// What a worker holds follows from its own steps, and no place is ever held by two workers.
pub fn held_by_one<P>()
    ensures own_steps_tell { HeldAsOwnStepsTell P }
    ensures one { HeldByOne P }
{}

/// A place that has been held never becomes open again.
pub fn never_open_again<P>()
    ensures { NeverOpenAgain P }
{}

/// A place that is done keeps its piece, and it is done with the piece that was delivered for it.
pub fn done_keeps_its_piece<P>()
    ensures keeps { DoneKeepsItsPiece P }
    ensures delivered { DoneAsDelivered P }
{}

/// Each place has at most one claim or first holder, and exactly one where it is not open.
pub fn claimed_once<P>()
    ensures { ClaimedOnce P }
{}

/// Each place is delivered or given up at most once, and exactly once where it is done or given up.
pub fn finished_once<P>()
    ensures { FinishedOnce P }
{}

/// What a worker has seen is not open: the places that it looked at, claimed or held first.
pub fn seen_is_not_open<P>()
    ensures { SeenIsNotOpen P }
{}

/// Once all desks were handed back, no place is held, and over all desks together each place was delivered or given up
/// once where it is done or given up, and never where it is open.
pub fn finished_by_desks<P>()
    ensures none_held { NoneHeldAtTheEnd P }
    ensures finished { FinishedByDesks P }
{}

//! The claim board: a row of places, each of which is done by at most one worker, and the desks that workers claim them with.
//! A desk is seen as the list of the steps that it made, and `specs/Machine.antt` says what a board is after any steps of any desks.
//! Nothing here locks or waits: each step is one compare-exchange.
#![tactic(auto)]

mod board;
mod close;
mod desk;
mod laws;
mod memory;
mod open;
mod rule;
mod step;
mod tour;

pub use board::Board;
pub use desk::Desk;
pub use laws::{
    claimed_once, done_keeps_its_piece, finished_by_desks, finished_once, held_by_one,
    never_open_again, seen_is_not_open,
};
pub use memory::Memory;
pub use step::Step;

//! A pool of workers over a claim board: makers, each driven by a worker in a thread of its own, make the piece of each
//! place once. What is made, and of what, is the caller's.
//!
//! Proved for every interleaving: each place is asked for once, of one maker; maker w begins with place w; the pieces come
//! in the order of the places, each from the maker that was asked for it. Only tested: that makers work side by side.
#![tactic(auto)]

mod laws;
mod maker;
mod pool;
mod threads;
mod worker;

pub use laws::each_place_is_of_one_maker;
pub use maker::{Asked, MakeError, Maker};
pub use pool::{Outcome, WorkError, work_all};

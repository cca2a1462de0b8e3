//! The engine for programs in other languages: calls in C's form over those of the libraries, as `include/ix.h` has
//! them. A call starts no thread, and keeps nothing for the next one but what a handle holds.
#![tactic(auto)]

mod asking;
mod found;
mod handle;
mod held;
mod indexing;
mod loose;
mod merging;
mod naming;
mod opened;
mod running;
mod searching;
mod stop;
#[cfg(test)]
mod tests;
mod trusting;

pub use asking::ix_ask;
pub use found::Found;
pub use handle::Handle;
pub use indexing::ix_build;
pub use merging::ix_merge;
pub use naming::ix_index_names;
pub use opened::{ix_index_close, ix_index_open, ix_index_search, ix_index_terms};
pub use running::ix_run;
pub use searching::{ix_search, ix_terms};
pub use trusting::ix_search_trusting;

//! Merging: sources of sorted postings, whose documents together have each number once, become the index text of their
//! concatenation, term by term, and no document is read again.
#![tactic(auto)]

mod any_source;
mod index_head;
mod index_source;
mod merge_error;
mod merge_sources;
mod overview;
mod pending_entry;
mod terms;
mod turn;
mod winner_tree;

pub use any_source::AnySource;
pub use index_source::IndexSource;
pub use merge_error::MergeError;
pub use merge_sources::merge;

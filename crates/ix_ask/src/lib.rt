//! Questions to a collection text, to an opened index, or to the bytes of an index text that nobody has checked: the
//! names of the documents that satisfy a query, or the terms that match a pattern, are written as lines. Each error of the
//! engine has an area, and a number there.
#![tactic(auto)]

mod alone;
mod ask_collection;
mod ask_error;
mod invert_part;
mod laws;
mod list_index;
mod merge_runs;
mod names;
mod output;
mod refusal;
mod search_index;
mod trust_error;
mod trusting;

pub use alone::{ask_alone, index_alone};
pub use ask_collection::ask;
pub use ask_error::AskError;
pub use invert_part::run_alone;
pub use laws::{both_ways_give_one_list, what_is_built_opens_and_answers};
pub use list_index::{find_terms, list_terms};
pub use merge_runs::merge_alone;
pub use names::list_names;
pub use output::Lines;
pub use refusal::{Area, EngineRefusal};
pub use search_index::{find_names, search};
pub use trust_error::TrustError;
pub use trusting::{
    find_names_trusting, find_terms_trusting, list_terms_trusting, search_trusting,
};

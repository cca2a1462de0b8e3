//! The live index: it is searched while it grows. `live` makes an indexer and searchers. The
//! indexer adds documents, removes documents and publishes; searchers answer, each in a thread of
//! its own if it likes, from histories that were published, that never go back and that begin with
//! all that they learned. News of a publish, which threads may share, answers after just the
//! history up to it. A history is a list of publishes, each of which is the list of the operations
//! that were pending. A version is a live index after all that was done to it: it answers queries
//! from segments, which are merged by generations, and a copy of it shares them. An edition is a
//! version without anything pending. Two copies between the threads each show an edition.
#![tactic(auto)]

mod edition;
mod entry;
mod find_documents;
mod find_names;
mod grow;
mod indexer;
mod insert_number;
mod laws;
mod live_error;
mod log;
mod log_prefix;
mod merge_alike;
mod name_error;
mod news;
mod open;
mod past;
mod rule;
mod searcher;
mod segment;
mod show;
mod shown;
mod version;
mod volumes;

pub use indexer::Indexer;
pub use laws::a_state_has_one_scan;
pub use live_error::LiveError;
pub use name_error::NameError;
pub use news::News;
pub use open::live;
pub use searcher::Searcher;

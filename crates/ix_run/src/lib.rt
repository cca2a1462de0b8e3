//! Runs: a block of documents inverted and sorted, as a value, which writes its run text and is read back from one, and
//! which is a source of its postings. The run text itself and its exact reader are those of `ix_run_text`, and its public
//! names are passed on.
#![tactic(auto)]

mod coded_terms;
mod coding;
mod dictionary;
mod errors;
mod inversion;
mod place_sort;
mod read;
mod room;
mod run;
mod run_source;
mod seen_words;
mod span;
mod write;

pub use errors::RunError;
pub use inversion::invert;
pub use ix_output::WriteError;
pub use ix_run_text::{
    ListError, Listed, RunDoc, RunHead, RunReader, RunTextError, Source, VbError,
    no_run_text_begins_another, run_text_has_eighteen_bytes, run_text_tells_collection,
};
pub use run::Run;
pub use run_source::RunSource;

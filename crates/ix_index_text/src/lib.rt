//! The index text: a collection as postings lists, names, a dictionary and grams, in a plain and in a front-coded version.
//! Here are its definition, what holds of it, and its writer. A function without arguments is a law: it does nothing, and
//! what it ensures is a fact about the definitions.
#![tactic(auto)]

mod laws;
mod layout;
mod put_error;
mod row;
mod sections;
mod windows;
mod writer;

pub use laws::{
    collection_has_one_index_text, grams_of_the_vocabulary, index_text_has_one_version,
    index_text_has_sixty_four_bytes, index_text_tells_collection,
    index_text_tells_version_and_collection, settled_front_begins_index_text,
    terms_have_one_gram_list,
};
pub use layout::{
    COUNT_BYTES, COUNTS_BYTES, END_MARK_FRONT_CODED, END_MARK_PLAIN, FRAME_BYTES, GROUP,
    LENGTH_BYTES, LENGTHS_BYTES, MAGIC_FRONT_CODED, MAGIC_PLAIN, MARK_BYTES, MIN_ENTRY_BYTES,
    MIN_ROW_BYTES, TRAILER_BYTES,
};
pub use put_error::PutError;
pub use row::DocRow;
pub use sections::WriterSections;
pub use windows::{Gram, GramPair, Windows, windows_of};
pub use writer::IndexWriter;
pub use writer::grams::Grams;

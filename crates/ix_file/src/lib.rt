//! The exact reader of index texts: it opens the index texts of lawful collections, and nothing else, and whoever holds an
//! opened index holds a proof of what is in it. What an index text is, what holds of it and its writer are of `ix_index_text`,
//! and passed on.
#![tactic(auto)]

mod index;
mod laws;
mod numbers;
mod open;
mod open_error;
mod volume;

pub use index::Index;
pub use ix_index_text::{
    DocRow, IndexWriter, PutError, WriterSections, collection_has_one_index_text,
    grams_of_the_vocabulary, index_text_has_one_version, index_text_has_sixty_four_bytes,
    index_text_tells_collection, index_text_tells_version_and_collection,
    settled_front_begins_index_text, terms_have_one_gram_list,
};
pub use ix_vbyte::VbError;
pub use ix_vbyte::cursor::{Positions, Posting, Postings};
pub use laws::{
    index_text_has_bytes_for_entries, opened_grams_are_of_the_collection, opened_parts_are_lawful,
    opened_postings_are_of_the_collection,
};
pub use numbers::Numbers;
pub use open_error::{OpenError, Section};
pub use volume::Volume;

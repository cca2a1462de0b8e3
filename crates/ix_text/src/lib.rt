//! The rules of text on which every layer of the index stands: words and their terms, token lists, stop lists,
//! collection texts and trigrams. A function without arguments is a law: it does nothing, and what it ensures is a
//! fact about the definitions.
#![tactic(auto)]

mod collection;
mod limits;
mod memory;
mod parts;
mod stop;
mod stop_slots;
mod term;
mod token;
mod windows;

pub use collection::{Collection, CollectionError, Doc, has_documents_or_a_fault, is_unbroken};
pub use limits::{
    MAX_DOCUMENTS, MAX_NAME_BYTES, MAX_STOP_TERMS, MAX_TERM_BYTES, MAX_TEXT_BYTES, MAX_TOKENS,
};
pub use memory::Memory;
pub use parts::{
    distinct_tokens_are_lawful, lawful_collections_have_lawful_parts, lawful_parts_have_collection,
    lawful_parts_lie_below, lawful_tokens_are_distinct, parts_tell_collection, terms_share_tokens,
};
pub use stop::{StopError, StopList, has_stop_set_or_a_fault};
pub use term::{equal_terms_match, term_of};
pub use token::{
    lawful_collection, tokens, tokens_are_no_more_than_bytes, write_token, write_tokens,
};
pub use windows::{TrigramWindows, trigrams, trigrams_stand_by_place};

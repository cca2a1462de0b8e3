//! Finds terms in the DICTIONARY of an index text without opening the index.
//!
//! [`find_terms`] scans the section once, in a source that is read by ranges. A [`TermMatcher`] says which terms are
//! wanted: a [`Word`], several [`Words`], the terms that begin with a text and pass a test ([`Prefixed`], for a
//! pattern), or those of any of several matchers ([`AnyOf`]). The scan gives it only the bytes by which a term differs
//! from the term before, so a term is put together only if its matcher needs it. It ends behind the last term that can
//! be wanted. The section is read in pieces, and one piece is in memory, whatever the size of the section. A term that
//! was found says where its list is in POSTINGS, so that the list can be read by itself:
//!
//! ```text
//! let mut words = Words::new(vec![in alloc; "red", "retired"]?);
//! for found in &find_terms(alloc, &source, &dictionary, &mut words)? {
//!     source.append_at(&mut list, postings_start + found.start, found.size as usize)?;
//! }
//! ```
//!
//! Proved, for both versions: if the section is the dictionary of a lawful collection, exactly its terms that are
//! wanted are found, in their order, each with its number of documents and the place of its list
//! ([`found_terms_are_entries`]). For all other bytes a call is safe, ends, and finds lists within POSTINGS or returns
//! an error; `Malformed` is returned only for bytes that are not the dictionary of such a collection. Which terms are
//! found in other bytes is left open, since not every fault is detected.
#![tactic(auto)]

mod any_of;
mod dictionary;
mod find;
mod found_term;
mod laws;
mod lookup_error;
mod matcher;
mod pieces;
mod prefixed;
mod row;
mod term_test;
#[cfg(test)]
mod tests;
mod version;
mod word;
mod words;

pub use any_of::AnyOf;
pub use dictionary::Dictionary;
pub use find::find_terms;
pub use found_term::FoundTerm;
pub use laws::found_terms_are_entries;
pub use lookup_error::LookupError;
pub use matcher::TermMatcher;
pub use prefixed::Prefixed;
pub use term_test::TermTest;
pub use version::Version;
pub use word::Word;
pub use words::Words;

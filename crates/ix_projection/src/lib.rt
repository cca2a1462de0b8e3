//! Projection: a question is answered from the index text of a collection with fewer terms.
//!
//! Of a collection and a set of terms, the projection is the collection in which every other token is nothing.
//! Documents, positions and stop terms stay, so that NOT, NEAR and the holes of phrases mean what they did; the
//! dictionary, and with it the index text, has the kept terms alone.
//!
//! It is proved that the projection has the postings of the kept terms and no others, that it is lawful if the whole
//! collection is, that its rows and names are the same, and that its parts and its index text are told by those of the
//! whole collection. A query whose terms are all kept has the same scan in both. Only tested is that `asks_about`
//! means what a user of the query language expects.
//!
//! ```
//! let query = Query::parse(alloc, "NOT s*ness", &stop)?;
//! assert!(rt; asks_about("sadness", query.tree()));
//! assert!(rt; !asks_about("sad", query.tree()));
//! ```
#![tactic(auto)]

mod alike;
mod asked;
mod laws;
#[cfg(test)]
mod tests;

pub use alike::{asks_alike, scans_alike};
pub use asked::{asks_about, what_queries_ask_about};
pub use laws::{keeps_documents, keeps_index_text, keeps_lawful, keeps_parts, keeps_postings};

//! Reads of an index text that nobody has checked what a question needs, and no more of it.
//!
//! A source is read by ranges ([`ReadAt`](ix_files::ReadAt)): both ends of the index text, which say where its sections
//! are, the sections STOP and DOCS, the dictionary up to the last term that the question can ask about, and the lists of
//! the terms that it asks about. [`extract_query`] and [`extract_pattern`] put an index text of version 1 together of
//! these, with a dictionary of these terms alone: that of the collection in which every other token is nothing. The
//! exact reader opens it, so that each of its bytes is checked, and answers the question.
//!
//! ```text
//! let text = extract_query(alloc, &source, "red AND fox*")?;
//! let index = Index::open(alloc, text.as_slice())?;
//! ```
//!
//! [`extract_documents`] does so for no question: what it returns has the stop terms and the documents' names.
//!
//! A query is read under the source's own stop list. Its STOP is opened for this by the exact reader, too, in the index
//! text of a collection without documents.
//!
//! Proved, for both versions: if the source's bytes are known, and are the index text of a collection, what comes back
//! is the index text of that collection with fewer terms, among them all that the question asks about, or the error is
//! that of the query, a failed read, or out of memory. For every other source a call is safe, ends, and returns bytes or
//! an error. A fault in a part that is not read is not seen.
#![tactic(auto)]

mod assemble;
mod extract;
mod extract_error;
mod query_matcher;
mod trailer;

pub use extract::{extract_documents, extract_pattern, extract_query};
pub use extract_error::ExtractError;

//! A term that was found.

/// A term of a dictionary, with what the dictionary says of it.
#[derive(Debug, Drop)]
pub struct FoundTerm {
    /// The term.
    pub term: String,
    /// How many documents have the term.
    pub documents: u32,
    /// The byte of POSTINGS at which the term's list begins, from 0.
    pub start: usize,
    /// How many bytes the list has.
    pub size: u32,
}

//! The dictionary of an index text.

use crate::Version;

/// Where the DICTIONARY of an index text is, and what the trailer says of it.
#[derive(Clone, Copy, Debug)]
pub struct Dictionary {
    /// The version of the index text.
    pub version: Version,
    /// The byte at which the section begins, from 0.
    pub start: usize,
    /// How many bytes the section has.
    pub size: usize,
    /// How many terms it has.
    pub terms: u32,
    /// How many bytes their lists have together.
    pub postings: usize,
}

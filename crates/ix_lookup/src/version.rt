//! The versions of a dictionary.

/// The version of the index text that a dictionary is of.
#[derive(Clone, Copy, Debug, PartialEq, Eq)]
pub enum Version {
    /// Version 1: each term is whole.
    Plain,
    /// Version 2: terms are front coded, in groups.
    FrontCoded,
}

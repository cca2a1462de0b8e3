//! The removals of an archive on disk: a text that says which documents are removed.
//!
//! An archive gives each of its documents a number, and a document that is added gets a number above all before it. A
//! removal has a name and a bound: all documents of that name whose numbers are below the bound are removed. A document
//! of the same name that is added later has a number that is not below it, so it is there.
//!
//! ```text
//! 7 TAB a.txt LF
//! 3 TAB b.txt LF
//! 7 TAB notes/2 LF
//! ```
//!
//! Each line is the bound, TAB, the name and LF. The bound is decimal without leading zeros, and from 1 to 2^64 - 1. A
//! name is UTF-8 text of 1 to 255 bytes without TAB and LF. The names ascend in the order of their bytes, so each name
//! is there at most once, and the same removals have only one text. No removals have the empty text.
//!
//! [`Removals::text`] writes removals, and [`read`] reads them. [`Removals::is_removed`] answers for one document, and
//! [`Removals::with`] adds removals of names.
//!
//! Proved: removals are written as the text above. If the bytes are the text of removals, `read` returns these removals,
//! or `Memory` if out of memory. For all other bytes it returns `Memory`, or `Line` with the number of the first line
//! that is not as it should be. A document is removed after `with` if it was removed before, or if its name is one of
//! the names and its number is below the bound, and no others are.
#![tactic(auto)]

mod reading;
mod removals;
mod removals_error;
#[cfg(test)]
mod tests;

pub use reading::{are_names, is_name, read};
pub use removals::Removals;
pub use removals_error::RemovalsError;

//! Patterns: texts with stars that stand for every term with their pieces in a row and any characters between them.
//! A pattern is read from a text, and tells of a term whether it matches.
#![tactic(auto)]

mod candidates;
mod error;
mod expanding;
mod grams;
mod laws;
mod pattern;
mod range;

pub use error::PatternError;
pub use expanding::expand;
pub use laws::parts_are_cut_at_stars;
pub use pattern::Pattern;

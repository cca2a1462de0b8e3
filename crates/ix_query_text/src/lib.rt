//! The query language: what a query text is, its lexemes, its grammar, and the tree that it is read to. A program may
//! build a tree too, and is told whether it is one that a query may have. What a query asks of a document, and what it
//! finds, is said in the crate above.
#![tactic(auto)]

mod error;
mod grammar;
mod judge;
mod laws;
mod lexeme;
mod parser;
mod proper;
mod query;
mod tree;

pub use error::QueryError;
pub use grammar::{
    a_lexeme_too_deep_is_the_first, a_refused_run_is_the_first, a_text_has_one_tree,
    an_unexpected_lexeme_is_the_first, queries_are_those_of_the_grammar,
    texts_read_as_proper_trees, the_end_comes_too_soon,
};
pub use laws::{faults_are_the_first, lexemes_cut_the_text, phrases_have_no_hole_at_an_end};
pub use proper::what_shapes_are;
pub use query::Query;
pub use tree::{Boxed, Items, Term, Tree};

//! What a query means, and what it finds: what its tree asks of a document is defined, and what the query finds is
//! scanned in a collection, or answered from an index, and the two are one list. Of the query language, `ix_query_text`,
//! the names are passed on.
#![tactic(auto)]

mod answers;
mod satisfaction;
mod scans;

pub use answers::{answer, answers_are_scans};
pub use ix_query_text::{
    Boxed, Items, Query, QueryError, Term, Tree, a_lexeme_too_deep_is_the_first,
    a_refused_run_is_the_first, a_text_has_one_tree, an_unexpected_lexeme_is_the_first,
    faults_are_the_first, lexemes_cut_the_text, phrases_have_no_hole_at_an_end,
    queries_are_those_of_the_grammar, texts_read_as_proper_trees, the_end_comes_too_soon,
    what_shapes_are,
};
pub use satisfaction::{begins_with, is_match, is_term, satisfies, what_queries_ask};
pub use scans::{a_query_has_one_scan, scan};

//! A query that asks about no term that is left out has the same scan without these terms.
//!
//! Both laws are of one query, and walk it: a recursion over a tree is an induction over it. Each kind of query has an
//! arm of its own, so that the proof there knows the kind. The functions change nothing and answer nothing.

ghost use Rattle.std.specs.Prelude.{All};
ghost use Rattle.ix_projection.specs.Alike.{IsAlike, ScansAlike};

use ix_query_text::Tree;

/// A law: the query asks the same of each token list and of the list in which every term that it does not ask about
/// may be nothing.
#[cycle(alike)]
pub fn asks_alike(query: &Tree)
    ensures { IsAlike query.now }
{
    match query {
        Tree::Phrase(_) => {}
        Tree::Near { .. } => {}
        Tree::Pattern(_) => {}
        Tree::And(parts) => each_asks_alike(parts.as_slice()),
        Tree::Or(parts) => each_asks_alike(parts.as_slice()),
        Tree::Not(part) => asks_alike(part.get()),
    }
}

#[cycle(alike)]
fn each_asks_alike(parts: &[Tree])
    ensures { All IsAlike parts.now }
{
    for part in parts {
        asks_alike(part);
    }
}

/// A law: the query has the same scan in a collection and in that collection with fewer terms, if each term of the
/// collection that the query asks about is kept.
pub fn scans_alike(query: &Tree)
    ensures { ScansAlike query.now }
{
    asks_alike(query);
}

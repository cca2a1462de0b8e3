//! Which terms a query asks about.

ghost use Rattle.std.specs.Prelude.{◌≡◌, ◌↔◌, ◌⊎◌, ℕ, List, Option, Some, Any, Contains, IsTrue};
ghost use Rattle.ix_gram.specs.Patterns.{Matches};
ghost use Rattle.ix_query_text.specs.declared.tree.Tree.{Tree as SeenTree};
ghost use Rattle.ix_query_text.specs.declared.tree.Tree.TheVariants as asks;
ghost use Rattle.ix_projection.specs.Asked.{AsksAbout};

use ix_query_text::{Term, Tree};

/// A law: which terms each kind of query asks about.
pub fn what_queries_ask_about()
    ensures phrase { (term : List ℕ) (parts : List (Option (List ℕ))) →
        AsksAbout term (asks.Phrase parts) ↔ Contains parts (Some term) }
    ensures near { (term first second : List ℕ) (limit : ℕ) →
        AsksAbout term (asks.Near first second limit) ↔ ((first ≡ term) ⊎ (second ≡ term)) }
    ensures pattern { (term : List ℕ) (pieces : List (List ℕ)) →
        AsksAbout term (asks.Pattern pieces) ↔ Matches term pieces }
    ensures both { (term : List ℕ) (parts : List SeenTree) →
        AsksAbout term (asks.And parts) ↔ Any (AsksAbout term) parts }
    ensures either { (term : List ℕ) (parts : List SeenTree) →
        AsksAbout term (asks.Or parts) ↔ Any (AsksAbout term) parts }
    ensures other { (term : List ℕ) (part : SeenTree) →
        AsksAbout term (asks.Not part) ↔ AsksAbout term part }
{}

/// Whether the query asks about the term: whether it is a word of the query, or a pattern of the query matches it.
/// Takes no memory.
#[cycle(asked)]
pub fn asks_about(term: &str, query: &Tree) -> bool
    ensures { IsTrue result ↔ AsksAbout term.now query.now }
{
    match query {
        Tree::Phrase(parts) => has_term(term, parts.as_slice()),
        Tree::Near { first, second, .. } => is_one_of(term, first.as_str(), second.as_str()),
        Tree::Pattern(pattern) => pattern.matches(term),
        Tree::And(parts) => one_asks_about(term, parts.as_slice()),
        Tree::Or(parts) => one_asks_about(term, parts.as_slice()),
        Tree::Not(part) => asks_about(term, part.get()),
    }
}

#[cycle(asked)]
fn one_asks_about(term: &str, parts: &[Tree]) -> bool
    ensures { IsTrue result ↔ Any (AsksAbout term.now) parts.now }
{
    for part in parts {
        if asks_about(term, part) {
            return true;
        }
    }
    false
}

fn is_one_of(term: &str, first: &str, second: &str) -> bool
    ensures { IsTrue result ↔ ((first.now ≡ term.now) ⊎ (second.now ≡ term.now)) }
{
    first == term || second == term
}

/// Whether the term is one of the parts of a phrase.
fn has_term(term: &str, parts: &[Option<Term>]) -> bool
    ensures { IsTrue result ↔ Contains parts.now (Some term.now) }
{
    for part in parts {
        if is_term(term, part) {
            return true;
        }
    }
    false
}

fn is_term(term: &str, part: &Option<Term>) -> bool
    ensures { IsTrue result ↔ (part.now ≡ Some term.now) }
{
    match part {
        Some(named) => named.as_str() == term,
        None => false,
    }
}

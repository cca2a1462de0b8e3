//! What a query asks of a token list.

ghost use Rattle.std.specs.Prelude.{◌≡◌, ◌-◌, ◌≤◌, ℕ, List, Option, Some, map, All, Any, IsTrue};
ghost use Rattle.std.specs.Prelude.{IsSomeAnd, ◌↔◌, option_map, string_bytes, if◌then◌else◌};
ghost use Rattle.ix_text.specs.TokenLists.{Entry};
ghost use Rattle.ix_gram.specs.Patterns.{Matches};
ghost use Rattle.ix_query_text.specs.declared.tree.Tree.{Tree};
ghost use Rattle.ix_query_text.specs.declared.tree.Tree.TheVariants as asks;
ghost use Rattle.ix_query.specs.Satisfaction.{Satisfies, StandsAt, HasPhraseAt, HasPhrase, AreNear};
ghost use Rattle.ix_query.specs.Satisfaction.{HasMatch};

use ix_gram::Pattern;
use ix_query_text::{Term, Tree};

/// A law: what each kind of query asks of a token list.
pub fn what_queries_ask()
    ensures phrase { (tokens : List Entry) (parts : List (Option (List ℕ))) →
        Satisfies tokens (asks.Phrase parts) ↔ HasPhrase tokens parts }
    ensures near { (tokens : List Entry) (first second : List ℕ) (limit : ℕ) →
        Satisfies tokens (asks.Near first second limit) ↔ AreNear tokens first second limit }
    ensures pattern { (tokens : List Entry) (pieces : List (List ℕ)) →
        Satisfies tokens (asks.Pattern pieces) ↔ HasMatch tokens pieces }
    ensures both { (tokens : List Entry) (parts : List Tree) →
        Satisfies tokens (asks.And parts) ↔ All (Satisfies tokens) parts }
    ensures either { (tokens : List Entry) (parts : List Tree) →
        Satisfies tokens (asks.Or parts) ↔ Any (Satisfies tokens) parts }
    ensures other { (tokens : List Entry) (part : Tree) →
        Satisfies tokens (asks.Not part) ↔ ¬ (Satisfies tokens part) }
{}

/// Whether a query asks for a token list, whose entries are terms or nothing (IIR 1.3, 2.4.2).
/// Takes no memory.
#[cycle(satisfies)]
pub fn satisfies(tokens: &[Option<String>], query: &Tree) -> bool
    ensures { IsTrue result ↔ Satisfies (map (option_map string_bytes) tokens.now) query.now }
{
    match query {
        Tree::Phrase(parts) => has_phrase(tokens, parts.as_slice()),
        Tree::Near {
            first,
            second,
            distance,
        } => are_near(tokens, first.as_str(), second.as_str(), *distance),
        Tree::Pattern(pattern) => has_match(tokens, pattern),
        Tree::And(parts) => satisfies_each(tokens, parts.as_slice()),
        Tree::Or(parts) => satisfies_one(tokens, parts.as_slice()),
        Tree::Not(part) => !satisfies(tokens, part.get()),
    }
}

#[cycle(satisfies)]
fn satisfies_each(tokens: &[Option<String>], parts: &[Tree]) -> bool
    ensures { IsTrue result ↔ All (Satisfies (map (option_map string_bytes) tokens.now)) parts.now }
{
    for part in parts {
        if !satisfies(tokens, part) {
            return false;
        }
    }
    true
}

#[cycle(satisfies)]
fn satisfies_one(tokens: &[Option<String>], parts: &[Tree]) -> bool
    ensures { IsTrue result ↔ Any (Satisfies (map (option_map string_bytes) tokens.now)) parts.now }
{
    for part in parts {
        if satisfies(tokens, part) {
            return true;
        }
    }
    false
}

/// Whether the parts follow one another from some token on.
fn has_phrase(tokens: &[Option<String>], parts: &[Option<Term>]) -> bool
    ensures { IsTrue result ↔ HasPhrase (map (option_map string_bytes) tokens.now) parts.now }
{
    for start in 0..tokens.len() + 1 {
        if begins_with(&tokens[start..], parts) {
            return true;
        }
    }
    false
}

/// Whether each part that is a term is the token in its place. A hole is any token.
pub fn begins_with(tokens: &[Option<String>], parts: &[Option<Term>]) -> bool
    ensures { IsTrue result ↔ HasPhraseAt (map (option_map string_bytes) tokens.now) 0 parts.now }
{
    for (place, part) in parts.iter().enumerate() {
        if let Some(term) = part
            && !stands_at(tokens, place, term.as_str())
        {
            return false;
        }
    }
    true
}

/// Whether the term is at the position.
fn stands_at(tokens: &[Option<String>], position: usize, term: &str) -> bool
    ensures { IsTrue result ↔
        StandsAt (map (option_map string_bytes) tokens.now) position term.now }
{
    match tokens.get(position) {
        Some(entry) => is_term(entry, term),
        None => false,
    }
}

/// Whether the entry is the term.
pub fn is_term(entry: &Option<String>, term: &str) -> bool
    ensures { IsTrue result ↔ (option_map string_bytes entry.now ≡ Some term.now) }
{
    match entry {
        Some(token) => token.as_str() == term,
        None => false,
    }
}

/// Whether the two terms are at two positions that differ by no more than the limit. One pass over
/// the tokens.
fn are_near(tokens: &[Option<String>], first: &str, second: &str, limit: u32) -> bool
    ensures { IsTrue result ↔
        AreNear (map (option_map string_bytes) tokens.now) first.now second.now limit }
{
    let mut last_first = None;
    let mut last_second = None;
    for (position, entry) in tokens.iter().enumerate() {
        let is_first = is_term(entry, first);
        let is_second = is_term(entry, second);
        if meets(is_first, last_second, position, limit) {
            return true;
        }
        if meets(is_second, last_first, position, limit) {
            return true;
        }
        last_first = latest(is_first, position, last_first);
        last_second = latest(is_second, position, last_second);
    }
    false
}

// Whether the one term is here, and the other no more than the limit before.
fn meets(is_here: bool, earlier: Option<usize>, position: usize, limit: u32) -> bool
    ensures { IsTrue result ↔ (IsTrue is_here × IsSomeAnd earlier (λ p. position - p ≤ limit)) }
{
    match earlier {
        Some(p) => is_here && position.saturating_sub(p) <= limit as usize,
        None => false,
    }
}

// The last position so far, which is this one if it is one.
fn latest(is_here: bool, position: usize, earlier: Option<usize>) -> Option<usize>
    ensures { result ≡ (if is_here then Some position else earlier) }
{
    if is_here { Some(position) } else { earlier }
}

/// Whether some token matches the pattern.
fn has_match(tokens: &[Option<String>], pattern: &Pattern) -> bool
    ensures { IsTrue result ↔ HasMatch (map (option_map string_bytes) tokens.now) pattern.now }
{
    for entry in tokens {
        if is_match(entry, pattern) {
            return true;
        }
    }
    false
}

/// Whether the entry is a term that matches the pattern.
pub fn is_match(entry: &Option<String>, pattern: &Pattern) -> bool
    ensures { IsTrue result ↔
        IsSomeAnd (option_map string_bytes entry.now) (λ term. Matches term pattern.now) }
{
    match entry {
        Some(token) => pattern.matches(token.as_str()),
        None => false,
    }
}

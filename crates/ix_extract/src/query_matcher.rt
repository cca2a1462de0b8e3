//! The terms that a query asks about, and those that a pattern matches, as matchers of a dictionary's terms.

ghost use Rattle.std.specs.Prelude.{◌↔◌, ◌⊎◌, [], ℕ, List, Some, Any, Contains, OnOk, IfOk};
ghost use Rattle.ix_gram.specs.Patterns.{Matches};
ghost use Rattle.ix_projection.specs.Asked.{AsksAbout};
ghost use Rattle.ix_extract.specs.Parts.{IsSought, IsText};

use ix_gram::Pattern;
use ix_lookup::{AnyOf, Prefixed, TermMatcher, TermTest, Words};
use ix_query_text::{Term, Tree};
use std::alloc::{AllocError, Global};

/// The terms that a pattern matches.
#[derive(Clone, Copy, Drop)]
pub(crate) struct PatternTest<'a> {
    pattern: &'a Pattern,
}

impl TermTest for PatternTest<'_> {
    ghost use Rattle.ix_gram.specs.Patterns.{Matches};

    ghost passes = { λ test term. Matches term test.pattern.now };

    fn test(&self, term: &str) -> bool {
        self.pattern.matches(term)
    }
}

/// A matcher of the terms that a pattern matches, before the first term. Takes no memory.
pub(crate) fn match_pattern(alloc: Global, pattern: &Pattern) -> Prefixed<'_, PatternTest<'_>>
    ensures wanted { (term : List ℕ)
        → ⟦<Prefixed<'static, PatternTest<'static>> as TermMatcher>⟧.wants result term
        ↔ Matches term pattern.now }
    ensures begun { ⟦<Prefixed<'static, PatternTest<'static>> as TermMatcher>⟧.is_at result [] }
{
    Prefixed::new(alloc, pattern.front(), PatternTest { pattern })
}

/// The words of a query, or one of its patterns.
#[derive(Drop)]
pub(crate) enum Part<'a> {
    Words(Words<'a>),
    Pattern(Prefixed<'a, PatternTest<'a>>),
}

impl TermMatcher for Part<'_> {
    ghost use Rattle.ix_extract.specs.Parts.{IsPartAt, IsPartWanted};

    ghost wants = { IsPartWanted };

    ghost is_at = { IsPartAt };

    fn step(&mut self, shared: u32, own: &[u8]) -> Result<bool, AllocError> {
        match self {
            Part::Words(words) => words.step(shared, own),
            Part::Pattern(pattern) => pattern.step(shared, own),
        }
    }

    fn term(&self) -> &str {
        match self {
            Part::Words(words) => words.term(),
            Part::Pattern(pattern) => pattern.term(),
        }
    }

    fn is_past(&self) -> bool {
        match self {
            Part::Words(words) => words.is_past(),
            Part::Pattern(pattern) => pattern.is_past(),
        }
    }
}

/// A matcher of the terms that a query asks about, before the first term.
///
/// # Errors
/// Out of memory.
pub(crate) fn match_query<'a>(alloc: Global, query: &'a Tree) -> Result<AnyOf<Part<'a>>, AllocError>
    ensures wanted { (term : List ℕ) → IfOk result (λ matcher.
        ⟦<AnyOf<Part<'static>> as TermMatcher>⟧.wants matcher term ↔ AsksAbout term query.now) }
    ensures begun { IfOk result (λ matcher.
        ⟦<AnyOf<Part<'static>> as TermMatcher>⟧.is_at matcher []) }
{
    let mut words = Vec::new(alloc);
    let mut matcher = AnyOf::new(alloc);
    collect(alloc, query, &mut words, &mut matcher)?;
    matcher.push(Part::Words(Words::new(words)))?;
    Ok(matcher)
}

/// Adds the words of a query, and a matcher for each of its patterns.
///
/// # Errors
/// Out of memory.
#[cycle(collect)]
fn collect<'a>(
    alloc: Global,
    query: &'a Tree,
    words: &mut Vec<&'a str>,
    patterns: &mut AnyOf<Part<'a>>,
) -> Result<(), AllocError>
    requires begun { ⟦<AnyOf<Part<'static>> as TermMatcher>⟧.is_at patterns.old [] }
    ensures begun { ⟦<AnyOf<Part<'static>> as TermMatcher>⟧.is_at patterns.new [] }
    ensures wanted { (term : List ℕ) → OnOk result (IsSought words.new.items patterns.new term
        ↔ (IsSought words.old.items patterns.old term ⊎ AsksAbout term query.now)) }
{
    match query {
        Tree::Phrase(parts) => collect_words(parts.as_slice(), words),
        Tree::Near { first, second, .. } => {
            words.push(first.as_str())?;
            words.push(second.as_str())?;
            Ok(())
        }
        Tree::Pattern(pattern) => patterns.push(Part::Pattern(match_pattern(alloc, pattern))),
        Tree::And(parts) => collect_each(alloc, parts.as_slice(), words, patterns),
        Tree::Or(parts) => collect_each(alloc, parts.as_slice(), words, patterns),
        Tree::Not(part) => collect(alloc, part.get(), words, patterns),
    }
}

#[cycle(collect)]
fn collect_each<'a>(
    alloc: Global,
    parts: &'a [Tree],
    words: &mut Vec<&'a str>,
    patterns: &mut AnyOf<Part<'a>>,
) -> Result<(), AllocError>
    requires begun { ⟦<AnyOf<Part<'static>> as TermMatcher>⟧.is_at patterns.old [] }
    ensures begun { ⟦<AnyOf<Part<'static>> as TermMatcher>⟧.is_at patterns.new [] }
    ensures wanted { (term : List ℕ) → OnOk result (IsSought words.new.items patterns.new term
        ↔ (IsSought words.old.items patterns.old term ⊎ Any (AsksAbout term) parts.now)) }
{
    for part in parts {
        collect(alloc, part, words, patterns)?;
    }
    Ok(())
}

/// Adds the terms of a phrase.
fn collect_words<'a>(parts: &'a [Option<Term>], words: &mut Vec<&'a str>) -> Result<(), AllocError>
    ensures { (term : List ℕ) → OnOk result (IsText words.new.items term
        ↔ (IsText words.old.items term ⊎ Contains parts.now (Some term))) }
{
    for part in parts {
        if let Some(term) = part {
            words.push(term.as_str())?;
        }
    }
    Ok(())
}

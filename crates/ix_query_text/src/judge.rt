//! What a run or a quoted text stands for.

ghost use Rattle.std.specs.Prelude.{◌≡◌, true, map, reverse, IfOk, if◌then◌else◌};
ghost use Rattle.std.specs.List.{list_any};
ghost use Rattle.unicode_segmentation.specs.Word.{words};
ghost use Rattle.ix_text.specs.TokenLists.{entry_of_term};
ghost use Rattle.ix_query_text.specs.Judgement.{is_star, entry_reading, entries_reading, phrase_reading};
ghost use Rattle.ix_query_text.specs.Judgement.{drop_holes, strip_holes, pattern_reading};
ghost use Rattle.ix_query_text.specs.Judgement.{plain as plain_run, quoted as quoted_text};
ghost use Rattle.ix_query_text.specs.Judgement.{beside as beside_near};
ghost use Rattle.ix_query_text.specs.QueryErrors.{Gives};

use crate::error::QueryError;
use crate::tree::{Items, Term, Tree};
use ix_gram::{Pattern, PatternError};
use ix_text::{MAX_TERM_BYTES, StopList, term_of};
use std::alloc::{AllocError, Global};
use unicode_segmentation::UnicodeSegmentation;

// The most bytes that a term may have.
const LONGEST: usize = MAX_TERM_BYTES as usize;

fn has_star(text: &str) -> bool
    ensures { result ≡ list_any is_star text.now }
{
    text.as_bytes().contains(&b'*')
}

fn words_of<'a>(alloc: Global, text: &'a str) -> Result<Vec<&'a str>, AllocError>
    ensures { IfOk result (λ list. map (λ word. word.now) list.items ≡ words text.now) }
{
    text.unicode_words().collect(alloc)
}

// Whether the term is one of 1 to 255 bytes and no stop term.
#[tactic(auto, unfolding(ix_text::specs::TokenLists::entry_of_term))]
fn has_entry(stop: &StopList, term: &str) -> bool
    ensures { entry_of_term stop.now term.now ≡ (if result then Some term.now else None) }
{
    if term.is_empty() || LONGEST < term.len() {
        return false;
    }
    !stop.contains(term)
}

// The entry of a word: its term, or a hole where it is a stop word.
#[tactic(auto, unfolding(crate::specs::Judgement::entry_reading))]
fn entry(alloc: Global, stop: &StopList, word: &str) -> Result<Option<Term>, QueryError>
    ensures { Gives (λ entry. entry) result (entry_reading stop.now word.now) }
{
    let term = term_of(alloc, word)?;
    if LONGEST < term.len() {
        return Err(QueryError::LongTerm);
    }
    if has_entry(stop, term.as_str()) {
        Ok(Some(Term::new(term)))
    } else {
        Ok(None)
    }
}

fn entries(alloc: Global, stop: &StopList, words: &[&str]) -> Result<Vec<Option<Term>>, QueryError>
    ensures { Gives (λ list. list.items) result
        (entries_reading stop.now (map (λ word. word.now) words.now)) }
{
    let mut entries = Vec::new(alloc);
    for word in words {
        entries.push(entry(alloc, stop, word)?)?;
    }
    Ok(entries)
}

fn pop_holes(entries: &mut Vec<Option<Term>>)
    ensures { entries.new.items ≡ reverse (drop_holes (reverse entries.old.items)) }
{
    while let Some(None) = entries.last() {
        entries.pop();
    }
}

// Takes the holes off both ends.
fn strip(mut entries: Vec<Option<Term>>) -> Vec<Option<Term>>
    ensures { result.items ≡ strip_holes entries.items }
{
    entries.reverse();
    pop_holes(&mut entries);
    entries.reverse();
    pop_holes(&mut entries);
    entries
}

// The phrase of the words of a text.
#[tactic(auto, unfolding(crate::specs::Judgement::phrase_reading))]
fn phrase(alloc: Global, stop: &StopList, text: &str) -> Result<Tree, QueryError>
    ensures { Gives (λ query. query) result (phrase_reading stop.now text.now) }
{
    let words = words_of(alloc, text)?;
    if words.is_empty() {
        return Err(QueryError::NoWord);
    }
    let entries = strip(entries(alloc, stop, words.as_slice())?);
    if entries.is_empty() {
        return Err(QueryError::OnlyStopWords);
    }
    Ok(Tree::Phrase(Items::from_vec(entries)))
}

// The pattern of a run with a star.
fn pattern(alloc: Global, run: &str) -> Result<Tree, QueryError>
    requires { list_any is_star run.now ≡ true }
    ensures { Gives (λ query. query) result (pattern_reading run.now) }
{
    match Pattern::read(alloc, run) {
        Ok(pattern) => Ok(Tree::Pattern(pattern)),
        Err(PatternError::BareStar) => Err(QueryError::BareStar),
        Err(PatternError::Memory) => Err(QueryError::Memory),
        Err(PatternError::NoStar) => unreachable!("the run has a star"),
    }
}

/// What a run that stands beside no NEAR stands for: with a star the pattern of its pieces, else
/// the phrase of its words.
///
/// # Errors
/// `BareStar` for nothing but stars; without a star `NoWord`, `LongTerm` and `OnlyStopWords`,
/// tested in this order; or `Memory`.
#[tactic(auto, unfolding(crate::specs::Judgement::plain))]
pub fn plain(alloc: Global, stop: &StopList, run: &str) -> Result<Tree, QueryError>
    ensures { Gives (λ query. query) result (plain_run stop.now run.now) }
{
    if has_star(run) {
        pattern(alloc, run)
    } else {
        phrase(alloc, stop, run)
    }
}

/// What a quoted text stands for: the phrase of its words.
///
/// # Errors
/// `StarInPhrase`, `NoWord`, `LongTerm` and `OnlyStopWords`, tested in this order; or `Memory`.
#[tactic(auto, unfolding(crate::specs::Judgement::quoted))]
pub fn quoted(alloc: Global, stop: &StopList, text: &str) -> Result<Tree, QueryError>
    ensures { Gives (λ query. query) result (quoted_text stop.now text.now) }
{
    if has_star(text) {
        return Err(QueryError::StarInPhrase);
    }
    phrase(alloc, stop, text)
}

/// What a run beside NEAR stands for: the term of its one word.
///
/// # Errors
/// `NearWord` for a star or another number of words than one, then `LongTerm`, then `NearWord` for
/// a stop word; or `Memory`.
#[tactic(auto, unfolding(crate::specs::Judgement::beside))]
pub fn beside(alloc: Global, stop: &StopList, run: &str) -> Result<Term, QueryError>
    ensures { Gives (λ term. term) result (beside_near stop.now run.now) }
{
    if has_star(run) {
        return Err(QueryError::NearWord);
    }
    let words = words_of(alloc, run)?;
    match words.as_slice() {
        [word] => entry(alloc, stop, word)?.ok_or(QueryError::NearWord),
        _ => Err(QueryError::NearWord),
    }
}

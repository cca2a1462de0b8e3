//! The grams that every term of a pattern has, and the terms that have them.

ghost use Rattle.std.specs.Prelude.{◌≡◌, [], ◌∷◌, ◌++◌, string_bytes, IsTrue, IsFalse, IfOk, MatchOption, All};
ghost use Rattle.ix_text.specs.Parts.{terms_of};
ghost use Rattle.ix_gram.specs.Candidates.{AddsLists, AreCandidates, HasNoMatch, IsOfNoTerm};

use crate::pattern::Pattern;
use ix_file::{Index, Numbers, opened_parts_are_lawful};
use ix_text::{Memory, trigrams};
use std::alloc::Global;

/// What stands for both ends of a term in its grams.
const MARK: &str = "$";

/// For each gram of a pattern the numbers of the terms that have it, or none where a gram is of no term. The grams are
/// the trigrams of `$` and the first piece, of each inner piece, and of the last piece and `$` (IIR 3.2.2).
pub(crate) fn gram_lists<'a>(
    alloc: Global,
    index: &Index<'a>,
    pattern: &Pattern,
) -> Result<Option<Vec<Numbers<'a>>>, Memory>
    ensures { IfOk result (λ found. MatchOption found
        (HasNoMatch (terms_of index.now.parts.entries) pattern.now)
        (λ lists. All (AreCandidates (terms_of index.now.parts.entries) pattern.now) lists.items)) }
{
    let (first, inner, last) = pattern.pieces();
    let front = marked_front(alloc, first)?;
    let back = marked_back(alloc, last)?;
    let mut lists = Vec::new(alloc);
    if !add_lists(index, front.as_str(), &mut lists)? {
        return Ok(None);
    }
    if !add_lists(index, back.as_str(), &mut lists)? {
        return Ok(None);
    }
    for piece in inner {
        if !add_lists(index, piece.as_str(), &mut lists)? {
            return Ok(None);
        }
    }
    Ok(Some(lists))
}

/// A first piece behind the mark.
fn marked_front(alloc: Global, first: &str) -> Result<String, Memory>
    ensures { IfOk result (λ text. string_bytes text ≡ 36 ∷ first.now) }
{
    let mut text = String::from_str(alloc, MARK)?;
    text.push_str(first)?;
    Ok(text)
}

/// A last piece before the mark.
fn marked_back(alloc: Global, last: &str) -> Result<String, Memory>
    ensures { IfOk result (λ text. string_bytes text ≡ last.now ++ 36 ∷ []) }
{
    let mut text = String::from_str(alloc, last)?;
    text.push_str(MARK)?;
    Ok(text)
}

/// Adds for each trigram of a text the numbers of the terms that have it. Whether each is of some term: the first that
/// is not ends it.
fn add_lists<'a>(
    index: &Index<'a>,
    text: &str,
    lists: &mut Vec<Numbers<'a>>,
) -> Result<bool, Memory>
    ensures added { IfOk result (λ all. IsTrue all
        → AddsLists (terms_of index.now.parts.entries) text.now lists.old.items lists.new.items) }
    ensures nowhere { IfOk result (λ all. IsFalse all
        → IsOfNoTerm (terms_of index.now.parts.entries) text.now) }
{
    opened_parts_are_lawful(index);
    for gram in trigrams(text) {
        let Some(numbers) = index.gram(gram) else {
            return Ok(false);
        };
        lists.push(numbers)?;
    }
    Ok(true)
}

//! The terms of an index that match a pattern.

ghost use Rattle.std.specs.Prelude.{◌≡◌, ◌<◌, ◌≤◌, ◌↔◌, ℕ, length, All, IfOk, IsTrue};
ghost use Rattle.ix_text.specs.Parts.{terms_of};
ghost use Rattle.ix_gram.specs.Candidates.{AreCandidates};
ghost use Rattle.ix_gram.specs.Expanding.{AreMatches, IsMatch};

use crate::candidates::common_numbers;
use crate::grams::gram_lists;
use crate::pattern::Pattern;
use crate::range::terms_from;
use ix_file::{Index, Numbers};
use ix_text::Memory;
use std::alloc::Global;
use std::ops::Range;

/// How much more a term costs that is looked at for a gram than one of those that stand side by side.
const APART: usize = 4;

/// The numbers of the terms of an index that match a pattern, ascending (IIR 3.2.2).
///
/// Looked at are the terms that the rarest grams of the pattern have in common, or those that begin with its first
/// piece, where these are few beside the others or the pattern has no gram. `Memory`: memory is refused.
pub fn expand(alloc: Global, index: &Index<'_>, pattern: &Pattern) -> Result<Vec<u32>, Memory>
    ensures matches { IfOk result (λ numbers.
        AreMatches (terms_of index.now.parts.entries) pattern.now numbers.items) }
    ensures within { IfOk result (λ numbers.
        All (λ number. number < length index.now.parts.entries) numbers.items) }
{
    let Some(lists) = gram_lists(alloc, index, pattern)? else {
        return Ok(Vec::new(alloc));
    };
    let (first, _, _) = pattern.pieces();
    let range = terms_from(index, first);
    if is_short(&range, &lists) {
        return matches_in(alloc, index, pattern, range);
    }
    let numbers = common_numbers(alloc, lists)?;
    matches_among(alloc, index, pattern, &numbers)
}

/// Whether a range is short beside each of the lists.
fn is_short(range: &Range<u32>, lists: &[Numbers<'_>]) -> bool
    ensures { length lists.now ≡ 0 → IsTrue result }
{
    let size = range.end.saturating_sub(range.start) as usize;
    lists.iter().all(|list| size / APART <= list.len())
}

/// The numbers of a range whose terms match, where no others do.
fn matches_in(
    alloc: Global,
    index: &Index<'_>,
    pattern: &Pattern,
    numbers: Range<u32>,
) -> Result<Vec<u32>, Memory>
    requires within { numbers.end ≤ length index.now.parts.entries }
    requires complete { (number : ℕ) → IsMatch (terms_of index.now.parts.entries) pattern.now number
        → (numbers.start ≤ number) × (number < numbers.end) }
    ensures { IfOk result (λ found.
        AreMatches (terms_of index.now.parts.entries) pattern.now found.items) }
{
    let mut found = Vec::new(alloc);
    for number in numbers.start..numbers.end {
        if is_match(index, pattern, number) {
            found.push(number)?;
        }
    }
    Ok(found)
}

/// The candidates whose terms match.
fn matches_among(
    alloc: Global,
    index: &Index<'_>,
    pattern: &Pattern,
    numbers: &[u32],
) -> Result<Vec<u32>, Memory>
    requires { AreCandidates (terms_of index.now.parts.entries) pattern.now numbers.now }
    ensures { IfOk result (λ found.
        AreMatches (terms_of index.now.parts.entries) pattern.now found.items) }
{
    let mut found = Vec::new(alloc);
    for number in numbers {
        if is_match(index, pattern, *number) {
            found.push(*number)?;
        }
    }
    Ok(found)
}

/// Whether the term of a number matches.
fn is_match(index: &Index<'_>, pattern: &Pattern, number: u32) -> bool
    requires { number < length index.now.parts.entries }
    ensures { IsTrue result ↔ IsMatch (terms_of index.now.parts.entries) pattern.now number }
{
    pattern.matches(index.term(number))
}

//! The terms that begin with a text: they stand side by side in the dictionary.

ghost use Rattle.std.specs.Prelude.{◌≡◌, ◌<◌, ◌≤◌, ◌↔◌, ℕ, List, length, slice_get, Some, IsTrue, IsFalse};
ghost use Rattle.ix_text.specs.ByteOrder.{IsAscending};
ghost use Rattle.ix_text.specs.Parts.{terms_of};
ghost use Rattle.ix_gram.specs.Fronts.{BeginsWith, front_side, stands_before};

use ix_file::{Index, opened_parts_are_lawful};
use std::ops::Range;

/// The numbers of the terms that begin with a text.
pub(crate) fn terms_from(index: &Index<'_>, text: &str) -> Range<u32>
    ensures within { result.end ≤ length index.now.parts.entries }
    ensures exact { (number : ℕ) (term : List ℕ)
        → slice_get (terms_of index.now.parts.entries) number ≡ Some term
        → BeginsWith term text.now ↔ ((result.start ≤ number) × (number < result.end)) }
{
    opened_parts_are_lawful(index);
    bound(index, text, false)..bound(index, text, true)
}

/// The number of the first term that stands behind all terms below the text, and where `past` is set behind all that
/// begin with it too.
fn bound(index: &Index<'_>, text: &str, past: bool) -> u32
    requires { IsAscending (terms_of index.now.parts.entries) }
    ensures within { result ≤ length index.now.parts.entries }
    ensures before { (number : ℕ) (term : List ℕ)
        → slice_get (terms_of index.now.parts.entries) number ≡ Some term
        → number < result → IsTrue (stands_before past (front_side term text.now)) }
    ensures behind { (number : ℕ) (term : List ℕ)
        → slice_get (terms_of index.now.parts.entries) number ≡ Some term
        → result ≤ number → IsFalse (stands_before past (front_side term text.now)) }
{
    let mut low = 0;
    let mut high = index.term_count();
    while low < high {
        let middle = low + (high - low) / 2;
        if is_before(index.term(middle), text, past) {
            low = middle + 1;
        } else {
            high = middle;
        }
    }
    low
}

/// Whether a term's front, cut to the length of the text, is below the text, or where `past` is set the text itself.
fn is_before(term: &str, text: &str, past: bool) -> bool
    ensures { result ≡ stands_before past (front_side term.now text.now) }
{
    let size = term.len().min(text.len());
    let side = term.as_bytes()[..size].cmp(text.as_bytes());
    if past { side.is_le() } else { side.is_lt() }
}

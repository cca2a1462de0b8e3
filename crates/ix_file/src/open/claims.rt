//! The tokens that the lists of an index text claim, each by its number in the whole collection.
ghost use Rattle.std.specs.Prelude.{ℕ, ◌*◌, ◌≤◌, ◌++◌, [], ◌↔◌, List, IfOk, IfSome, IsTrue};
ghost use Rattle.std.specs.List.Sorted.{IsStrictlyIncreasing};
ghost use Rattle.ix_text.specs.TokenNumbers.{AreDistinct};
ghost use Rattle.ix_file.specs.Claimed.{HasClaimed, HasRoom, mark_count};

use ix_postings::{ListFault, SeenTokens, TokenMarks};
use std::alloc::{AllocError, Global};

/// How many marks take a byte.
pub(crate) const MARKS_A_BYTE: usize = 8;

/// How many marks there may be more than tokens, since they stand in whole words.
const UNUSED: usize = 63;

/// The tokens that were claimed so far.
#[derive(Drop)]
pub(crate) enum Claims {
    /// A mark for each, and whether a token that had one was claimed again.
    Marked(TokenMarks, bool),
    /// Their numbers, in the order of the claims.
    Listed(Vec<u32>),
}

impl Claims {
    /// No claims, with room for the tokens of a collection: marks if they take no more bytes than POSTINGS has,
    /// and else a list, so that a text that claims many tokens and has few takes no more memory for it.
    pub(crate) fn new(alloc: Global, tokens: u32, postings: usize) -> Result<Claims, AllocError>
        ensures none { IfOk result (λ claims. HasClaimed claims []) }
        ensures room { IfOk result (λ claims. HasRoom claims tokens) }
        ensures few { IfOk result (λ claims. mark_count claims ≤ 8 * postings) }
    {
        if (tokens as usize + UNUSED).div_ceil(MARKS_A_BYTE) <= postings {
            let marks = TokenMarks::new(alloc, tokens)?;
            Ok(Claims::Marked(marks, false))
        } else {
            Ok(Claims::Listed(Vec::new(alloc)))
        }
    }

    /// Whether a token was claimed more than once.
    pub(crate) fn are_doubled(self) -> bool
        ensures { (numbers : List ℕ) → HasClaimed self numbers →
            IsTrue result ↔ ¬ (AreDistinct numbers) }
    {
        match self {
            Claims::Marked(_, doubled) => doubled,
            Claims::Listed(mut numbers) => {
                numbers.sort_unstable();
                !are_rising(&numbers)
            }
        }
    }

    /// Whether a token was claimed more than once, here or there or once in both: known of marks alone, since lists are
    /// not compared.
    pub(crate) fn are_doubled_beside(&self, other: &Claims) -> Option<bool>
        ensures { IfSome result (λ doubled. (one others : List ℕ) → HasClaimed self.now one →
            HasClaimed other.now others → IsTrue doubled ↔ ¬ (AreDistinct (one ++ others))) }
    {
        match (self, other) {
            (Claims::Marked(marks, doubled), Claims::Marked(others, doubled_there)) => {
                Some(*doubled | *doubled_there | marks.meets(others))
            }
            _ => None,
        }
    }
}

/// A token that is claimed again is no error before the last list was checked.
impl SeenTokens for Claims {
    ghost use Rattle.std.specs.Prelude.{⊤};

    ghost has_seen = { HasClaimed };

    ghost has_room = { HasRoom };

    ghost admits = { λ _. ⊤ };

    #[inline(always)]
    fn see(&mut self, number: u32) -> Result<(), ListFault> {
        match self {
            Claims::Marked(marks, doubled) => {
                *doubled |= !marks.mark(number);
                Ok(())
            }
            Claims::Listed(numbers) => {
                numbers.push(number)?;
                Ok(())
            }
        }
    }

    ghost front_admitted = { λ _ _ _. tt };
}

/// Whether each number is below the next.
fn are_rising(numbers: &[u32]) -> bool
    ensures { IsTrue result ↔ IsStrictlyIncreasing numbers.now }
{
    for place in 1..numbers.len() {
        if numbers[place] <= numbers[place - 1] {
            return false;
        }
    }
    true
}

//! One word that is looked for.
ghost use Rattle.std.specs.Prelude.{◌≡◌, ◌≤◌, ◌+◌, ◌++◌, [], List, ℕ, length, take, drop, nat_eq, IsTrue, ◌↔◌};
ghost use Rattle.std.specs.List.{common_prefix_len};

use crate::TermMatcher;
use std::alloc::AllocError;

/// A word that is looked for as a term.
///
/// No term is put together: the number of bytes that the last term shares with the word tells how many of them the next
/// one shares.
#[derive(Clone, Copy, Debug)]
pub struct Word<'a> {
    pub(crate) text: &'a str,
    pub(crate) common: usize,
    pub(crate) is_below: bool,
    ghost within: { common ≤ length text.now },
}

impl Word<'_> {
    ghost use Rattle.ix_lookup.specs.Words.{IsAtTerm};

    /// A word, before the first term.
    pub fn new(text: &str) -> Word<'_>
        ensures wanted { (term : List ℕ) → ⟦<Word<'static> as TermMatcher>⟧.wants result term
            ↔ (term ≡ text.now) }
        ensures begun { ⟦<Word<'static> as TermMatcher>⟧.is_at result [] }
    {
        Word {
            text,
            common: 0,
            is_below: false,
        }
    }

    /// A word, at some term.
    pub(crate) fn at<'a>(text: &'a str, term: &str) -> Word<'a>
        ensures text { result.text.now ≡ text.now }
        ensures at { IsAtTerm result term.now }
    {
        Word {
            text,
            common: shared_front(term.as_bytes(), text.as_bytes()),
            is_below: text.as_bytes().cmp(term.as_bytes()).is_lt(),
        }
    }

    /// Goes on to the term that has the first `shared` bytes of the term before and then these of its own.
    ///
    /// If the word shares fewer with the term before, the byte that tells them apart is still there.
    pub(crate) fn follow(&mut self, shared: u32, own: &[u8])
        ensures text { self.new.text ≡ self.old.text }
        ensures moved { (before : List ℕ) → IsAtTerm self.old before → shared ≤ length before
            → IsAtTerm self.new (take shared before ++ own.now) }
    {
        let shared = shared as usize;
        if shared > self.common {
            return;
        }
        let rest = &self.text.as_bytes()[shared..];
        self.common = shared + shared_front(own, rest);
        self.is_below = rest.cmp(own).is_lt();
    }

    /// Whether it is the term that has the first `shared` bytes of the term before and then these of its own, to which
    /// it has gone on.
    pub(crate) fn is_whole(&self, shared: u32, own: &[u8]) -> bool
        ensures { (before : List ℕ) → shared ≤ length before
            → IsAtTerm self.now (take shared before ++ own.now)
            → IsTrue result ↔ (take shared before ++ own.now ≡ self.now.text.now) }
    {
        self.common == self.text.len() && shared as usize + own.len() == self.text.len()
    }
}

impl TermMatcher for Word<'_> {
    ghost use Rattle.std.specs.Prelude.{◌≡◌};
    ghost use Rattle.ix_lookup.specs.Words.{IsAtTerm};

    ghost wants = { λ word term. term ≡ word.text.now };

    ghost is_at = { IsAtTerm };

    fn step(&mut self, shared: u32, own: &[u8]) -> Result<bool, AllocError> {
        self.follow(shared, own);
        Ok(self.is_whole(shared, own))
    }

    fn term(&self) -> &str {
        self.text
    }

    fn is_past(&self) -> bool {
        self.is_below
    }
}

/// How many bytes two texts share from the front on.
fn shared_front(one: &[u8], other: &[u8]) -> usize
    ensures value { result ≡ common_prefix_len nat_eq one.now other.now }
    ensures within { result ≤ length other.now }
{
    let most = one.len().min(other.len());
    for place in 0..most {
        if one[place] != other[place] {
            return place;
        }
    }
    most
}

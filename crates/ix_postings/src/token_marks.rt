//! A mark for each token of a collection.

use std::alloc::{AllocError, Global};

/// A mark, set or not, for each token of a collection, by its number from 0.
#[derive(Drop)]
pub struct TokenMarks {
    // a bit a mark: that of a number is bit `number % 64` of word `number / 64`
    words: Vec<u64>,
}

impl TokenMarks {
    ghost use Rattle.std.specs.Prelude.{◌≡◌, ◌+◌, ◌<◌, ◌≤◌, ◌++◌, ◌∷◌, ◌↔◌, ℕ, [], List, IfOk, IsTrue, Contains};
    ghost use Rattle.ix_postings.specs.TokenMarks.{HoldsNumbers, ShareNumber, room};

    /// Marks for the numbers below `count`, none of them set: a bit each, in whole words of eight bytes. Fails where memory is refused.
    pub fn new(alloc: Global, count: u32) -> Result<TokenMarks, AllocError>
        ensures none { IfOk result (λ marks. HoldsNumbers marks []) }
        ensures room { IfOk result (λ marks. count ≤ room marks) }
        ensures narrow { IfOk result (λ marks. room marks < count + 64) }
    {
        Ok(TokenMarks {
            words: vec![in alloc; 0; (count as usize).div_ceil(64)]?,
        })
    }

    /// Marks the number, one of those that the marks were made for. Whether it was free, that is, not marked before.
    #[inline]
    pub fn mark(&mut self, number: u32) -> bool
        requires { number < room self.old }
        ensures room { room self.new ≡ room self.old }
        ensures free { (numbers : List ℕ) → HoldsNumbers self.old numbers
            → IsTrue result ↔ ¬ (Contains numbers number) }
        ensures marked { (numbers : List ℕ) → HoldsNumbers self.old numbers
            → HoldsNumbers self.new (numbers ++ number ∷ []) }
    {
        let word = &mut self.words[number as usize / 64];
        let bit = 1 << (number % 64);
        let free = *word & bit == 0;
        *word |= bit;
        free
    }

    /// Whether the number, one of those that the marks were made for, is marked.
    #[inline]
    pub fn is_marked(&self, number: u32) -> bool
        requires { number < room self.now }
        ensures { (numbers : List ℕ) → HoldsNumbers self.now numbers
            → IsTrue result ↔ Contains numbers number }
    {
        self.words[number as usize / 64] & (1 << (number % 64)) != 0
    }

    /// Whether some number is marked both here and there.
    pub fn meets(&self, other: &TokenMarks) -> bool
        ensures { (one others : List ℕ) → HoldsNumbers self.now one
            → HoldsNumbers other.now others → IsTrue result ↔ ShareNumber one others }
    {
        let shorter = self.words.len().min(other.words.len());
        for place in 0..shorter {
            if self.words[place] & other.words[place] != 0 {
                return true;
            }
        }
        false
    }
}

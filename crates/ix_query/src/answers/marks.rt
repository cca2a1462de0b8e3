//! A mark for each document.

ghost use Rattle.std.specs.Prelude.{◌≡◌, ◌<◌, ◌≤◌, ◌+◌, ◌-◌, ◌*◌, ◌⊎◌, ℕ, length, IfOk, OnOk};
ghost use Rattle.ix_postings.specs.TokenMarks.{mark_of};
ghost use Rattle.ix_query.specs.Marking.{AddsBits, CanAddBits};

use ix_text::Memory;
use std::alloc::Global;

/// A mark, set or not, for each number below a count.
#[derive(Drop)]
pub(crate) struct Marks {
    // a bit a mark: that of a number is bit `number % 64` of word `number / 64`
    words: Vec<u64>,
    count: u32,
    ghost room: { count ≤ length words.items * 64 },
    ghost short: { length words.items * 64 < count + 64 },
    ghost within: { (n : ℕ) → mark_of words.items n ≡ 1 → n < count },
}

impl Marks {
    ghost use Rattle.std.specs.Prelude.{◌↔◌};
    ghost use Rattle.ix_query.specs.Marked.{IsMarked};
    ghost use Rattle.ix_query.specs.Streams.{AreAll};

    /// Marks for the numbers below `count`, none of them set.
    pub(crate) fn new(alloc: Global, count: u32) -> Result<Marks, Memory>
        ensures none { IfOk result (λ marks. (n : ℕ) → ¬ (IsMarked marks n)) }
        ensures count { IfOk result (λ marks. marks.count ≡ count) }
    {
        let words = vec![in alloc; 0; (count as usize).div_ceil(64)]?;
        Ok(Marks { words, count })
    }

    /// Marks the number if it is below the count.
    #[inline]
    pub(crate) fn mark(&mut self, number: u32)
        ensures marked { (n : ℕ) → IsMarked self.new n
            ↔ (IsMarked self.old n ⊎ ((n ≡ number) × (number < self.old.count))) }
        ensures count { self.new.count ≡ self.old.count }
    {
        if number < self.count {
            self.words[number as usize / 64] |= 1 << (number % 64);
        }
    }

    /// The numbers that are marked.
    pub(crate) fn numbers(&self, alloc: Global) -> Result<Vec<u32>, Memory>
        ensures { IfOk result (λ numbers. AreAll (IsMarked self.now) numbers.items) }
    {
        let _count = self.count;
        let mut found = Vec::new(alloc);
        for (place, word) in self.words.iter().enumerate() {
            push_bits(&mut found, *word, place as u32 * 64)?;
        }
        Ok(found)
    }
}

/// Appends the places of the word's bits that are set, counted from `start`, lowest first.
#[inline]
fn push_bits(found: &mut Vec<u32>, word: u64, start: u32) -> Result<(), Memory>
    requires { CanAddBits found.old.items word start }
    ensures { OnOk result (AddsBits found.old.items found.new.items word start) }
{
    let mut rest = word;
    while rest != 0 {
        let place = rest.trailing_zeros();
        found.push(start + place)?;
        rest &= !(1 << place);
    }
    Ok(())
}

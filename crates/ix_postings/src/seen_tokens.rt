//! Which tokens were seen.

use crate::{ListFault, TokenMarks};

/// The tokens of a collection that lists have named so far.
pub trait SeenTokens {
    ghost use Rattle.std.specs.Prelude.{◌≡◌, ◌<◌, ◌++◌, ◌∷◌, ◌↔◌, [], ℕ, List, IfErr, OnOk};
    ghost use Rattle.ix_postings.specs.SeenTokens.{SeesMore};
    ghost use Rattle.ix_postings.specs.declared.list_fault.ListFault.TheVariants.{Memory};

    // Exactly these tokens were seen, one by one.
    ghost has_seen: { Self → List ℕ → Type 0 };

    // Each token below this number may be seen.
    ghost has_room: { Self → ℕ → Type 0 };

    // Tokens that may be seen one by one.
    ghost admits: { List ℕ → Type 0 };

    /// Notes that a list names the token of this number.
    ///
    /// # Errors
    /// `Doubled` if it was seen before, and that is an error at once; or `Memory`.
    fn see(&mut self, number: u32) -> Result<(), ListFault>
        requires { (top : ℕ) × has_room self.old top × (number < top) }
        ensures seen { OnOk result (SeesMore admits (has_seen self.old) (has_seen self.new)
            (number ∷ [])) }
        ensures room { (top : ℕ) → has_room self.old top ↔ has_room self.new top }
        ensures accepted { (numbers : List ℕ) → has_seen self.old numbers
            → admits (numbers ++ number ∷ []) → IfErr result (λ fault. fault ≡ Memory) };

    // Of tokens that may be seen, the first ones may.
    ghost front_admitted: { (front rest : List ℕ) → admits (front ++ rest) → admits front };
}

/// A token that is marked is an error at once.
impl SeenTokens for TokenMarks {
    ghost use Rattle.std.specs.Prelude.{◌≤◌};
    ghost use Rattle.ix_postings.specs.TokenMarks.{HoldsNumbers, room};
    ghost use Rattle.ix_text.specs.TokenNumbers.{AreDistinct};
    ghost use Rattle.ix_text.proofs.DistinctNumbers.{distinct_front};

    ghost has_seen = { HoldsNumbers };

    ghost has_room = { λ marks top. top ≤ room marks };

    ghost admits = { AreDistinct };

    #[inline(always)]
    fn see(&mut self, number: u32) -> Result<(), ListFault> {
        if self.mark(number) {
            Ok(())
        } else {
            Err(ListFault::Doubled)
        }
    }

    ghost front_admitted = { distinct_front };
}

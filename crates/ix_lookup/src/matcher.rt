//! What is looked for in a dictionary.

use std::alloc::AllocError;

/// Terms that are looked for, and how far a scan of a dictionary has come.
///
/// A scan steps from term to term, which ascend. Each step has the bytes by which the term differs from the term before,
/// so a matcher puts together only the terms that it has to.
pub trait TermMatcher {
    ghost use Rattle.std.specs.Prelude.{◌≡◌, ◌≤◌, ◌++◌, ◌↔◌, ℕ, List, length, take, IsTrue, IfOk};
    ghost use Rattle.ix_text.specs.Terms.{IsTerm};
    ghost use Rattle.ix_lookup.specs.TermOrder.{IsBelow};

    // The terms that are looked for. They stay the same.
    ghost wants: { Self → List ℕ → Type 0 };

    // The scan has come to this term.
    ghost is_at: { Self → List ℕ → Type 0 };

    /// Steps to the term that has the first `shared` bytes of the term before, and then these of its own. Returns
    /// whether it is looked for.
    ///
    /// # Errors
    /// Out of memory.
    fn step(&mut self, shared: u32, own: &[u8]) -> Result<bool, AllocError>
        ensures same { (term : List ℕ) → wants self.new term ↔ wants self.old term }
        ensures moved { (before : List ℕ) → is_at self.old before → shared ≤ length before
            → IsBelow before (take shared before ++ own.now)
            → IfOk result (λ _. is_at self.new (take shared before ++ own.now)) }
        ensures answered { (before : List ℕ) → is_at self.old before → shared ≤ length before
            → IsBelow before (take shared before ++ own.now)
            → IsTerm (take shared before ++ own.now)
            → IfOk result (λ found. IsTrue found
            ↔ wants self.old (take shared before ++ own.now)) };

    /// The term that the scan has come to, if it is looked for.
    fn term(&self) -> &str
        ensures { (term : List ℕ) → is_at self.now term → IsTerm term → wants self.now term
            → result.now ≡ term };

    /// Whether no term that may follow in ascending order is looked for, as far as the matcher knows.
    fn is_past(&self) -> bool
        ensures { IsTrue result → (term later : List ℕ) → is_at self.now term
            → IsBelow term later → ¬ (wants self.now later) };
}

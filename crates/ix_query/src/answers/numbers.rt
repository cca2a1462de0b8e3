//! Streams of ascending numbers.

ghost use Rattle.std.specs.Prelude.{ℕ};
ghost use Rattle.ix_query.specs.Streams.{Reaches};

/// Ascending numbers, read in order: documents of a term, of a phrase, of a part of a query.
pub(crate) trait Numbers: Drop {
    // What is left: numbers, each with places of its own (the positions, if the numbers are documents of a term).
    ghost has: { Self → ℕ → ℕ → Type 0 };

    /// The first number left that is not below `low`. It stays, and what is below `low` is gone.
    fn seek(&mut self, low: u32) -> Option<u32>
        ensures { Reaches (has self.old) (has self.new) low result };
}

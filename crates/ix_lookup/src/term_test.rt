//! A test of terms.

/// A test of the terms that begin with some text.
pub trait TermTest {
    ghost use Rattle.std.specs.Prelude.{◌↔◌, ℕ, List, IsTrue};

    // The terms that pass.
    ghost passes: { Self → List ℕ → Type 0 };

    /// Whether a term passes.
    fn test(&self, term: &str) -> bool
        ensures { IsTrue result ↔ passes self.now term.now };
}

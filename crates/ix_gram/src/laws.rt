//! Laws of the definitions of patterns.

ghost use Rattle.std.specs.Prelude.{◌≡◌, ℕ, List};
ghost use Rattle.ix_gram.specs.Patterns.{IsCutAtStars, parts_of};

/// A law: the parts of a text are a way, and the only way, to cut it at its stars.
pub fn parts_are_cut_at_stars()
    ensures cut { (text : List ℕ) → IsCutAtStars text (parts_of text) }
    ensures only { (text : List ℕ) → (parts : List (List ℕ)) → IsCutAtStars text parts →
        parts ≡ parts_of text }
{}

//! Laws of the definitions.

ghost use Rattle.std.specs.Prelude.{◌≡◌, ℕ, List, Ok, Err};
ghost use Rattle.ix_text.specs.TokenLists.{Entry};
ghost use Rattle.ix_query_text.specs.declared.error.QueryError.{QueryError};
ghost use Rattle.ix_query_text.specs.Cutting.{AreLexemes, HasFault};
ghost use Rattle.ix_query_text.specs.Judgement.{strip_holes};
ghost use Rattle.ix_query_text.specs.Lexemes.{Lexeme, lexemes_of};
ghost use Rattle.ix_query_text.specs.Stripping.{IsStripped};

/// A law: the lexemes of a text are a way, and the only way, to cut it.
pub fn lexemes_cut_the_text()
    ensures cut { (text : List ℕ) → (lexemes : List Lexeme) →
        lexemes_of text ≡ Ok lexemes → AreLexemes 0 text lexemes }
    ensures only { (text : List ℕ) → (lexemes : List Lexeme) →
        AreLexemes 0 text lexemes → lexemes_of text ≡ Ok lexemes }
{}

/// A law: an error is the first fault of a text, and a text with a fault has no lexemes.
pub fn faults_are_the_first()
    ensures first { (text : List ℕ) → (fault : QueryError) →
        lexemes_of text ≡ Err fault → HasFault fault text }
    ensures only { (text : List ℕ) → (fault : QueryError) →
        HasFault fault text → lexemes_of text ≡ Err fault }
{}

/// A law: a phrase is what is left of the entries of its words without the holes at both ends.
pub fn phrases_have_no_hole_at_an_end()
    ensures stripped { (entries : List Entry) → IsStripped entries (strip_holes entries) }
    ensures only { (entries : List Entry) → (left : List Entry) →
        IsStripped entries left → left ≡ strip_holes entries }
{}

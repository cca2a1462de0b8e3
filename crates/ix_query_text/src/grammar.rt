//! Laws of the grammar, which no code runs: each is the contract of a function that does nothing.

ghost use Rattle.std.specs.Prelude.{◌≡◌, ◌↔◌, ℕ, List, Ok, Err};
ghost use Rattle.ix_query_text.specs.declared.error.QueryError.{QueryError as SeenError};
ghost use Rattle.ix_query_text.specs.declared.tree.Tree.{Tree};
ghost use Rattle.ix_query_text.specs.Grammar.{Reads};
ghost use Rattle.ix_query_text.specs.Machine.{query_of, tree_of};
ghost use Rattle.ix_query_text.specs.Lexemes.{Lexeme};
ghost use Rattle.ix_query_text.specs.Proper.{IsProper};
ghost use Rattle.ix_query_text.specs.Faults.{BeginsQuery, IsFirstRefused, IsFirstUnexpected};
ghost use Rattle.ix_query_text.specs.Faults.{IsJudgement, IsTooDeep};

use crate::error::QueryError;

/// The function that names the first fault gives a tree exactly where the grammar has one, and
/// that one.
pub fn queries_are_those_of_the_grammar()
    ensures { (stop : List (List ℕ)) (text : List ℕ) (query : Tree) →
        (query_of stop text ≡ Ok query) ↔ Reads stop text query }
{}

/// A text has at most one tree.
pub fn a_text_has_one_tree()
    ensures { (stop : List (List ℕ)) (text : List ℕ) (one other : Tree) →
        Reads stop text one → Reads stop text other → one ≡ other }
{}

/// What a text reads as is a proper tree.
pub fn texts_read_as_proper_trees()
    ensures { (stop : List (List ℕ)) (text : List ℕ) (query : Tree) →
        Reads stop text query → IsProper query }
{}

/// `Unexpected` names the first lexeme that cannot stand at its place.
pub fn an_unexpected_lexeme_is_the_first()
    ensures { (stop : List (List ℕ)) (lexemes : List Lexeme) (offset : ℕ) →
        tree_of stop lexemes ≡ Err (QueryError.Unexpected offset) →
        IsFirstUnexpected stop lexemes offset }
{}

/// `End` comes where some query begins with all of the lexemes.
pub fn the_end_comes_too_soon()
    ensures { (stop : List (List ℕ)) (lexemes : List Lexeme) →
        tree_of stop lexemes ≡ Err QueryError.End → BeginsQuery stop lexemes }
{}

/// `Deep` comes at a bracket or a NOT where an operand may stand, but none that opens one more.
pub fn a_lexeme_too_deep_is_the_first()
    ensures { (stop : List (List ℕ)) (lexemes : List Lexeme) →
        tree_of stop lexemes ≡ Err QueryError.Deep → IsTooDeep stop lexemes }
{}

/// Any other fault of lexemes is that of a run or a quoted text, which some query may come to.
pub fn a_refused_run_is_the_first()
    ensures { (stop : List (List ℕ)) (lexemes : List Lexeme) (error : SeenError) →
        IsJudgement error → tree_of stop lexemes ≡ Err error →
        IsFirstRefused stop lexemes error }
{}

//! Patterns and the terms that match them.

ghost use Rattle.std.specs.Prelude.{◌≡◌, ◌<◌, ◌↔◌, ℕ, List, [], ◌∷◌, ◌++◌, length, map, string_bytes, All, IsUtf8, IsTrue, IfOk, OnOk, IsErrOf};
ghost use Rattle.ix_gram.specs.Patterns.{pieces_of, HasStar, HasPiece, Matches};

use crate::error::PatternError;
use ix_text::term_of;
use std::alloc::Global;
use std::marker::Model;

/// What stands for any characters.
const STAR: char = '*';

/// A pattern: two or more pieces, each in the form that terms have (IIR 3.2).
#[derive(Debug, Drop)]
pub struct Pattern {
    first: String,
    inner: Vec<String>,
    last: String,
}

impl Model for Pattern {
    ghost use Rattle.std.specs.Prelude.{ℕ, List, [], ◌∷◌, ◌++◌, map, string_bytes};

    ghost Value = { List (List ℕ) };

    ghost view = { λ p. string_bytes p.first
        ∷ (map string_bytes p.inner.items ++ string_bytes p.last ∷ []) };
}

impl Pattern {
    /// Reads a text with a star and something else: its pieces are what stands between its stars, each brought to the
    /// form that terms have.
    ///
    /// `NoStar`: the text has no star. `BareStar`: it is nothing but stars. `Memory`: memory is refused.
    pub fn read(alloc: Global, text: &str) -> Result<Pattern, PatternError>
        ensures pieces { IfOk result (λ pattern. pattern ≡ pieces_of text.now) }
        ensures with_star { OnOk result (HasStar text.now) }
        ensures with_piece { OnOk result (HasPiece text.now) }
        ensures no_star { IsErrOf result PatternError.NoStar ↔ ¬ (HasStar text.now) }
        ensures bare_star { IsErrOf result PatternError.BareStar ↔
            (HasStar text.now × ¬ (HasPiece text.now)) }
    {
        let Some((first, mut rest)) = text.split_once(STAR) else {
            return Err(PatternError::NoStar);
        };
        if !has_piece(text) {
            return Err(PatternError::BareStar);
        }
        let first = term_of(alloc, first)?;
        let mut inner = Vec::new(alloc);
        while let Some((piece, after)) = rest.split_once(STAR) {
            inner.push(term_of(alloc, piece)?)?;
            rest = after;
        }
        let last = term_of(alloc, rest)?;
        Ok(Pattern { first, inner, last })
    }

    /// The first piece, with which every term that matches begins. It is empty if the text begins with a star.
    pub fn front(&self) -> &str
        ensures { (others : List (List ℕ)) × (self.now ≡ result.now ∷ others) }
    {
        self.first.as_str()
    }

    /// The first piece, the inner ones in order, and the last.
    pub(crate) fn pieces(&self) -> (&str, &[String], &str)
        ensures value { self.now ≡ result.0.now ∷ (map string_bytes result.1.now
            ++ result.2.now ∷ []) }
        ensures texts { All IsUtf8 self.now }
    {
        (
            self.first.as_str(),
            self.inner.as_slice(),
            self.last.as_str(),
        )
    }

    /// Whether the term is the first piece, any characters, the second piece, and so on, and the last piece at its end.
    ///
    /// Takes no memory. The front piece must stand at the front; each inner piece is then looked for from the left,
    /// and the last piece must stand at the end of what is left.
    pub fn matches(&self, term: &str) -> bool
        ensures { IsTrue result ↔ Matches term.now self.now }
    {
        let Some(mut rest) = term.strip_prefix(self.first.as_str()) else {
            return false;
        };
        for piece in &self.inner {
            let Some((_, after)) = rest.split_once(piece.as_str()) else {
                return false;
            };
            rest = after;
        }
        rest.ends_with(self.last.as_str())
    }
}

// Whether the text has something other than stars.
fn has_piece(text: &str) -> bool
    ensures { IsTrue result ↔ HasPiece text.now }
{
    text.bytes().any(|byte| byte != b'*')
}

//! Several words that are looked for.
ghost use Rattle.std.specs.Prelude.{◌≡◌, ◌≤◌, ◌<◌, ◌+◌, ◌++◌, ◌↔◌, [], List, ℕ, length, map, take, Contains, IsTrue};

use crate::{TermMatcher, Word};
use std::alloc::AllocError;

/// Words that are looked for as terms.
///
/// They are sorted, and terms ascend, so each term is compared with one word: the first that is not below it.
#[derive(Debug, Drop)]
pub struct Words<'a> {
    texts: Vec<&'a str>,
    place: usize,
    word: Word<'a>,
}

impl<'a> Words<'a> {
    ghost use Rattle.ix_lookup.specs.TermOrder.{IsBelow};
    ghost use Rattle.ix_lookup.specs.Words.{AreAtTerm, AreSorted, HasPassed, texts_of};

    /// Words, before the first term. Takes no memory.
    pub fn new(texts: Vec<&'a str>) -> Words<'a>
        ensures wanted { (term : List ℕ) → ⟦<Words<'static> as TermMatcher>⟧.wants result term
            ↔ Contains (map (λ text. text.now) texts.entry.items) term }
        ensures begun { ⟦<Words<'static> as TermMatcher>⟧.is_at result [] }
    {
        let mut texts = texts;
        texts.sort_unstable();
        let first = texts.first().copied().unwrap_or("");
        Words {
            word: Word::at(first, ""),
            texts,
            place: 0,
        }
    }

    /// Whether each word is below the last term.
    fn is_behind(&self) -> bool
        ensures { IsTrue result ↔ (length self.now.texts.items ≤ self.now.place) }
    {
        self.place >= self.texts.len()
    }

    /// Goes on to the term that has the first `shared` bytes of the term before and then these of its own.
    fn follow(&mut self, shared: u32, own: &[u8])
        ensures texts { self.new.texts.items ≡ self.old.texts.items }
        ensures moved { (before : List ℕ) → AreAtTerm self.old before → shared ≤ length before
            → IsBelow before (take shared before ++ own.now)
            → AreAtTerm self.new (take shared before ++ own.now) }
    {
        if self.is_behind() {
            return;
        }
        self.word.follow(shared, own);
        if !self.word.is_below {
            return;
        }
        self.advance(shared, own);
    }

    /// Goes on to the next word that is not below the term. That has the first `shared` bytes of the current
    /// word, and then these of its own.
    fn advance(&mut self, shared: u32, own: &[u8])
        requires { self.old.place < length self.old.texts.items }
        ensures texts { self.new.texts.items ≡ self.old.texts.items }
        ensures moved { AreSorted (texts_of self.old) → shared ≤ length self.old.word.text.now
            → HasPassed (texts_of self.old) (self.old.place + 1)
            (take shared self.old.word.text.now ++ own.now)
            → AreAtTerm self.new (take shared self.old.word.text.now ++ own.now) }
    {
        let last = self.word.text;
        for place in self.place + 1..self.texts.len() {
            self.place = place;
            self.word = Word::at(self.texts[place], last);
            self.word.follow(shared, own);
            if !self.word.is_below {
                return;
            }
        }
        self.place = self.texts.len();
    }
}

impl TermMatcher for Words<'_> {
    ghost use Rattle.std.specs.Prelude.{Contains};
    ghost use Rattle.ix_lookup.specs.Words.{AreAtTerm, texts_of};

    ghost wants = { λ words term. Contains (texts_of words) term };

    ghost is_at = { AreAtTerm };

    fn step(&mut self, shared: u32, own: &[u8]) -> Result<bool, AllocError> {
        self.follow(shared, own);
        if self.is_behind() {
            return Ok(false);
        }
        Ok(self.word.is_whole(shared, own))
    }

    fn term(&self) -> &str {
        self.word.text
    }

    fn is_past(&self) -> bool {
        self.is_behind()
    }
}

//! The postings of a term, of which the current one is read.

ghost use Rattle.std.specs.Prelude.{◌≡◌, ℕ, List, ◌-◌, ◌^◌, option_map, IsTrue, IsSomeAnd, ◌↔◌, ◌≤◌};
ghost use Rattle.ix_file.specs.Postings.{ArePostings};
ghost use Rattle.ix_query.specs.Streams.{first_of};

use crate::answers::numbers::Numbers;
use ix_file::{Positions, Posting, Postings};
use std::marker::Model;

/// The postings of a term that are left. The first of them was read, so that its positions can be walked.
#[derive(Drop)]
pub(crate) struct Reader<'a> {
    current: Option<Posting<'a>>,
    rest: Postings<'a>,
}

impl<'a> Model for Reader<'a> {
    ghost use Rattle.std.specs.Prelude.{◌≡◌, List, [], ℕ, None, ◌-◌, ◌^◌, ◌++◌, option_to_list, option_map};
    ghost use Rattle.ix_file.specs.Postings.{ArePostings};

    ghost Value = { List (ℕ × List ℕ) };

    ghost view = { λ reader. option_to_list
        (option_map (λ posting. (posting.document, posting.positions)) reader.current)
        ++ reader.rest };

    ghost invariant = { λ reader. ArePostings 0 (2 ^ 32 - 1) (option_to_list
        (option_map (λ posting. (posting.document, posting.positions)) reader.current)
        ++ reader.rest)
        × (reader.current ≡ None → reader.rest ≡ []) };
}

impl<'a> Reader<'a> {
    /// Reads these postings.
    #[inline]
    pub(crate) fn new(postings: Postings<'a>) -> Reader<'a>
        ensures { result ≡ postings.entry }
    {
        let mut rest = postings;
        let _count = rest.len();
        let current = rest.next();
        Reader { current, rest }
    }

    /// How many postings are left, the current one included.
    #[inline]
    pub(crate) fn len(&self) -> usize {
        match &self.current {
            Some(_) => self.rest.len().saturating_add(1),
            None => 0,
        }
    }

    /// The first document that is left.
    #[inline]
    fn document(&self) -> Option<u32>
        ensures { result ≡ option_map (λ posting. posting.0) (first_of self.now) }
    {
        match &self.current {
            Some(posting) => Some(posting.document),
            None => None,
        }
    }

    /// Its positions.
    #[inline]
    pub(crate) fn positions(&self) -> Option<Positions<'a>>
        ensures value { result ≡ option_map (λ posting. posting.1) (first_of self.now) }
        ensures lawful { ArePostings 0 (2 ^ 32 - 1) self.now }
    {
        match &self.current {
            Some(posting) => Some(posting.positions()),
            None => None,
        }
    }

    /// Whether the first document that is left is not below `low`.
    #[inline]
    fn is_from(&self, low: u32) -> bool
        ensures { IsTrue result ↔ IsSomeAnd (first_of self.now) (λ posting. low ≤ posting.0) }
    {
        match &self.current {
            Some(posting) => low <= posting.document,
            None => false,
        }
    }
}

impl<'a> Numbers for Reader<'a> {
    ghost use Rattle.ix_text.specs.Parts.{HasPosition};

    ghost has = { HasPosition };

    #[inline]
    fn seek(&mut self, low: u32) -> Option<u32> {
        if !self.is_from(low) {
            self.current = self.rest.seek(low);
        }
        self.document()
    }
}

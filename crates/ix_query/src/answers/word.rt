//! The documents of a term.

ghost use Rattle.std.specs.Prelude.{◌≡◌, ◌++◌, [], None, option_to_list};
ghost use Rattle.ix_file.specs.Postings.{documents_of};
ghost use Rattle.ix_query.specs.Streams.{from_number};

use crate::answers::numbers::Numbers;
use ix_file::Postings;
use std::marker::Model;

/// The documents of a term, from the coded list of its postings. Positions are passed over and not decoded.
#[derive(Drop)]
pub(crate) struct Word<'a> {
    // the first document that is left, if it was read
    current: Option<u32>,
    // the postings behind it
    rest: Postings<'a>,
}

impl<'a> Model for Word<'a> {
    ghost use Rattle.std.specs.Prelude.{List, ℕ, ◌-◌, ◌^◌, ◌++◌, option_to_list};
    ghost use Rattle.ix_file.specs.Gaps.{Ascends};
    ghost use Rattle.ix_file.specs.Postings.{documents_of};

    ghost Value = { List ℕ };

    ghost view = { λ word. option_to_list word.current ++ documents_of word.rest };

    ghost invariant = { λ word.
        Ascends 0 (2 ^ 32 - 1) (option_to_list word.current ++ documents_of word.rest) };
}

impl<'a> Word<'a> {
    /// The documents of these postings.
    #[inline]
    pub(crate) fn new(postings: Postings<'a>) -> Word<'a>
        ensures { result ≡ documents_of postings.entry }
    {
        let _count = postings.len();
        Word {
            current: None,
            rest: postings,
        }
    }

    /// How many documents are left, the current one included.
    #[inline]
    pub(crate) fn len(&self) -> usize {
        match self.current {
            Some(_) => self.rest.len().saturating_add(1),
            None => self.rest.len(),
        }
    }
}

impl<'a> Numbers for Word<'a> {
    ghost use Rattle.std.specs.Prelude.{Contains};

    ghost has = { λ word number place. Contains word number };

    #[inline]
    fn seek(&mut self, low: u32) -> Option<u32> {
        self.current = advance(self.current, &mut self.rest, low);
        self.current
    }
}

/// The first document that is not below `low`, the current one included.
#[inline(always)]
fn advance(current: Option<u32>, rest: &mut Postings<'_>, low: u32) -> Option<u32>
    ensures passed { option_to_list result ++ documents_of rest.new
        ≡ from_number low (option_to_list current ++ documents_of rest.old) }
    ensures ended { result ≡ None → documents_of rest.new ≡ [] }
{
    match current {
        Some(document) if document >= low => current,
        _ => pass(rest, low),
    }
}

/// The document of the first posting whose document is not below `low`. It is passed too.
#[inline(always)]
fn pass(rest: &mut Postings<'_>, low: u32) -> Option<u32>
    ensures passed { option_to_list result ++ documents_of rest.new
        ≡ from_number low (documents_of rest.old) }
    ensures ended { result ≡ None → documents_of rest.new ≡ [] }
{
    match rest.seek(low) {
        Some(posting) => Some(posting.document),
        None => None,
    }
}

//! The documents of a phrase.

ghost use Rattle.std.specs.Prelude.{◌≡◌, ℕ, ◌↔◌, IsTrue, List, Some, true, false, length, slice_get};
ghost use Rattle.ix_text.specs.Parts.{HasPosition, Posting};
ghost use Rattle.ix_query.specs.Meetings.{HasPhraseIn, HaveNoStart, AreStarts};
ghost use Rattle.ix_query.specs.Streams.{IsFirst, Reaches};

use crate::answers::common::common;
use crate::answers::numbers::Numbers;
use crate::answers::reader::Reader;
use crate::answers::start::Start;

/// The documents that have the terms of a phrase, each as far behind one start as its place in the phrase.
#[derive(Drop)]
pub(crate) struct Phrase<'a> {
    pub(crate) first: Reader<'a>,
    pub(crate) offset: u32,
    pub(crate) others: Vec<Reader<'a>>,
    pub(crate) offsets: Vec<u32>,
    // the starts that each of the others allows: room that is used again for each document
    pub(crate) starts: Vec<Start<'a>>,
    ghost each_placed: { length offsets.items ≡ length others.items },
    ghost each_started: { length starts.items ≡ length others.items },
}

impl<'a> Numbers for Phrase<'a> {
    ghost has = { λ phrase number place. HasPhraseIn
        phrase.first phrase.offset phrase.others.items phrase.offsets.items number };

    #[inline]
    fn seek(&mut self, low: u32) -> Option<u32> {
        first_phrase(
            &mut self.first,
            self.offset,
            self.others.as_mut_slice(),
            self.offsets.as_slice(),
            self.starts.as_mut_slice(),
            low,
        )
    }
}

/// The first document not below `low` that has the phrase.
fn first_phrase<'a>(
    first: &mut Reader<'a>,
    offset: u32,
    others: &mut [Reader<'a>],
    offsets: &[u32],
    starts: &mut [Start<'a>],
    low: u32,
) -> Option<u32>
    requires placed { length offsets.now ≡ length others.old }
    requires started { length starts.old ≡ length others.old }
    ensures { Reaches
        (λ number place. HasPhraseIn first.old offset others.old offsets.now number)
        (λ number place. HasPhraseIn first.new offset others.new offsets.now number)
        low result }
{
    let mut least = low;
    loop {
        let Some(document) = common(first, others, least) else {
            return None;
        };
        if stand_together(first, offset, others, offsets, starts) {
            return Some(document);
        }
        least = document + 1;
    }
}

/// Whether the phrase is in the document that is the current one of all terms. `starts` is room; what it holds before is not
/// read.
fn stand_together<'a>(
    first: &Reader<'a>,
    offset: u32,
    others: &[Reader<'a>],
    offsets: &[u32],
    starts: &mut [Start<'a>],
) -> bool
    requires placed { length offsets.now ≡ length others.now }
    requires started { length starts.old ≡ length others.now }
    ensures { (n : ℕ) → IsFirst (HasPosition first.now) n
        → ((k : ℕ) (list : List Posting) → slice_get others.now k ≡ Some list
        → IsFirst (HasPosition list) n)
        → (IsTrue result ↔ HasPhraseIn first.now offset others.now offsets.now n) }
{
    let Some(mut start) = Start::at(first, offset) else {
        return false;
    };
    if !read_starts(others, offsets, starts) {
        return false;
    }
    common(&mut start, starts, 0).is_some()
}

/// Sets the starts that each term allows in its current document. False if a term has no document left.
#[inline]
fn read_starts<'a>(lists: &[Reader<'a>], offsets: &[u32], starts: &mut [Start<'a>]) -> bool
    requires placed { length offsets.now ≡ length lists.now }
    requires started { length starts.old ≡ length lists.now }
    ensures read { result ≡ true → AreStarts lists.now offsets.now starts.new }
    ensures none { result ≡ false → HaveNoStart lists.now }
{
    for place in 0..lists.len() {
        let Some(start) = Start::at(&lists[place], offsets[place]) else {
            return false;
        };
        starts[place] = start;
    }
    true
}

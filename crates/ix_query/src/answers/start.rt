//! The positions at which a phrase may start in a document, by one of its terms.

ghost use Rattle.std.specs.Prelude.{◌≡◌, ◌-◌, ◌++◌, [], None, option_map, option_to_list};
ghost use Rattle.ix_query.specs.Meetings.{IsStart};
ghost use Rattle.ix_query.specs.Streams.{from_number};

use crate::answers::numbers::Numbers;
use crate::answers::reader::Reader;
use ix_file::Positions;
use std::marker::Model;

/// The positions at which a phrase may start: those of one of its terms, less the term's place in it.
#[derive(Drop)]
pub(crate) struct Start<'a> {
    // the first position that is left, if it was read
    current: Option<u32>,
    // the positions behind it
    rest: Positions<'a>,
    // the term's place in the phrase
    offset: u32,
}

impl<'a> Model for Start<'a> {
    ghost use Rattle.std.specs.Prelude.{List, ℕ, ◌-◌, ◌^◌, ◌++◌, option_to_list};
    ghost use Rattle.ix_file.specs.Gaps.{Ascends};

    ghost Value = { ℕ × List ℕ };

    ghost view = { λ start. (start.offset, option_to_list start.current ++ start.rest) };

    ghost invariant = { λ start.
        Ascends 0 (2 ^ 32 - 1) (option_to_list start.current ++ start.rest) };
}

impl<'a> Start<'a> {
    /// By the positions of the term at this place of the phrase.
    #[inline]
    pub(crate) fn new(positions: Positions<'a>, offset: u32) -> Start<'a>
        ensures { result ≡ (offset, positions.entry) }
    {
        let _count = positions.len();
        Start {
            current: None,
            rest: positions,
            offset,
        }
    }
}

impl<'a> Start<'a> {
    /// By the first document that is left of a term's postings, if there is one.
    #[inline]
    pub(crate) fn at(reader: &Reader<'a>, offset: u32) -> Option<Start<'a>>
        ensures { IsStart reader.now offset result }
    {
        match reader.positions() {
            Some(positions) => Some(Start::new(positions, offset)),
            None => None,
        }
    }
}

impl<'a> Numbers for Start<'a> {
    ghost use Rattle.std.specs.Prelude.{Contains, ◌+◌};

    ghost has = { λ start number place. Contains start.1 (number + start.0) };

    #[inline]
    fn seek(&mut self, low: u32) -> Option<u32> {
        let position = low.saturating_add(self.offset);
        self.current = advance(self.current, &mut self.rest, position);
        start_of(self.current, self.offset)
    }
}

/// The start of the phrase whose term at the offset is at the position.
#[inline]
fn start_of(position: Option<u32>, offset: u32) -> Option<u32>
    ensures { result ≡ option_map (λ p. p - offset) position }
{
    match position {
        Some(position) => Some(position.saturating_sub(offset)),
        None => None,
    }
}

/// The first position that is not below `low`, the current one included.
#[inline]
fn advance(current: Option<u32>, rest: &mut Positions<'_>, low: u32) -> Option<u32>
    ensures passed { option_to_list result ++ rest.new
        ≡ from_number low (option_to_list current ++ rest.old) }
    ensures ended { result ≡ None → rest.new ≡ [] }
{
    match current {
        Some(position) if position >= low => current,
        _ => pass(rest, low),
    }
}

/// The first position that is not below `low`. It is passed too.
#[inline]
fn pass(rest: &mut Positions<'_>, low: u32) -> Option<u32>
    ensures passed { option_to_list result ++ rest.new ≡ from_number low rest.old }
    ensures ended { result ≡ None → rest.new ≡ [] }
{
    while let Some(position) = rest.next() {
        if position >= low {
            return Some(position);
        }
    }
    None
}

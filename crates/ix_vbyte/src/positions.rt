//! The positions of one posting, read from the codes of their gaps.
ghost use Rattle.std.specs.Prelude.{◌≡◌, ◌^◌, ◌-◌, length};
ghost use Rattle.std.specs.Iterator.{YieldsFirst, item_count};
ghost use Rattle.ix_vbyte.specs.Gaps.{Ascends};
ghost use Rattle.ix_vbyte.specs.Walking.{ArePositionsFrom, positions_told};

use crate::decoding::first_number;
use std::marker::Model;

/// The positions of a posting that are left, ascending. They are read from the bytes of the coded list, and take no memory.
#[derive(Drop)]
pub struct Positions<'a> {
    // the codes of the gaps that are left
    bytes: &'a [u8],
    // one above the position before, or 0
    next: u32,
    // how many positions are left
    count: u32,
}

impl<'a> Model for Positions<'a> {
    ghost use Rattle.std.specs.Prelude.{List, ℕ};
    ghost use Rattle.ix_vbyte.specs.Walking.{ArePositionsFrom, positions_told};

    ghost Value = { List ℕ };

    ghost view = { λ positions. positions_told positions.next positions.bytes.now };

    ghost invariant = { λ positions.
        ArePositionsFrom positions.next positions.count positions.bytes.now };
}

impl<'a> Positions<'a> {
    /// The positions of a posting: `bytes` are the codes of their gaps and nothing else, and there are `count` of them.
    #[inline]
    pub fn new(bytes: &'a [u8], count: u32) -> Positions<'a>
        requires { ArePositionsFrom 0 count bytes.now }
        ensures { result ≡ positions_told 0 bytes.now }
    {
        Positions {
            bytes,
            next: 0,
            count,
        }
    }

    /// How many positions are left.
    #[inline]
    pub fn len(&self) -> usize
        ensures value { result ≡ length self.now }
        ensures ascending { Ascends 0 (2 ^ 32 - 1) self.now }
    {
        self.count as usize
    }

    /// The positions that are left once more, walked apart from these.
    #[inline]
    pub fn again(&self) -> Positions<'a>
        ensures { result ≡ self.now }
    {
        Positions {
            bytes: self.bytes,
            next: self.next,
            count: self.count,
        }
    }
}

impl<'a> Iterator for Positions<'a> {
    type Item = u32;

    ghost next_gives = { YieldsFirst (λ positions. positions) };

    ghost remaining = { item_count (λ positions. positions) };

    #[inline(always)]
    fn next(&mut self) -> Option<u32> {
        if self.bytes.is_empty() {
            return None;
        }
        let (gap, rest) = first_number(self.bytes);
        let position = self.next + (gap - 1);
        self.bytes = rest;
        self.next = position + 1;
        self.count -= 1;
        Some(position)
    }
}

//! The numbers of the terms that have a gram.
ghost use Rattle.std.specs.Prelude.{◌≡◌, ◌-◌, length};
ghost use Rattle.std.specs.Iterator.{YieldsFirst, item_count};
ghost use Rattle.ix_vbyte.specs.Walking.{ArePositionsFrom, positions_told};

use ix_vbyte::cursor::Positions;
use std::marker::Model;

/// The numbers of the terms that have a gram, ascending. They are read from the bytes of the index text, and take no
/// memory.
#[derive(Drop)]
pub struct Numbers<'a> {
    gaps: Positions<'a>,
}

impl<'a> Model for Numbers<'a> {
    ghost use Rattle.std.specs.Prelude.{List, ℕ};

    ghost Value = { List ℕ };

    ghost view = { λ numbers. numbers.gaps };
}

impl<'a> Numbers<'a> {
    /// The numbers whose gaps stand in the bytes, so many.
    #[inline]
    pub(crate) fn new(bytes: &'a [u8], count: u32) -> Numbers<'a>
        requires { ArePositionsFrom 0 count bytes.now }
        ensures { result ≡ positions_told 0 bytes.now }
    {
        Numbers {
            gaps: Positions::new(bytes, count),
        }
    }

    /// How many numbers are left.
    #[inline]
    pub fn len(&self) -> usize
        ensures { result ≡ length self.now }
    {
        self.gaps.len()
    }
}

impl<'a> Iterator for Numbers<'a> {
    type Item = u32;

    ghost next_gives = { YieldsFirst (λ numbers. numbers) };

    ghost remaining = { item_count (λ numbers. numbers) };

    #[inline]
    fn next(&mut self) -> Option<u32> {
        self.gaps.next()
    }
}

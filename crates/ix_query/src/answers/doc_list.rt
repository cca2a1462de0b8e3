//! Numbers in memory, and numbers that follow one another.

ghost use Rattle.std.specs.Prelude.{◌≡◌, ◌≤◌, ◌-◌, ◌^◌, drop, length, slice_get};
ghost use Rattle.ix_query.specs.Streams.{from_number};
ghost use Rattle.ix_file.specs.Gaps.{Ascends};

use crate::answers::numbers::Numbers;
use std::marker::Model;

/// Numbers in memory, which were found before.
#[derive(Drop)]
pub(crate) struct DocList {
    numbers: Vec<u32>,
    // the place of the first that is left
    next: usize,
}

impl Model for DocList {
    ghost use Rattle.std.specs.Prelude.{List, ℕ, ◌≤◌, ◌-◌, ◌^◌, drop, length};
    ghost use Rattle.ix_file.specs.Gaps.{Ascends};

    ghost Value = { List ℕ };

    ghost view = { λ list. drop list.next list.numbers.items };

    ghost invariant = { λ list. (list.next ≤ length list.numbers.items)
        × Ascends 0 (2 ^ 32 - 1) (drop list.next list.numbers.items) };
}

impl DocList {
    /// These numbers, which ascend.
    pub(crate) fn new(numbers: Vec<u32>) -> DocList
        requires { Ascends 0 (2 ^ 32 - 1) numbers.items }
        ensures { result ≡ numbers.items }
    {
        DocList { numbers, next: 0 }
    }

    /// How many numbers are left.
    pub(crate) fn len(&self) -> usize {
        self.numbers.len().saturating_sub(self.next)
    }
}

impl Numbers for DocList {
    ghost use Rattle.std.specs.Prelude.{Contains};

    ghost has = { λ list number place. Contains list number };

    #[inline]
    fn seek(&mut self, low: u32) -> Option<u32> {
        self.next = place_from(self.numbers.as_slice(), self.next, low);
        number_at(self.numbers.as_slice(), self.next)
    }
}

/// The number at a place, if there is one.
#[inline]
fn number_at(numbers: &[u32], place: usize) -> Option<u32>
    ensures { result ≡ slice_get numbers.now place }
{
    numbers.get(place).copied()
}

/// The first place from `start` on whose number is not below `low`, or the end.
#[inline]
fn place_from(numbers: &[u32], start: usize, low: u32) -> usize
    requires { start ≤ length numbers.now }
    ensures within { result ≤ length numbers.now }
    ensures passed { drop result numbers.now ≡ from_number low (drop start numbers.now) }
{
    let mut place = start;
    while place < numbers.len() && numbers[place] < low {
        place += 1;
    }
    place
}

/// The numbers from one on and below another.
#[derive(Drop)]
pub(crate) struct DocRange {
    pub(crate) next: u32,
    pub(crate) end: u32,
}

impl DocRange {
    /// How many numbers are left.
    pub(crate) fn len(&self) -> usize {
        self.end.saturating_sub(self.next) as usize
    }
}

impl Numbers for DocRange {
    ghost use Rattle.std.specs.Prelude.{◌≤◌, ◌<◌};

    ghost has = { λ range number place. (range.next ≤ number) × (number < range.end) };

    #[inline]
    fn seek(&mut self, low: u32) -> Option<u32> {
        self.next = self.next.max(low);
        if self.next < self.end {
            Some(self.next)
        } else {
            None
        }
    }
}

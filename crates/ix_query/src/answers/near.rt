//! Two terms near each other.

ghost use Rattle.std.specs.Prelude.{◌≡◌, ℕ, ◌-◌, ◌≤◌, ◌↔◌, [], ◌∷◌, IsTrue, IsSomeAnd, MatchOption};
ghost use Rattle.ix_text.specs.Parts.{HasPosition};
ghost use Rattle.ix_query.specs.Meetings.{AreClose, HasNear, IsCloseTo};
ghost use Rattle.ix_query.specs.Streams.{IsFirst, Reaches, first_of};

use crate::answers::common::common_of_two;
use crate::answers::numbers::Numbers;
use crate::answers::reader::Reader;
use ix_file::Positions;

/// The documents that have two terms at positions that differ by 1 to `distance`, either way round.
#[derive(Drop)]
pub(crate) struct Near<'a> {
    pub(crate) first: Reader<'a>,
    pub(crate) second: Reader<'a>,
    pub(crate) distance: u32,
}

impl<'a> Numbers for Near<'a> {
    ghost use Rattle.ix_query.specs.Meetings.{HasNear};

    ghost has = { λ near number place. HasNear near.first near.second near.distance number };

    #[inline]
    fn seek(&mut self, low: u32) -> Option<u32> {
        first_near(&mut self.first, &mut self.second, self.distance, low)
    }
}

/// The first document not below `low` in which the two terms are near.
fn first_near<'a>(
    first: &mut Reader<'a>,
    second: &mut Reader<'a>,
    distance: u32,
    low: u32,
) -> Option<u32>
    ensures { Reaches
        (λ number place. HasNear first.old second.old distance number)
        (λ number place. HasNear first.new second.new distance number)
        low result }
{
    let mut least = low;
    loop {
        let Some(document) = common_of_two(first, second, least) else {
            return None;
        };
        if stand_near(first, second, distance) {
            return Some(document);
        }
        least = document + 1;
    }
}

/// Whether the terms are near in the document that is the current one of both.
#[inline]
fn stand_near(first: &Reader<'_>, second: &Reader<'_>, distance: u32) -> bool
    ensures { (n : ℕ) → IsFirst (HasPosition first.now) n → IsFirst (HasPosition second.now) n
        → (IsTrue result ↔ HasNear first.now second.now distance n) }
{
    let Some(one) = first.positions() else {
        return false;
    };
    let Some(other) = second.positions() else {
        return false;
    };
    are_close(one, other, distance)
}

/// Whether two positions, one of each list, differ by 1 to `distance`. Each list is walked once.
fn are_close(first: Positions<'_>, second: Positions<'_>, distance: u32) -> bool
    ensures { IsTrue result ↔ AreClose first.entry second.entry distance }
{
    let _counts = (first.len(), second.len());
    let mut first = first;
    let mut second = second;
    let Some(mut one) = take_first(&mut first) else {
        return false;
    };
    let Some(mut other) = take_first(&mut second) else {
        return false;
    };
    loop {
        if has_close(one, other, &second, distance) {
            return true;
        }
        // the lower of the two is close to none that is left
        if one <= other {
            let Some(next) = take_first(&mut first) else {
                return false;
            };
            one = next;
        } else {
            let Some(next) = take_first(&mut second) else {
                return false;
            };
            other = next;
        }
    }
}

/// The first position that is left, which is taken.
#[inline]
fn take_first(positions: &mut Positions<'_>) -> Option<u32>
    ensures { MatchOption result (positions.old ≡ [])
        (λ position. positions.old ≡ position ∷ positions.new) }
{
    positions.next()
}

/// Whether a position differs from another by 1 to `distance`, or, if the two are one, from the next behind that.
#[inline]
fn has_close(one: u32, other: u32, behind: &Positions<'_>, distance: u32) -> bool
    ensures { IsTrue result ↔ IsCloseTo one other behind.now distance }
{
    if one == other {
        follows(behind, one, distance)
    } else {
        one.abs_diff(other) <= distance
    }
}

/// Whether the next position is at most `distance` behind this one.
#[inline]
fn follows(positions: &Positions<'_>, position: u32, distance: u32) -> bool
    ensures { IsTrue result
        ↔ IsSomeAnd (first_of positions.now) (λ next. next - position ≤ distance) }
{
    match positions.again().next() {
        Some(next) => next.saturating_sub(position) <= distance,
        None => false,
    }
}

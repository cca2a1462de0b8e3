//! Numbers that several streams have.

ghost use Rattle.std.specs.Prelude.{◌∷◌, [], ◌↔◌, IfSome, IfNone, IsTrue};
ghost use Rattle.ix_query.specs.Streams.{AreSameFrom, HasOne, HaveBoth, IsCommon, IsPass, IsPassEnded, Reaches};

use crate::answers::numbers::Numbers;

/// The first number not below `low` that the first stream and all others have. Each stream seeks the number of another, so
/// that none is read further than the furthest.
#[inline]
pub(crate) fn common<N: Numbers>(first: &mut N, others: &mut [N], low: u32) -> Option<u32>
    ensures reached { Reaches
        (λ n place. HaveBoth N.has first.old others.old n)
        (λ n place. HaveBoth N.has first.new others.new n)
        low result }
    ensures met { IfSome result (IsCommon N.has first.old first.new others.old others.new) }
{
    let mut least = low;
    loop {
        let Some(number) = first.seek(least) else {
            return None;
        };
        let Some(high) = pass(others, number) else {
            return None;
        };
        if high == number {
            return Some(number);
        }
        least = high;
    }
}

/// The same of two streams.
#[inline]
pub(crate) fn common_of_two<N: Numbers>(first: &mut N, second: &mut N, low: u32) -> Option<u32>
    ensures reached { Reaches
        (λ n place. HaveBoth N.has first.old (second.old ∷ []) n)
        (λ n place. HaveBoth N.has first.new (second.new ∷ []) n)
        low result }
    ensures met { IfSome result
        (IsCommon N.has first.old first.new (second.old ∷ []) (second.new ∷ [])) }
{
    let mut least = low;
    loop {
        let Some(number) = first.seek(least) else {
            return None;
        };
        let Some(high) = second.seek(number) else {
            return None;
        };
        if high == number {
            return Some(number);
        }
        least = high;
    }
}

/// The first number above this one that a stream has instead of it, in order, or the number itself if each has it.
#[inline]
fn pass<N: Numbers>(lists: &mut [N], number: u32) -> Option<u32>
    ensures passed { IfSome result (IsPass N.has lists.old lists.new number) }
    ensures ended { IfNone result (IsPassEnded N.has lists.old lists.new number) }
{
    for list in lists.iter_mut() {
        let Some(found) = list.seek(number) else {
            return None;
        };
        if found > number {
            return Some(found);
        }
    }
    Some(number)
}

/// Whether one of the streams has the number. What they have from the number on stays.
#[inline]
pub(crate) fn is_in_one<N: Numbers>(lists: &mut [N], number: u32) -> bool
    ensures found { IsTrue result ↔ HasOne N.has lists.old number }
    ensures kept { AreSameFrom N.has lists.old lists.new number }
{
    for list in lists.iter_mut() {
        if let Some(found) = list.seek(number)
            && found == number
        {
            return true;
        }
    }
    false
}

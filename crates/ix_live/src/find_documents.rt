//! What a query finds in segments, one after another.
ghost use Rattle.std.specs.Prelude.{◌≡◌, ◌^◌, ◌<◌, ◌≤◌, ◌+◌, ◌++◌, length, All, Contains, IfOk, OnOk, MatchBool};
ghost use Rattle.std.specs.List.Sorted.{IsStrictlyIncreasing};
ghost use Rattle.ix_scan.specs.ScansWithout.{kept_from};
ghost use Rattle.ix_live.specs.Findings.{AreFound, FindsIn, is_kept};
ghost use Rattle.ix_live.specs.Segments.{rows_at, rows_in};

use crate::segment::Slot;
use ix_query::{Query, answer};
use ix_text::Memory;
use std::alloc::Global;

/// The numbers of the documents of all segments that satisfy a query, those that are removed left
/// out, ascending.
pub fn find_documents(
    alloc: Global,
    segments: &[Slot],
    removed: &[u32],
    query: &Query,
) -> Result<Vec<u32>, Memory>
    requires few { length (rows_in segments.now) ≤ 2 ^ 28 }
    requires ascending { IsStrictlyIncreasing removed.now }
    ensures { IfOk result (λ numbers.
        AreFound segments.now removed.now query.now numbers.items) }
{
    let mut found = Vec::new(alloc);
    let mut first = 0;
    for slot in segments {
        first += find_at(alloc, slot, first, removed, query, &mut found)?;
    }
    Ok(found)
}

/// Puts what a query finds in one segment behind what was found before. Its documents count from
/// `first` on, and their count is the answer.
fn find_at(
    alloc: Global,
    slot: &Slot,
    first: u32,
    removed: &[u32],
    query: &Query,
    found: &mut Vec<u32>,
) -> Result<u32, Memory>
    requires few { first + length (rows_at slot.now) ≤ 2 ^ 28 }
    requires ascending { IsStrictlyIncreasing removed.now }
    ensures count { IfOk result (λ count. count ≡ length (rows_at slot.now)) }
    ensures found { OnOk result (FindsIn slot.now first removed.now query.now
        found.old.items found.new.items) }
{
    match slot.segment() {
        None => Ok(0),
        Some(segment) => {
            let index = segment.volume.index();
            let numbers = answer(alloc, &index, query)?;
            push_kept(found, first, &numbers, removed)?;
            Ok(index.doc_count())
        }
    }
}

/// Adds numbers, counted from `first` on, but for those that are removed.
fn push_kept(
    found: &mut Vec<u32>,
    first: u32,
    numbers: &[u32],
    removed: &[u32],
) -> Result<(), Memory>
    requires few { All (λ number. first + number < 2 ^ 28) numbers.now }
    requires ascending { IsStrictlyIncreasing removed.now }
    ensures { OnOk result
        (found.new.items ≡ found.old.items ++ kept_from (is_kept removed.now) first numbers.now) }
{
    for number in numbers {
        let shifted = first + *number;
        if !is_among(removed, shifted) {
            found.push(shifted)?;
        }
    }
    Ok(())
}

/// Whether an ascending list has a number.
pub fn is_among(numbers: &[u32], number: u32) -> bool
    requires { IsStrictlyIncreasing numbers.now }
    ensures { MatchBool result (Contains numbers.now number) (¬ (Contains numbers.now number)) }
{
    match numbers.binary_search(&number) {
        Ok(_) => true,
        Err(_) => false,
    }
}

//! The positions of one posting.
ghost use Rattle.std.specs.Prelude.{◌≡◌, ◌<◌, ◌≤◌, ◌+◌, ◌-◌, ◌^◌, ◌++◌, ◌↔◌, [], ◌∷◌, List, ℕ, IfOk, IfErr, MatchResult, drop};
ghost use Rattle.ix_vbyte.specs.Code.{code_of};
ghost use Rattle.ix_vbyte.specs.Gaps.{gaps_of};
ghost use Rattle.ix_vbyte.specs.Postings.{codes_of};
ghost use Rattle.ix_postings.specs.CheckedLists.{BeginsWithPosition, MayFail, SeesPositions, StandNext};
ghost use Rattle.ix_postings.specs.SeenTokens.{SeesMore};

use crate::numbers::some_number;
use crate::{ListFault, SeenTokens};

/// Checks `count` positions that the bytes begin with, of a document with this span, and sees their tokens. Returns how many
/// bytes they have.
///
/// # Errors
/// Those of `check_posting`. After an error any tokens may be seen.
#[inline]
pub(crate) fn check_positions<S: SeenTokens>(
    bytes: &[u8],
    count: u32,
    span: (u32, u32),
    seen: &mut S,
) -> Result<usize, ListFault>
    requires fits { span.0 + span.1 ≤ 2 ^ 28 }
    requires room { (top : ℕ) × S.has_room seen.old top × (span.0 + span.1 ≤ top) }
    ensures read { IfOk result (λ size. SeesPositions S.admits (S.has_seen seen.old)
        (S.has_seen seen.new) span.0 span.1 count bytes.now size) }
    ensures room { (top : ℕ) → S.has_room seen.old top ↔ S.has_room seen.new top }
    ensures accepted { (missing numbers all rest : List ℕ)
        → StandNext S.admits (S.has_seen seen.old) span.0 span.1 count
        (bytes.now ++ missing) numbers all rest
        → IfErr result (MayFail bytes.now (codes_of (gaps_of all))) }
{
    let mut rest = bytes;
    let mut next = 0;
    for _ in 0..count {
        let (position, size) = check_position(rest, next, span, seen)?;
        rest = &rest[size..];
        next = position + 1;
    }
    Ok(bytes.len() - rest.len())
}

/// Returns the position, not below `next`, that the bytes begin with, of a document with this span, and how many bytes its code
/// has. Its token is seen.
#[inline(always)]
fn check_position<S: SeenTokens>(
    bytes: &[u8],
    next: u32,
    span: (u32, u32),
    seen: &mut S,
) -> Result<(u32, usize), ListFault>
    requires below { next ≤ span.1 }
    requires fits { span.0 + span.1 ≤ 2 ^ 28 }
    requires room { (top : ℕ) × S.has_room seen.old top × (span.0 + span.1 ≤ top) }
    ensures begins { IfOk result (λ found.
        BeginsWithPosition next span.1 bytes.now found.0 found.1) }
    ensures room { (top : ℕ) → S.has_room seen.old top ↔ S.has_room seen.new top }
    ensures seen { IfOk result (λ found. SeesMore S.admits (S.has_seen seen.old)
        (S.has_seen seen.new) ((span.0 + found.0) ∷ [])) }
    ensures accepted { (numbers : List ℕ) (position : ℕ) (missing rest : List ℕ)
        → S.has_seen seen.old numbers → next ≤ position → position < span.1
        → S.admits (numbers ++ (span.0 + position) ∷ [])
        → bytes.now ++ missing ≡ code_of (position + 1 - next) ++ rest
        → MatchResult result (λ found. (found.0 ≡ position)
        × (drop found.1 bytes.now ++ missing ≡ rest))
        (MayFail bytes.now (code_of (position + 1 - next))) }
{
    let (gap, size) = some_number(bytes)?;
    let (first, count) = span;
    if gap > count - next {
        return Err(ListFault::PositionRange);
    }
    let position = next + (gap - 1);
    seen.see(first + position)?;
    Ok((position, size))
}

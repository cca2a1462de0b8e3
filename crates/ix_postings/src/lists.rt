//! Checking a coded list of postings in one pass, which sees its tokens. A fault is found at its byte.
ghost use Rattle.std.specs.Prelude.{◌≡◌, ◌<◌, ◌≤◌, ◌+◌, ◌-◌, ◌^◌, ◌++◌, ◌↔◌, [], ◌∷◌, List, ℕ, IfOk, IfErr, MatchOption, length, take};
ghost use Rattle.ix_text.specs.Parts.{DocumentRow, Posting};
ghost use Rattle.ix_text.specs.TokenNumbers.{numbers_of_posting};
ghost use Rattle.ix_postings.specs.CheckedLists.{IsCutShort, ListStands, MayFail, SeesList, SeesPosting};
ghost use Rattle.ix_postings.specs.NextPostings.{HaveRoom, PostingFits};
ghost use Rattle.ix_postings.specs.SeenTokens.{SeesMore};
ghost use Rattle.ix_postings.specs.TokenTables.{HasTokens, IsSpan};
ghost use Rattle.ix_postings.specs.declared.list_fault.ListFault.TheVariants.{Memory};
ghost use Rattle.ix_vbyte.specs.Postings.{list_bytes, posting_bytes};

use crate::numbers::some_number;
use crate::positions::check_positions;
use crate::{ListFault, SeenTokens, TokenTable};
use ix_vbyte::short_posting;

/// Checks the list of `documents` postings that the bytes begin with, in `size` of them, and sees its tokens. Returns one above
/// its last document. After an error any tokens may be seen.
///
/// # Errors
/// In the order of the bytes: those of [`check_posting`]; `ListLength` if the list has more bytes than its postings.
pub fn check_list<S: SeenTokens>(
    bytes: &[u8],
    size: usize,
    documents: u32,
    tokens: &TokenTable,
    seen: &mut S,
) -> Result<u32, ListFault>
    requires ready { HaveRoom tokens.now (S.has_room seen.old) }
    requires within { size ≤ length bytes.now }
    ensures read { IfOk result (λ next. (rows : List DocumentRow) → HasTokens tokens.now rows
        → SeesList S.admits (S.has_seen seen.old) (S.has_seen seen.new) rows bytes.now size
        documents next) }
    ensures room { (top : ℕ) → S.has_room seen.old top ↔ S.has_room seen.new top }
    ensures accepted { (rows : List DocumentRow) → HasTokens tokens.now rows
        → (list : ListStands S.admits (S.has_seen seen.old) rows bytes.now size documents)
        → IfErr result (MayFail (take size bytes.now) (list_bytes list.postings)) }
{
    let mut rest = bytes;
    let mut left = size;
    let mut next = 0;
    for _ in 0..documents {
        let (document, taken) = check_posting(rest, left, next, tokens, seen)?;
        rest = &rest[taken..];
        left -= taken;
        next = document + 1;
    }
    if left > 0 {
        return Err(ListFault::ListLength);
    }
    Ok(next)
}

/// Checks the posting that the bytes begin with, in at most `limit` of them, and sees its tokens. Returns its document and how
/// many bytes it has. `next` is one above the document before. The bytes behind the list let its last posting be decoded as fast
/// as its first.
///
/// # Errors
/// In the order of the bytes: `Number` if a code is faulty; `Zero` if a gap or the number of positions is 0; `DocRange` if
/// there is no such document; `PositionRange` if the document has no such position; `Doubled` if the token there was seen, and
/// that is an error at once; `Memory` if it cannot be noted; `Number(Cut)` if the bytes end inside the posting. After an error
/// any tokens may be seen.
#[inline(always)]
pub fn check_posting<S: SeenTokens>(
    bytes: &[u8],
    limit: usize,
    next: u32,
    tokens: &TokenTable,
    seen: &mut S,
) -> Result<(u32, usize), ListFault>
    requires below { next ≤ 2 ^ 28 }
    requires ready { HaveRoom tokens.now (S.has_room seen.old) }
    requires within { limit ≤ length bytes.now }
    ensures size { IfOk result (λ found. found.1 ≤ limit) }
    ensures read { IfOk result (λ found. SeesPosting S.admits (S.has_seen seen.old)
        (S.has_seen seen.new) tokens.now next bytes.now found.0 found.1) }
    ensures room { (top : ℕ) → S.has_room seen.old top ↔ S.has_room seen.new top }
    ensures accepted { (rows : List DocumentRow) (numbers : List ℕ) (posting : Posting)
        (missing rest : List ℕ) → HasTokens tokens.now rows → S.has_seen seen.old numbers
        → PostingFits rows next posting → S.admits (numbers ++ numbers_of_posting rows posting)
        → take limit bytes.now ++ missing ≡ posting_bytes (posting.0 + 1 - next) posting ++ rest
        → IfErr result (MayFail (take limit bytes.now)
        (posting_bytes (posting.0 + 1 - next) posting)) }
{
    match short_posting(bytes) {
        Some(posting) if posting.size <= limit => {
            let document = check_single(posting.gap, posting.position_gap, next, tokens, seen)?;
            Ok((document, posting.size))
        }
        _ => check_any_posting(&bytes[..limit], next, tokens, seen),
    }
}

/// The same of a posting of any shape, where the bytes end with the list.
#[inline(never)]
fn check_any_posting<S: SeenTokens>(
    bytes: &[u8],
    next: u32,
    tokens: &TokenTable,
    seen: &mut S,
) -> Result<(u32, usize), ListFault>
    requires below { next ≤ 2 ^ 28 }
    requires ready { HaveRoom tokens.now (S.has_room seen.old) }
    ensures size { IfOk result (λ found. found.1 ≤ length bytes.now) }
    ensures read { IfOk result (λ found. SeesPosting S.admits (S.has_seen seen.old)
        (S.has_seen seen.new) tokens.now next bytes.now found.0 found.1) }
    ensures room { (top : ℕ) → S.has_room seen.old top ↔ S.has_room seen.new top }
    ensures accepted { (rows : List DocumentRow) (numbers : List ℕ) (posting : Posting)
        (missing rest : List ℕ) → HasTokens tokens.now rows → S.has_seen seen.old numbers
        → PostingFits rows next posting → S.admits (numbers ++ numbers_of_posting rows posting)
        → bytes.now ++ missing ≡ posting_bytes (posting.0 + 1 - next) posting ++ rest
        → IfErr result (MayFail bytes.now (posting_bytes (posting.0 + 1 - next) posting)) }
{
    let (gap, gap_bytes) = some_number(bytes)?;
    let Some((document, span)) = document_behind(tokens, next, gap) else {
        return Err(ListFault::DocRange);
    };
    let behind = &bytes[gap_bytes..];
    let (count, count_bytes) = some_number(behind)?;
    let list_bytes = check_positions(&behind[count_bytes..], count, span, seen)?;
    Ok((document, gap_bytes + count_bytes + list_bytes))
}

/// Returns the document of a posting of one position, by its gaps, the first counted from `next`. Its token is seen.
///
/// # Errors
/// `DocRange`, `PositionRange`, `Doubled` and `Memory`, as `check_posting`.
#[inline(always)]
fn check_single<S: SeenTokens>(
    gap: u32,
    position_gap: u32,
    next: u32,
    tokens: &TokenTable,
    seen: &mut S,
) -> Result<u32, ListFault>
    requires some { (0 < gap) × (0 < position_gap) }
    requires below { next ≤ 2 ^ 28 }
    requires ready { HaveRoom tokens.now (S.has_room seen.old) }
    ensures numbered { IfOk result (λ document. document + 1 ≡ next + gap) }
    ensures fits { IfOk result (λ document. (rows : List DocumentRow) → HasTokens tokens.now rows
        → PostingFits rows next (document, (position_gap - 1) ∷ [])) }
    ensures room { (top : ℕ) → S.has_room seen.old top ↔ S.has_room seen.new top }
    ensures seen { IfOk result (λ document. (rows : List DocumentRow) → HasTokens tokens.now rows
        → SeesMore S.admits (S.has_seen seen.old) (S.has_seen seen.new)
        (numbers_of_posting rows (document, (position_gap - 1) ∷ []))) }
    ensures accepted { (rows : List DocumentRow) (numbers : List ℕ) (posting : Posting)
        → HasTokens tokens.now rows → S.has_seen seen.old numbers → PostingFits rows next posting
        → S.admits (numbers ++ numbers_of_posting rows posting) → posting.0 + 1 - next ≡ gap
        → posting.1 ≡ (position_gap - 1) ∷ [] → IfErr result (λ fault. fault ≡ Memory) }
{
    let Some((document, span)) = document_behind(tokens, next, gap) else {
        return Err(ListFault::DocRange);
    };
    let (first, count) = span;
    if position_gap > count {
        return Err(ListFault::PositionRange);
    }
    seen.see(first + (position_gap - 1))?;
    Ok(document)
}

/// Returns the document behind a gap, and the number of its first token with how many tokens it has; or `None` if there is no such
/// document.
#[inline]
fn document_behind(tokens: &TokenTable, next: u32, gap: u32) -> Option<(u32, (u32, u32))>
    requires { 0 < gap }
    ensures { (rows : List DocumentRow) → HasTokens tokens.now rows
        → MatchOption result (length rows < 2 ^ 32 → length rows ≤ next + (gap - 1)) (λ found.
        (found.0 ≡ next + (gap - 1)) × IsSpan rows found.0 found.1) }
{
    let document = next.checked_add(gap - 1)?;
    let span = tokens.span(document)?;
    Some((document, span))
}

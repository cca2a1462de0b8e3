//! One list of an index text.
ghost use Rattle.std.specs.Prelude.{◌≡◌, ◌⊎◌, ℕ, ◌*◌, ◌<◌, ◌≤◌, [], ◌∷◌, ◌++◌, List, length, IfOk, IfErr, OnOk};
ghost use Rattle.ix_vbyte.specs.Skips.{AreSkipsIn};
ghost use Rattle.ix_text.specs.Parts.{DocumentRow, Posting};
ghost use Rattle.ix_text.specs.TokenNumbers.{numbers_of_postings};
ghost use Rattle.ix_postings.specs.NextPostings.{HaveRoom};
ghost use Rattle.ix_postings.specs.TokenTables.{HasTokens};
ghost use Rattle.ix_file.specs.Claimed.{HasClaimed, HasRoom, HaveClaimed};
ghost use Rattle.ix_file.specs.LongLists.{HasRoomFor};
ghost use Rattle.ix_file.specs.ReadLists.{AreListedIn};
ghost use Rattle.ix_file.specs.declared.open_error.OpenError.TheVariants.{Memory};

use crate::OpenError;
use crate::open::claims::Claims;
use ix_postings::{TokenTable, check_posting};
use ix_vbyte::cursor::Skip;
use std::alloc::{AllocError, Global};

/// How many bytes stand between two places at which a list may be entered, at least.
const SPAN: usize = 128;

/// How many bytes a list has, at least, of which such places are kept.
const LONG: usize = 1024;

/// Checks the bytes of one list, which has this many documents, and claims its tokens. Returns where it may be entered:
/// nowhere, if it is not long.
///
/// For each document `Number` of its gap, `Zero` if it is 0, `DocRange` if there is no such document, `Number`
/// of the number of its positions, `Zero` if it is 0; for each position `Number` of its gap, `Zero` if it is 0,
/// `PositionRange` if the document has no such token; `ListLength` if the list ends before its last position,
/// also within a number, or goes on behind it; or `Memory`.
pub(crate) fn check_list(
    alloc: Global,
    bytes: &[u8],
    documents: u32,
    tokens: &TokenTable,
    claims: &mut Claims,
) -> Result<Vec<Skip>, OpenError>
    requires some { 0 < documents }
    requires ready { HaveRoom tokens.now (HasRoom claims.old) }
    requires claimed { (numbers : List ℕ) × HasClaimed claims.old numbers }
    ensures found { IfOk result (λ _. (rows : List DocumentRow) → HasTokens tokens.now rows →
        (postings : List Posting) × AreListedIn rows documents bytes.now postings
        × HaveClaimed claims.old claims.new (numbers_of_postings rows postings)) }
    ensures entered { IfOk result (λ skips. AreSkipsIn documents bytes.now skips.items) }
    ensures few { IfOk result (λ skips. 128 * length skips.items ≤ length bytes.now) }
    ensures room { (top : ℕ) → HasRoom claims.old top → HasRoom claims.new top }
    ensures refused { IfErr result (λ error. (error ≡ Memory)
        ⊎ ((rows : List DocumentRow) (postings : List Posting) → HasTokens tokens.now rows →
        ¬ (AreListedIn rows documents bytes.now postings))) }
{
    let mut skips = Vec::new(alloc);
    let mut end = first_end(bytes);
    let mut left = bytes;
    let mut next = 0;
    for document in 0..documents {
        let place = Skip {
            next,
            left: documents - document,
            size: left.len(),
        };
        end = keep_place(&mut skips, place, end)?;
        let (number, size) = check_posting(left, left.len(), next, tokens, claims)?;
        left = &left[size..];
        next = number + 1;
    }
    if !left.is_empty() {
        return Err(OpenError::ListLength);
    }
    Ok(skips)
}

/// A place of a list is kept if fewer bytes than these are left: none of a list that is not long.
#[inline]
fn first_end(bytes: &[u8]) -> usize
    ensures { HasRoomFor (length bytes.now) 0 result }
{
    if bytes.len() < LONG {
        0
    } else {
        bytes.len() - SPAN
    }
}

/// Keeps a place of a list if fewer bytes are left from it on than `end`. Returns this bound for the next.
#[inline(always)]
fn keep_place(skips: &mut Vec<Skip>, place: Skip, end: usize) -> Result<usize, AllocError>
    ensures kept { OnOk result ((skips.new.items ≡ skips.old.items)
        ⊎ (skips.new.items ≡ skips.old.items ++ place ∷ [])) }
    ensures few { IfOk result (λ rest. (bytes : ℕ) →
        HasRoomFor bytes (length skips.old.items) end →
        HasRoomFor bytes (length skips.new.items) rest) }
{
    if place.size >= end {
        return Ok(end);
    }
    skips.push(place)?;
    Ok(place.size.saturating_sub(SPAN))
}

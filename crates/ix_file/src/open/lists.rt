//! The lists of an index text, and that no token stands in two of them.
ghost use Rattle.std.specs.Prelude.{◌≡◌, ◌⊎◌, ◌+◌, ◌-◌, ◌*◌, ◌<◌, ◌≤◌, ◌∷◌, ◌++◌, [], List, length, slice_range, All, IfOk, IfErr, OnOk};
ghost use Rattle.ix_text.specs.Parts.{DocumentRow, Posting};
ghost use Rattle.ix_postings.specs.NextPostings.{HaveRoom};
ghost use Rattle.ix_postings.specs.TokenTables.{HasTokens};
ghost use Rattle.ix_file.specs.Claimed.{HasClaimed, HasRoom, mark_count};
ghost use Rattle.ix_file.specs.ReadListings.{AreLaidOut, HasListedCounts, listings_in, sizes_sum};
ghost use Rattle.ix_file.specs.LongLists.{IsLongIn, bytes_before, place_count};
ghost use Rattle.ix_file.specs.ReadLists.{AreClaimedLists, AreListsIn};
ghost use Rattle.ix_file.specs.declared.open.claims.Claims.{Claims};
ghost use Rattle.ix_file.specs.declared.open_error.OpenError.TheVariants.{Memory};

use crate::OpenError;
use crate::open::claims::{Claims, MARKS_A_BYTE};
use crate::open::list::check_list;
use crate::open::tables::LongList;
use crate::open::terms::{ListPlace, Terms};
use ix_postings::TokenTable;
use ix_vbyte::cursor::Skip;
use std::alloc::{AllocError, Global};
use std::thread::{Threads, join};

/// Checks the list of each term, where it stands in POSTINGS, and that no token is claimed twice. Returns where the
/// long lists may be entered.
///
/// The errors of a list, list by list; behind the last, `Doubled` if two terms, or one term twice, claim a token;
/// or `Memory`.
pub(crate) fn check_lists(
    alloc: Global,
    section: &[u8],
    terms: &Terms,
    tokens: &TokenTable,
    claims: Claims,
) -> Result<Vec<LongList>, OpenError>
    requires laid_out { AreLaidOut terms.now }
    requires whole { sizes_sum (listings_in terms.now) ≡ length section.now }
    requires counts { All HasListedCounts (listings_in terms.now) }
    requires ready { HaveRoom tokens.now (HasRoom claims) }
    requires none { HasClaimed claims [] }
    requires few { mark_count claims ≤ 8 * length section.now }
    ensures found { IfOk result (λ _. (rows : List DocumentRow) → HasTokens tokens.now rows →
        (lists : List (List Posting)) × AreListsIn rows section.now terms.now lists) }
    ensures entered { IfOk result (λ longs.
        All (IsLongIn section.now terms.now) longs.items) }
    ensures few { IfOk result (λ longs. place_count longs.items ≤ length section.now) }
    ensures refused { IfErr result (λ error. (error ≡ Memory)
        ⊎ ((rows : List DocumentRow) (lists : List (List Posting)) → HasTokens tokens.now rows →
        ¬ (AreListsIn rows section.now terms.now lists))) }
{
    let (longs, claims) = check_range(alloc, section, terms, (0, terms.len()), tokens, claims)?;
    if claims.are_doubled() {
        return Err(OpenError::Doubled);
    }
    Ok(longs)
}

/// Checks the lists as `check_lists` does, in two threads if there may be two. The terms are parted where about half
/// of POSTINGS lies before, and each thread has marks of its own: the two are compared behind the last list.
///
/// `total` is how many tokens the documents have. The errors of the lists before the parting come first.
pub(crate) fn check_lists_beside<R: Threads>(
    rt: &R,
    alloc: Global,
    section: &[u8],
    terms: &Terms,
    tokens: &TokenTable,
    total: u32,
) -> Result<Vec<LongList>, OpenError>
    requires laid_out { AreLaidOut terms.now }
    requires whole { sizes_sum (listings_in terms.now) ≡ length section.now }
    requires counts { All HasListedCounts (listings_in terms.now) }
    requires ready { (claims : Claims) → HasRoom claims total
        → HaveRoom tokens.now (HasRoom claims) }
    ensures found { IfOk result (λ _. (rows : List DocumentRow) → HasTokens tokens.now rows →
        (lists : List (List Posting)) × AreListsIn rows section.now terms.now lists) }
    ensures entered { IfOk result (λ longs.
        All (IsLongIn section.now terms.now) longs.items) }
    ensures few { IfOk result (λ longs. place_count longs.items ≤ length section.now) }
    ensures refused { IfErr result (λ error. (error ≡ Memory)
        ⊎ ((rows : List DocumentRow) (lists : List (List Posting)) → HasTokens tokens.now rows →
        ¬ (AreListsIn rows section.now terms.now lists))) }
{
    // few lists for so many tokens: their numbers are listed, and are not compared
    if total as usize / MARKS_A_BYTE > section.len() {
        return check_all(alloc, section, terms, tokens, total);
    }
    let middle = first_behind(terms, section.len() / 2);
    let front = (0, middle);
    let back = (middle, terms.len());
    let check_front = || -> Result<(Vec<LongList>, Claims), OpenError>
        requires laid_out { AreLaidOut terms.now }
        requires whole { sizes_sum (listings_in terms.now) ≡ length section.now }
        requires counts { All HasListedCounts (listings_in terms.now) }
        requires ready { (claims : Claims) → HasRoom claims total
            → HaveRoom tokens.now (HasRoom claims) }
        requires range { front.0 ≤ front.1 }
        requires within { front.1 ≤ length terms.now }
        ensures found { IfOk result (λ read. (rows : List DocumentRow) →
            HasTokens tokens.entry.now rows → AreClaimedLists rows section.entry.now
            (slice_range terms.entry.now front.0 front.1) read.1) }
        ensures entered { IfOk result (λ read.
            All (IsLongIn section.entry.now terms.entry.now) read.0.items) }
        ensures few { IfOk result (λ read.
            bytes_before terms.entry.now front.0 + place_count read.0.items
            ≤ bytes_before terms.entry.now front.1) }
        ensures refused { IfErr result (λ error. (error ≡ Memory)
            ⊎ ((rows : List DocumentRow) (lists : List (List Posting)) →
            HasTokens tokens.entry.now rows →
            ¬ (AreListsIn rows section.entry.now terms.entry.now lists))) }
    { check_part(alloc, section, terms, front, tokens, total) };
    let check_back = || -> Result<(Vec<LongList>, Claims), OpenError>
        requires laid_out { AreLaidOut terms.now }
        requires whole { sizes_sum (listings_in terms.now) ≡ length section.now }
        requires counts { All HasListedCounts (listings_in terms.now) }
        requires ready { (claims : Claims) → HasRoom claims total
            → HaveRoom tokens.now (HasRoom claims) }
        requires range { back.0 ≤ back.1 }
        requires within { back.1 ≤ length terms.now }
        ensures found { IfOk result (λ read. (rows : List DocumentRow) →
            HasTokens tokens.entry.now rows → AreClaimedLists rows section.entry.now
            (slice_range terms.entry.now back.0 back.1) read.1) }
        ensures entered { IfOk result (λ read.
            All (IsLongIn section.entry.now terms.entry.now) read.0.items) }
        ensures few { IfOk result (λ read.
            bytes_before terms.entry.now back.0 + place_count read.0.items
            ≤ bytes_before terms.entry.now back.1) }
        ensures refused { IfErr result (λ error. (error ≡ Memory)
            ⊎ ((rows : List DocumentRow) (lists : List (List Posting)) →
            HasTokens tokens.entry.now rows →
            ¬ (AreListsIn rows section.entry.now terms.entry.now lists))) }
    { check_part(alloc, section, terms, back, tokens, total) };
    let (first, second) = join(rt, check_front, check_back);
    let (mut longs, claims) = first?;
    let (mut more, others) = second?;
    match claims.are_doubled_beside(&others) {
        Some(false) => {
            longs.append(&mut more)?;
            Ok(longs)
        }
        Some(true) => Err(OpenError::Doubled),
        None => check_all(alloc, section, terms, tokens, total),
    }
}

/// The number of the first term whose list begins at this place of POSTINGS or behind it, or how many terms there are.
fn first_behind(terms: &Terms, place: usize) -> usize
    ensures { result ≤ length terms.now }
{
    let mut low = 0;
    let mut high = terms.len();
    while low < high {
        let middle = low + (high - low) / 2;
        if terms.list(middle).start < place {
            low = middle + 1;
        } else {
            high = middle;
        }
    }
    low
}

/// Checks the lists as `check_lists` does, with room for claims of this many tokens.
fn check_all(
    alloc: Global,
    section: &[u8],
    terms: &Terms,
    tokens: &TokenTable,
    total: u32,
) -> Result<Vec<LongList>, OpenError>
    requires laid_out { AreLaidOut terms.now }
    requires whole { sizes_sum (listings_in terms.now) ≡ length section.now }
    requires counts { All HasListedCounts (listings_in terms.now) }
    requires ready { (claims : Claims) → HasRoom claims total
        → HaveRoom tokens.now (HasRoom claims) }
    ensures found { IfOk result (λ _. (rows : List DocumentRow) → HasTokens tokens.now rows →
        (lists : List (List Posting)) × AreListsIn rows section.now terms.now lists) }
    ensures entered { IfOk result (λ longs.
        All (IsLongIn section.now terms.now) longs.items) }
    ensures few { IfOk result (λ longs. place_count longs.items ≤ length section.now) }
    ensures refused { IfErr result (λ error. (error ≡ Memory)
        ⊎ ((rows : List DocumentRow) (lists : List (List Posting)) → HasTokens tokens.now rows →
        ¬ (AreListsIn rows section.now terms.now lists))) }
{
    let claims = Claims::new(alloc, total, section.len())?;
    check_lists(alloc, section, terms, tokens, claims)
}

/// Checks the lists of some of the terms, from one number up to another, with room for claims of this many tokens.
fn check_part(
    alloc: Global,
    section: &[u8],
    terms: &Terms,
    range: (usize, usize),
    tokens: &TokenTable,
    total: u32,
) -> Result<(Vec<LongList>, Claims), OpenError>
    requires laid_out { AreLaidOut terms.now }
    requires whole { sizes_sum (listings_in terms.now) ≡ length section.now }
    requires counts { All HasListedCounts (listings_in terms.now) }
    requires ready { (claims : Claims) → HasRoom claims total
        → HaveRoom tokens.now (HasRoom claims) }
    requires range { range.0 ≤ range.1 }
    requires within { range.1 ≤ length terms.now }
    ensures found { IfOk result (λ read. (rows : List DocumentRow) → HasTokens tokens.now rows →
        AreClaimedLists rows section.now (slice_range terms.now range.0 range.1) read.1) }
    ensures entered { IfOk result (λ read. All (IsLongIn section.now terms.now) read.0.items) }
    ensures few { IfOk result (λ read.
        bytes_before terms.now range.0 + place_count read.0.items
        ≤ bytes_before terms.now range.1) }
    ensures refused { IfErr result (λ error. (error ≡ Memory)
        ⊎ ((rows : List DocumentRow) (lists : List (List Posting)) → HasTokens tokens.now rows →
        ¬ (AreListsIn rows section.now terms.now lists))) }
{
    let claims = Claims::new(alloc, total, section.len())?;
    check_range(alloc, section, terms, range, tokens, claims)
}

/// Checks the lists of some of the terms, from one number up to another, and claims their tokens.
///
/// The errors of a list, list by list; or `Memory`.
fn check_range(
    alloc: Global,
    section: &[u8],
    terms: &Terms,
    range: (usize, usize),
    tokens: &TokenTable,
    claims: Claims,
) -> Result<(Vec<LongList>, Claims), OpenError>
    requires laid_out { AreLaidOut terms.now }
    requires whole { sizes_sum (listings_in terms.now) ≡ length section.now }
    requires counts { All HasListedCounts (listings_in terms.now) }
    requires range { range.0 ≤ range.1 }
    requires within { range.1 ≤ length terms.now }
    requires ready { HaveRoom tokens.now (HasRoom claims) }
    requires none { HasClaimed claims [] }
    requires few { mark_count claims ≤ 8 * length section.now }
    ensures found { IfOk result (λ read. (rows : List DocumentRow) → HasTokens tokens.now rows →
        AreClaimedLists rows section.now (slice_range terms.now range.0 range.1) read.1) }
    ensures entered { IfOk result (λ read. All (IsLongIn section.now terms.now) read.0.items) }
    ensures few { IfOk result (λ read.
        bytes_before terms.now range.0 + place_count read.0.items
        ≤ bytes_before terms.now range.1) }
    ensures refused { IfErr result (λ error. (error ≡ Memory)
        ⊎ ((rows : List DocumentRow) (lists : List (List Posting)) → HasTokens tokens.now rows →
        ¬ (AreListsIn rows section.now terms.now lists))) }
{
    let (from, to) = range;
    let mut claims = claims;
    let mut longs = Vec::new(alloc);
    for number in from..to {
        let place = terms.list(number);
        let list = list_of(section, place);
        let skips = check_list(alloc, list, place.documents, tokens, &mut claims)?;
        keep_long(&mut longs, number, skips)?;
    }
    Ok((longs, claims))
}

/// Keeps the places of the list of a term, if there are any.
#[inline]
fn keep_long(longs: &mut Vec<LongList>, number: usize, skips: Vec<Skip>) -> Result<(), AllocError>
    ensures kept { OnOk result ((longs.new.items ≡ longs.old.items)
        ⊎ ((0 < length skips.items) × (longs.new.items
        ≡ longs.old.items ++ record { number = number; skips = skips } ∷ []))) }
    ensures few { OnOk result (place_count longs.new.items
        ≤ place_count longs.old.items + 2 * length skips.items) }
{
    if skips.is_empty() {
        return Ok(());
    }
    longs.push(LongList { number, skips })?;
    Ok(())
}

/// The bytes of the list of a place.
#[inline]
pub(crate) fn list_of(section: &[u8], place: ListPlace) -> &[u8]
    requires { place.start + place.size ≤ length section.now }
    ensures { result.now ≡ slice_range section.now place.start (place.start + place.size) }
{
    &section[place.start..place.start + place.size as usize]
}

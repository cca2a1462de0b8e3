//! The terms are walked in order, and each gram of a term is to list it next: so each number under a gram is looked at
//! once, where the numbers before it were read, and no term is looked for.
ghost use Rattle.std.specs.Prelude.{◌≡◌, ◌⊎◌, ◌↔◌, ℕ, ◌-◌, ◌^◌, ◌<◌, ◌≤◌, List, [], map, IfNone, All, IsUtf8, IfOk, IfErr, IfSome, IsTrue, length};
ghost use Rattle.ix_text.specs.ByteOrder.{IsAscending};
ghost use Rattle.ix_file.specs.GramSides.{IsKeyOf};
ghost use Rattle.ix_file.specs.GramWalks.{AreRowsOn, Finds, HasRead, HaveRead, IsAtEnd, IsNoGram, IsRowKey, IsRowOn, Reads, Sees, Walks};
ghost use Rattle.ix_file.specs.OpenedGrams.{AreCutRows, IsRightRow, LiesIn, gram_in};
ghost use Rattle.ix_file.specs.PlacedTerms.{terms_in};
ghost use Rattle.ix_file.specs.declared.open.sides.Side.{Side as SeenSide};
ghost use Rattle.ix_file.specs.declared.open.sides.Side.TheVariants.{Below, From};
ghost use Rattle.ix_file.specs.declared.open_error.OpenError.TheVariants.{Memory};

use crate::open::front::read_number;
use crate::open::grams::{GramRow, gram_bytes};
use crate::open::sides::{Side, gram_of, key_of};
use crate::open::terms::Terms;
use crate::{OpenError, Section};
use ix_index_text::windows_of;
use std::alloc::{AllocError, Global};
use std::str::from_utf8;
use std::thread::{Threads, join};

/// At how many places a gram is looked for before the rows are halved for it.
const PROBES: usize = 8;

/// How far the numbers under a gram were read.
#[derive(Clone, Copy)]
pub(crate) struct Cursor<'a> {
    /// Of the gram.
    pub(crate) key: u64,
    /// One above the last number, or 0 where there was none.
    pub(crate) next: u32,
    /// How many numbers are left.
    pub(crate) left: u32,
    /// What their gaps stand in.
    pub(crate) gaps: &'a [u8],
}

/// Checks that each row has the numbers of exactly the terms that have its gram, and that each gram of a term has a
/// row.
///
/// `Grams` if not, or `Memory`.
pub(crate) fn walk_terms(
    alloc: Global,
    section: &[u8],
    rows: &[GramRow],
    terms: &Terms,
) -> Result<(), OpenError>
    requires few { length terms.now < 2 ^ 32 }
    requires cut { AreCutRows section.now rows.now }
    ensures found { IfOk result (λ _.
        AreRowsOn (From 0) (terms_in terms.now) section.now rows.now) }
    ensures refused { IfErr result (λ error. (error ≡ Memory)
        ⊎ ¬ (AreRowsOn (From 0) (terms_in terms.now) section.now rows.now)) }
{
    walk_side(alloc, section, rows, terms, Side::From(0))
}

/// The same, in two threads if there may be two: one takes the grams below that of the middle row, the other the rest.
pub(crate) fn walk_terms_beside<R: Threads>(
    rt: &R,
    alloc: Global,
    section: &[u8],
    rows: &[GramRow],
    terms: &Terms,
) -> Result<(), OpenError>
    requires few { length terms.now < 2 ^ 32 }
    requires texts { All IsUtf8 (terms_in terms.now) }
    requires cut { AreCutRows section.now rows.now }
    ensures found { IfOk result (λ _.
        AreRowsOn (From 0) (terms_in terms.now) section.now rows.now) }
    ensures refused { IfErr result (λ error. (error ≡ Memory)
        ⊎ ¬ (AreRowsOn (From 0) (terms_in terms.now) section.now rows.now)) }
{
    let middle = middle_of(section, rows);
    let Some(pivot) = pivot_of(section, rows, middle) else {
        return walk_terms(alloc, section, rows, terms);
    };
    let (front, back) = rows.split_at(middle);
    let walk_front = || -> Result<(), OpenError>
        requires few { length terms.now < 2 ^ 32 }
        requires lie { All (LiesIn section.now) front.now }
        requires ascending { IsAscending (map (λ row. (gram_in section.now row).gram) front.now) }
        requires on { All (IsRowOn (Below pivot) section.now) front.now }
        ensures found { IfOk result (λ _. AreRowsOn (Below pivot) (terms_in terms.entry.now)
            section.entry.now front.entry.now) }
        ensures refused { IfErr result (λ error. (error ≡ Memory)
            ⊎ ¬ (AreRowsOn (Below pivot) (terms_in terms.entry.now) section.entry.now
            front.entry.now)) }
    { walk_side(alloc, section, front, terms, Side::Below(pivot)) };
    let walk_back = || -> Result<(), OpenError>
        requires few { length terms.now < 2 ^ 32 }
        requires lie { All (LiesIn section.now) back.now }
        requires ascending { IsAscending (map (λ row. (gram_in section.now row).gram) back.now) }
        requires on { All (IsRowOn (From pivot) section.now) back.now }
        ensures found { IfOk result (λ _. AreRowsOn (From pivot) (terms_in terms.entry.now)
            section.entry.now back.entry.now) }
        ensures refused { IfErr result (λ error. (error ≡ Memory)
            ⊎ ¬ (AreRowsOn (From pivot) (terms_in terms.entry.now) section.entry.now
            back.entry.now)) }
    { walk_side(alloc, section, back, terms, Side::From(pivot)) };
    let (below, from) = join(rt, walk_front, walk_back);
    below?;
    from?;
    Ok(())
}

/// The place of the first row whose numbers are in the second half of GRAMS, or how many rows there are.
fn middle_of(section: &[u8], rows: &[GramRow]) -> usize
    ensures { result ≤ length rows.now }
{
    let half = section.len() / 2;
    rows.partition_point(|row| row.numbers < half)
}

/// The key of the gram of the row at a place: none if there is no such row, or it is not of a gram.
fn pivot_of(section: &[u8], rows: &[GramRow], place: usize) -> Option<u64>
    requires { All (LiesIn section.now) rows.now }
    ensures { IfSome result (IsRowKey section.now rows.now place) }
{
    let row = rows.get(place)?;
    key_in(section, *row)
}

/// Checks the rows of the grams on one side: that each has the numbers of exactly the terms that have its gram, and
/// that each gram of a term that is on the side has a row.
///
/// `Grams` if not, or `Memory`.
fn walk_side(
    alloc: Global,
    section: &[u8],
    rows: &[GramRow],
    terms: &Terms,
    side: Side,
) -> Result<(), OpenError>
    requires few { length terms.now < 2 ^ 32 }
    requires lie { All (LiesIn section.now) rows.now }
    requires ascending { IsAscending (map (λ row. (gram_in section.now row).gram) rows.now) }
    requires on { All (IsRowOn side section.now) rows.now }
    ensures found { IfOk result (λ _. AreRowsOn side (terms_in terms.now) section.now rows.now) }
    ensures refused { IfErr result (λ error. (error ≡ Memory)
        ⊎ ¬ (AreRowsOn side (terms_in terms.now) section.now rows.now)) }
{
    let count = terms.len();
    let mut cursors = cursors_of(alloc, section, rows)?;
    let slots = slots_of(alloc, &cursors)?;
    for number in 0..count {
        if !take_term(
            &mut cursors,
            &slots,
            side,
            terms.text(number),
            number as u32,
        ) {
            return Err(OpenError::Grams);
        }
    }
    if !are_at_end(&cursors) {
        return Err(OpenError::Grams);
    }
    Ok(())
}

/// A cursor before the first number of each row.
///
/// `Grams` if a row is not of a gram, or has no number; or `Memory`.
fn cursors_of<'a>(
    alloc: Global,
    section: &'a [u8],
    rows: &[GramRow],
) -> Result<Vec<Cursor<'a>>, OpenError>
    requires { All (LiesIn section.now) rows.now }
    ensures found { IfOk result (λ cursors. (side : SeenSide) (terms : List (List ℕ)) →
        All (IsRowOn side section.now) rows.now →
        HaveRead side terms section.now 0 [] rows.now cursors.items) }
    ensures refused { IfErr result (λ error. (error ≡ Memory) ⊎ ((terms : List (List ℕ)) →
        All IsUtf8 terms → ¬ (All (IsRightRow terms section.now) rows.now))) }
{
    let mut cursors = Vec::with_capacity(alloc, rows.len())?;
    for &row in rows {
        let Some(cursor) = cursor_of(section, row) else {
            return Err(OpenError::Grams);
        };
        cursors.push(cursor)?;
    }
    Ok(cursors)
}

/// A cursor before the first number of a row: none if the row is not of a gram, or has no number.
fn cursor_of(section: &[u8], row: GramRow) -> Option<Cursor<'_>>
    requires { LiesIn section.now row }
    ensures some { IfSome result (λ cursor. (side : SeenSide) (terms : List (List ℕ)) →
        IsRowOn side section.now row → HasRead side terms section.now 0 [] row cursor) }
    ensures none { IfNone result ((terms : List (List ℕ)) → All IsUtf8 terms →
        ¬ (IsRightRow terms section.now row)) }
{
    let key = key_in(section, row)?;
    if row.count == 0 {
        return None;
    }
    Some(Cursor {
        key,
        next: 0,
        left: row.count,
        gaps: &section[row.numbers..row.numbers + row.numbers_size],
    })
}

/// The key of the gram of a row: none if the row is not of a gram.
fn key_in(section: &[u8], row: GramRow) -> Option<u64>
    requires { LiesIn section.now row }
    ensures some { IfSome result (IsKeyOf (gram_in section.now row).gram) }
    ensures none { IfNone result (IsNoGram (gram_in section.now row).gram) }
{
    let Ok(text) = from_utf8(gram_bytes(section, row)) else {
        return None;
    };
    let gram = gram_of(text)?;
    Some(key_of(gram))
}

/// Where the cursor of a key may be found, by a number that the key comes to: one above its place, or 0. What does not
/// stand there is not missed, only found later.
fn slots_of(alloc: Global, cursors: &[Cursor<'_>]) -> Result<Vec<u32>, AllocError> {
    let mut slots = vec![in alloc; 0; cursors.len().saturating_mul(2)]?;
    for (place, cursor) in cursors.iter().enumerate() {
        let Ok(mark) = u32::try_from(place + 1) else {
            break;
        };
        put(&mut slots, cursor.key, mark);
    }
    Ok(slots)
}

/// Puts the mark where its key is looked for, if there is room.
fn put(slots: &mut [u32], key: u64, mark: u32) {
    let start = slot_of(key, slots.len());
    for probe in 0..PROBES {
        let Some(slot) = slots.get_mut(start.wrapping_add(probe)) else {
            return;
        };
        if *slot == 0 {
            *slot = mark;
            return;
        }
    }
}

/// Where among so many slots a key is looked for first.
#[inline]
fn slot_of(key: u64, slots: usize) -> usize {
    let spread = key.wrapping_mul(0x9e37_79b9_7f4a_7c15) >> 32;
    (spread.wrapping_mul(slots as u64) >> 32) as usize
}

/// Takes the number of the next term from the cursor of each of its grams on the side. False: some gram has none whose
/// next number it is.
fn take_term(cursors: &mut [Cursor<'_>], slots: &[u32], side: Side, term: &str, number: u32) -> bool
    requires { number < 2 ^ 32 - 1 }
    ensures { Walks cursors.old side term.now number result cursors.new }
{
    for gram in windows_of(term) {
        let key = key_of(gram);
        if side.has(key) && !take_key(cursors, slots, key, number) {
            return false;
        }
    }
    true
}

/// Takes the number from the cursor of the key's gram. False: there is none whose next number it is, or whose last.
#[inline]
fn take_key(cursors: &mut [Cursor<'_>], slots: &[u32], key: u64, number: u32) -> bool
    requires { number < 2 ^ 32 - 1 }
    ensures { Sees cursors.old key number result cursors.new }
{
    let Some(place) = find(cursors, slots, key) else {
        return false;
    };
    let Some(cursor) = take(cursors[place], number) else {
        return false;
    };
    cursors[place] = cursor;
    true
}

/// The place of the cursor of a key.
#[inline]
fn find(cursors: &[Cursor<'_>], slots: &[u32], key: u64) -> Option<usize>
    ensures { Finds cursors.now key result }
{
    let start = slot_of(key, slots.len());
    for probe in 0..PROBES {
        let Some(&mark) = slots.get(start.wrapping_add(probe)) else {
            break;
        };
        let place = (mark as usize).wrapping_sub(1);
        let Some(cursor) = cursors.get(place) else {
            break;
        };
        if cursor.key == key {
            return Some(place);
        }
    }
    search(cursors, key)
}

/// The same, found by halving.
#[cold]
#[inline(never)]
fn search(cursors: &[Cursor<'_>], key: u64) -> Option<usize>
    ensures { Finds cursors.now key result }
{
    cursors.binary_search_by_key(&key, |cursor| cursor.key).ok()
}

/// The cursor behind the number, if that is its next, or was its last: then the gram is in the term twice.
#[inline]
fn take(cursor: Cursor<'_>, number: u32) -> Option<Cursor<'_>>
    requires { number < 2 ^ 32 - 1 }
    ensures { Reads cursor.entry number result }
{
    let next = number + 1;
    if cursor.next == next {
        return Some(cursor);
    }
    if cursor.left == 0 || cursor.next > next {
        return None;
    }
    let Ok((gap, gaps)) = read_number(Section::Grams, cursor.gaps) else {
        return None;
    };
    if gap != next - cursor.next {
        return None;
    }
    Some(Cursor {
        key: cursor.key,
        next,
        left: cursor.left - 1,
        gaps,
    })
}

/// Whether all numbers were taken.
fn are_at_end(cursors: &[Cursor<'_>]) -> bool
    ensures { IsTrue result ↔ All IsAtEnd cursors.now }
{
    for cursor in cursors {
        if cursor.left != 0 || !cursor.gaps.is_empty() {
            return false;
        }
    }
    true
}

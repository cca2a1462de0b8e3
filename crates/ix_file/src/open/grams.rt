//! The grams of an index text. They are those of the terms if each gram of each term lists it, and nothing else is
//! listed: so nothing is put in order again.
ghost use Rattle.std.specs.Prelude.{◌≡◌, ◌≢◌, ◌⊎◌, ◌↔◌, ℕ, ◌+◌, ◌^◌, ◌<◌, ◌≤◌, ◌++◌, ◌∷◌, [], List, map, length, All, IsUtf8, IsTrue, IfOk, IfErr, MatchOption, ⊤};
ghost use Rattle.ix_text.specs.ByteOrder.{IsAscending};
ghost use Rattle.ix_text.specs.Parts.{GramEntry};
ghost use Rattle.ix_index_text.specs.Grams.{AreGramsOfTerms};
ghost use Rattle.ix_file.specs.OpenedGrams.{AreCutRows, CutsEntry, FindsGram, IsGramRow, IsListedGram, LiesIn, gram_in, grams_in};
ghost use Rattle.ix_file.specs.PlacedTerms.{terms_in};
ghost use Rattle.ix_file.specs.OpenedGrams as opened;
ghost use Rattle.ix_index_text.specs.Sections.{grams_section};
ghost use Rattle.ix_file.specs.declared.open_error.OpenError.TheVariants.{Memory};

use crate::open::front::{read_number, read_text};
use crate::open::gram_walk::{walk_terms, walk_terms_beside};
use crate::open::terms::Terms;
use crate::{OpenError, Section};
use ix_vbyte::skip_codes;
use std::alloc::Global;
use std::cmp::Ordering;
use std::thread::Threads;

/// A gram: where it stands in GRAMS and how many bytes it has, how many terms have it, and where in GRAMS the gaps
/// of their numbers stand and how many bytes these take.
#[derive(Clone, Copy)]
pub(crate) struct GramRow {
    pub(crate) start: usize,
    pub(crate) size: u8,
    pub(crate) count: u32,
    pub(crate) numbers: usize,
    pub(crate) numbers_size: usize,
}

/// Reads GRAMS, which lists each gram of these terms with the numbers of the terms that have it.
///
/// `Grams` if the section is any other, or `Memory`.
pub(crate) fn read_grams(
    alloc: Global,
    section: &[u8],
    terms: &Terms,
) -> Result<Vec<GramRow>, OpenError>
    requires few { length terms.now < 2 ^ 32 }
    requires texts { All IsUtf8 (terms_in terms.now) }
    ensures grams { IfOk result (λ rows. AreGramsOfTerms (terms_in terms.now)
        (grams_in section.now rows.items) × (section.now ≡ grams_section
        (grams_in section.now rows.items))) }
    ensures rows { IfOk result (λ rows. All (IsGramRow section.now) rows.items) }
    ensures refused { IfErr result (λ error. (error ≡ Memory)
        ⊎ ((grams : List GramEntry) → AreGramsOfTerms (terms_in terms.now) grams →
        section.now ≢ grams_section grams)) }
{
    let rows = cut_rows(alloc, section)?;
    walk_terms(alloc, section, &rows, terms)?;
    Ok(rows)
}

/// Reads GRAMS as `read_grams` does, in two threads if there may be two. The result is the same.
pub(crate) fn read_grams_beside<R: Threads>(
    rt: &R,
    alloc: Global,
    section: &[u8],
    terms: &Terms,
) -> Result<Vec<GramRow>, OpenError>
    requires few { length terms.now < 2 ^ 32 }
    requires texts { All IsUtf8 (terms_in terms.now) }
    ensures grams { IfOk result (λ rows. AreGramsOfTerms (terms_in terms.now)
        (grams_in section.now rows.items) × (section.now ≡ grams_section
        (grams_in section.now rows.items))) }
    ensures rows { IfOk result (λ rows. All (IsGramRow section.now) rows.items) }
    ensures refused { IfErr result (λ error. (error ≡ Memory)
        ⊎ ((grams : List GramEntry) → AreGramsOfTerms (terms_in terms.now) grams →
        section.now ≢ grams_section grams)) }
{
    let rows = cut_rows(alloc, section)?;
    walk_terms_beside(rt, alloc, section, &rows, terms)?;
    Ok(rows)
}

/// Cuts GRAMS into its rows. The numbers are passed over.
///
/// `Grams` if the section is not of such rows, whose texts ascend; or `Memory`.
fn cut_rows(alloc: Global, section: &[u8]) -> Result<Vec<GramRow>, OpenError>
    ensures cut { IfOk result (λ rows. AreCutRows section.now rows.items) }
    ensures refused { IfErr result (λ error. (error ≡ Memory)
        ⊎ ((grams : List GramEntry) → All IsListedGram grams →
        IsAscending (map (λ entry. entry.gram) grams) → section.now ≢ grams_section grams)) }
{
    let mut rows: Vec<GramRow> = Vec::new(alloc);
    let mut left = section;
    while !left.is_empty() {
        let (row, rest) = cut_row(section, left)?;
        if !is_above(section, row, rows.last()) {
            return Err(OpenError::Grams);
        }
        rows.push(row)?;
        left = rest;
    }
    Ok(rows)
}

/// The row that what is left of GRAMS begins with, and what follows it.
///
/// `Grams` if no text is there with a number, and as many codes behind it.
fn cut_row<'a>(section: &[u8], left: &'a [u8]) -> Result<(GramRow, &'a [u8]), OpenError>
    requires within { (before : List ℕ) × (section.now ≡ before ++ left.now) }
    ensures cut { IfOk result (λ read. CutsEntry section.now left.now read.0 read.1.now) }
    ensures shorter { IfOk result (λ read. length read.1.now < length left.now) }
    ensures refused { IfErr result (λ error. (entry : GramEntry) (rest : List ℕ) →
        IsListedGram entry → left.now ≢ opened.gram_bytes entry ++ rest) }
{
    let Ok((gram, behind)) = read_text(Section::Grams, OpenError::Grams, left) else {
        return Err(OpenError::Grams);
    };
    let Ok((count, gaps)) = read_number(Section::Grams, behind) else {
        return Err(OpenError::Grams);
    };
    let size = skip_codes(gaps, count);
    if size < count as usize {
        return Err(OpenError::Grams);
    }
    let row = GramRow {
        start: section.len() - behind.len() - gram.len(),
        size: gram.len() as u8,
        count,
        numbers: section.len() - gaps.len(),
        numbers_size: size,
    };
    Ok((row, &gaps[size..]))
}

/// Whether the gram of a row is above that of the row before it, if there is one.
fn is_above(section: &[u8], row: GramRow, before: Option<&GramRow>) -> bool
    requires row { LiesIn section.now row }
    requires before { MatchOption before ⊤ (λ b. LiesIn section.now b.now) }
    ensures { IsTrue result ↔ MatchOption before.entry ⊤
        (λ b. IsAscending ((gram_in section.now b.now).gram ∷ (gram_in section.now
        row).gram ∷ [])) }
{
    match before {
        None => true,
        Some(before) => gram_bytes(section, *before)
            .cmp(gram_bytes(section, row))
            .is_lt(),
    }
}

/// The place of the row of a gram, or none if no row is of it.
pub(crate) fn find_gram(section: &[u8], rows: &[GramRow], gram: &str) -> Option<usize>
    requires rows { All (IsGramRow section.now) rows.now }
    requires ascending { IsAscending (map (λ entry. entry.gram) (grams_in section.now rows.now)) }
    ensures { FindsGram (grams_in section.now rows.now) gram.now result }
{
    let wanted = gram.as_bytes();
    let mut low = 0;
    let mut high = rows.len();
    while low < high {
        let middle = low + (high - low) / 2;
        match gram_bytes(section, rows[middle]).cmp(wanted) {
            Ordering::Less => low = middle + 1,
            Ordering::Equal => return Some(middle),
            Ordering::Greater => high = middle,
        }
    }
    None
}

/// The bytes of the gram of a row.
pub(crate) fn gram_bytes(section: &[u8], row: GramRow) -> &[u8]
    requires { row.start + row.size ≤ length section.now }
    ensures { result.now ≡ (gram_in section.now row).gram }
{
    &section[row.start..row.start + usize::from(row.size)]
}

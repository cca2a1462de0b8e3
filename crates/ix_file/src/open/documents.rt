//! The documents of an index text.
ghost use Rattle.std.specs.Prelude.{◌≡◌, ◌≢◌, ◌⊎◌, ℕ, ◌+◌, ◌^◌, ◌<◌, ◌++◌, List, length, All, IfOk, IfErr, OnErr};
ghost use Rattle.ix_vbyte.specs.Code.{code_of};
ghost use Rattle.ix_vbyte.specs.Texts.{counted};
ghost use Rattle.ix_text.specs.Collections.{IsName};
ghost use Rattle.ix_text.specs.Parts.{DocumentRow, row_bytes};
ghost use Rattle.ix_file.specs.OpenedRows.{AreRows, IsNameRow, row_in, rows_in};
ghost use Rattle.ix_index_text.specs.Sections.{documents_section};
ghost use Rattle.ix_file.specs.declared.open_error.OpenError.TheVariants.{Memory};

use crate::open::front::{read_number, read_text};
use crate::{OpenError, Section};
use ix_index_text::MIN_ROW_BYTES;
use ix_text::{MAX_TOKENS, is_unbroken};
use std::alloc::Global;

/// A document: where its name stands in DOCS, how many bytes the name has, and how many tokens the document.
#[derive(Clone, Copy)]
pub(crate) struct Row {
    pub(crate) start: usize,
    pub(crate) size: u8,
    pub(crate) tokens: u32,
}

/// Reads DOCS, which has this many documents: for each its name and the number of its tokens, of which there are
/// at most 2^28 in all.
///
/// `Number`, `Name` and `Text` of a name, and `Name` if it holds a TAB or an LF; `Number` of its tokens;
/// `TooLarge` if there are more than 2^28 tokens; behind the last, `Counts` if there is another number of
/// documents; or `Memory`.
pub(crate) fn read_documents(
    alloc: Global,
    section: &[u8],
    count: u32,
) -> Result<Vec<Row>, OpenError>
    ensures rows { IfOk result (λ rows. AreRows (rows_in section.now rows.items)
        × (section.now ≡ documents_section (rows_in section.now rows.items))) }
    ensures count { IfOk result (λ rows. length rows.items ≡ count) }
    ensures placed { IfOk result (λ rows. All (IsNameRow section.now) rows.items) }
    ensures refused { IfErr result (λ error. (error ≡ Memory)
        ⊎ ((rows : List DocumentRow) → AreRows rows → length rows ≡ count →
        section.now ≢ documents_section rows)) }
{
    let mut rows = Vec::with_capacity(alloc, (count as usize).min(section.len() / MIN_ROW_BYTES))?;
    let mut tokens = 0;
    let mut left = section;
    while !left.is_empty() {
        let (row, rest) = read_row(section, left)?;
        if row.tokens > MAX_TOKENS - tokens {
            return Err(OpenError::TooLarge);
        }
        tokens += row.tokens;
        rows.push(row)?;
        left = rest;
    }
    if rows.len() != count as usize {
        return Err(OpenError::Counts);
    }
    Ok(rows)
}

/// The row that what is left of DOCS begins with, and what follows it.
fn read_row<'a>(section: &[u8], left: &'a [u8]) -> Result<(Row, &'a [u8]), OpenError>
    requires { (before : List ℕ) × (section.now ≡ before ++ left.now) }
    ensures name { IfOk result (λ read. IsName (row_in section.now read.0).name) }
    ensures placed { IfOk result (λ read. IsNameRow section.now read.0) }
    ensures found { IfOk result (λ read. left.now ≡ row_bytes code_of (row_in section.now read.0)
        ++ read.1.now) }
    ensures refused { OnErr result ((row : DocumentRow) (rest : List ℕ) → IsName row.name →
        row.tokens < 2 ^ 32 → left.now ≢ row_bytes code_of row ++ rest) }
{
    let (name, behind) = read_name(left)?;
    let (tokens, rest) = read_number(Section::Documents, behind)?;
    let row = Row {
        start: section.len() - behind.len() - name.len(),
        size: name.len() as u8,
        tokens,
    };
    Ok((row, rest))
}

/// The name at the front of what is left of DOCS, and what follows it.
fn read_name(left: &[u8]) -> Result<(&str, &[u8]), OpenError>
    ensures found { IfOk result (λ read. IsName read.0.now
        × (left.now ≡ counted read.0.now ++ read.1.now)) }
    ensures refused { OnErr result ((name rest : List ℕ) → IsName name → left.now ≢ counted name
        ++ rest) }
{
    let (name, rest) = read_text(Section::Documents, OpenError::Name, left)?;
    if !is_unbroken(name) {
        return Err(OpenError::Name);
    }
    Ok((name, rest))
}

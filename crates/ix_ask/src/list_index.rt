//! The terms of an opened index that match a pattern, up to the lines that are written.
ghost use Rattle.std.specs.Prelude.{◌≡◌, ◌<◌, ◌++◌, All, length, string_bytes};
ghost use Rattle.std.specs.Prelude.{IfOk, IfErr, OnOk};
ghost use Rattle.ix_text.specs.Collections.{Collection};
ghost use Rattle.ix_file.specs.Opened.{IsIndexOf};
ghost use Rattle.ix_file.specs.Sections.{Version};
ghost use Rattle.ix_gram.specs.Patterns.{HasPiece, HasStar, pieces_of};
ghost use Rattle.ix_ask.specs.Listing.{IsListed, IsPrinted, LeavesListing, RefusesPattern};
ghost use Rattle.ix_ask.specs.Listing.{picked, row_line, row_lines, term_rows};

use crate::ask_error::AskError;
use crate::output::{Lines, write_whole};
use ix_file::Index;
use ix_gram::{Pattern, expand};
use ix_output::WriteError;
use std::alloc::{AllocError, Global};
use std::io::Write;

/// Writes each term of the index that matches the pattern, a TAB, in how many documents it is, and
/// LF, in the order of the terms, flushes, and returns how many terms there are.
///
/// Nothing is written but after `Ok` or `Write`; after `Write` a prefix of the lines may be out.
pub fn list_terms<W: Write>(
    alloc: Global,
    index: &Index<'_>,
    pattern: &str,
    out: &mut W,
) -> Result<usize, AskError>
    ensures printed { IfOk result (λ count. (version : Version) (collection : Collection)
        → IsIndexOf index.now version collection
        → IsPrinted collection pattern.now (W.contents out.old) (W.contents out.new) count) }
    ensures refused { IfErr result (λ error. (version : Version) (collection : Collection)
        → IsIndexOf index.now version collection
        → LeavesListing collection pattern.now (W.contents out.old) (W.contents out.new) error) }
{
    let rows = find_terms(alloc, index, pattern)?;
    match write_whole(out, &rows.bytes) {
        Ok(()) => Ok(rows.count),
        Err(WriteError::Write) => Err(AskError::Write),
    }
}

/// The lines of the terms of the index that match the pattern.
pub fn find_terms(alloc: Global, index: &Index<'_>, pattern: &str) -> Result<Lines, AskError>
    ensures listed { IfOk result (λ rows. (version : Version) (collection : Collection)
        → IsIndexOf index.now version collection
        → IsListed collection pattern.now rows.bytes.items rows.count) }
    ensures refused { IfErr result (RefusesPattern pattern.now) }
{
    let pieces = read_pattern(alloc, pattern)?;
    let numbers = expand(alloc, index, &pieces)?;
    let text = term_lines_in(alloc, index, &numbers)?;
    let count = numbers.len();
    let bytes = text.into_bytes();
    Ok(Lines { bytes, count })
}

/// The pattern that a text is.
pub(crate) fn read_pattern(alloc: Global, text: &str) -> Result<Pattern, AskError>
    ensures pieces { IfOk result (λ pattern. pattern ≡ pieces_of text.now) }
    ensures with_star { OnOk result (HasStar text.now) }
    ensures with_piece { OnOk result (HasPiece text.now) }
    ensures refused { IfErr result (RefusesPattern text.now) }
{
    match Pattern::read(alloc, text) {
        Ok(pattern) => Ok(pattern),
        Err(error) => Err(AskError::Pattern(error)),
    }
}

/// The lines of the terms of an index that have these numbers.
fn term_lines_in(alloc: Global, index: &Index<'_>, numbers: &[u32]) -> Result<String, AllocError>
    requires { All (λ number. number < length index.now.parts.entries) numbers.now }
    ensures { IfOk result (λ lines. string_bytes lines
        ≡ row_lines (picked (term_rows index.now.parts.entries) numbers.now)) }
{
    let mut lines = String::new(alloc);
    for &number in numbers {
        push_row_line(&mut lines, index.term(number), index.documents_of(number))?;
    }
    Ok(lines)
}

/// Adds the line of a term.
fn push_row_line(lines: &mut String, term: &str, documents: u32) -> Result<(), AllocError>
    ensures { OnOk result (string_bytes lines.new
        ≡ string_bytes lines.old ++ row_line (record { term = term.now; documents = documents })) }
{
    lines.push_str(term)?;
    write!(lines, "\t{documents}\n")
}

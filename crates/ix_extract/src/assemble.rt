//! An index text of version 1 is put together.

ghost use Rattle.std.specs.Prelude.{◌≡◌, ◌+◌, ◌^◌, ◌<◌, ◌≤◌, ◌++◌, ℕ, List, Some, length, All, IfErr, IfOk, OnOk, string_bytes};
ghost use Rattle.ix_index_text.specs.Grams.{AppendsGrams};
ghost use Rattle.ix_index_text.specs.IndexText.{end_mark};
ghost use Rattle.ix_index_text.specs.Sections.{Plain};
ghost use Rattle.ix_file.specs.Frames.{counts, eight, four, framed};
ghost use Rattle.ix_extract.specs.Assembled.{IsAssembled, found_dictionary, found_entry, stop_alone};
ghost use Rattle.ix_extract.specs.FoundTexts.{found_texts};
ghost use Rattle.ix_extract.specs.Gathered.{lists_at, stop_at};
ghost use Rattle.ix_extract.specs.Refusals.{IsOutside};
ghost use Rattle.ix_extract.specs.Trailers.{HasRoom, sizes_bytes};

use crate::ExtractError;
use crate::trailer::{Sizes, Trailer};
use ix_files::{FileError, ReadAt};
use ix_index_text::{END_MARK_PLAIN, Grams, MAGIC_PLAIN, MARK_BYTES};
use ix_lookup::FoundTerm;
use ix_vbyte::{push_code, push_counted};
use std::alloc::{AllocError, Global};

/// An index text of version 1 of terms that were found in the index text of a source, with its STOP and DOCS.
///
/// # Errors
/// `Memory` or `Read`.
pub(crate) fn assemble<S: ReadAt>(
    alloc: Global,
    source: &S,
    trailer: &Trailer,
    found: &[FoundTerm],
) -> Result<Vec<u8>, ExtractError>
    requires room { HasRoom trailer.now }
    requires few { length found.now < 2 ^ 32 }
    requires short { All (λ one. length (string_bytes one.term) ≤ 255) found.now }
    requires within { All (λ one. one.start + one.size ≤ trailer.now.postings) found.now }
    ensures assembled { (bytes : List ℕ) → S.contents source.now ≡ Some bytes
        → IfOk result (λ text. IsAssembled bytes trailer.now found.now text.items) }
    ensures refused { IfErr result IsOutside }
{
    let start = MARK_BYTES + trailer.postings;
    let mut out = Vec::new(alloc);
    out.extend_from_slice(MAGIC_PLAIN)?;
    append_lists(source, &mut out, trailer.postings, found)?;
    let stop = out.len();
    source.append_at(&mut out, start, trailer.stop)?;
    source.append_at(&mut out, start + trailer.stop, trailer.documents)?;
    let dictionary = out.len();
    append_entries(&mut out, found)?;
    let grams = out.len();
    append_grams(alloc, &mut out, found)?;
    let sizes = Sizes {
        postings: (stop - MARK_BYTES) as u64,
        stop: trailer.stop as u64,
        documents: trailer.documents as u64,
        dictionary: (grams - dictionary) as u64,
        grams: (out.len() - grams) as u64,
    };
    append_trailer(&mut out, &sizes, trailer.rows, found.len() as u32)?;
    Ok(out)
}

/// An index text of version 1 with the STOP of a source's, and without documents.
///
/// # Errors
/// `Memory` or `Read`.
pub(crate) fn stop_text<S: ReadAt>(
    alloc: Global,
    source: &S,
    trailer: &Trailer,
) -> Result<Vec<u8>, ExtractError>
    requires room { HasRoom trailer.now }
    ensures text { (bytes : List ℕ) → S.contents source.now ≡ Some bytes
        → IfOk result (λ text.
        text.items ≡ framed Plain (stop_alone (stop_at bytes trailer.now)) 0 0) }
    ensures refused { IfErr result IsOutside }
{
    let mut out = Vec::new(alloc);
    out.extend_from_slice(MAGIC_PLAIN)?;
    source.append_at(&mut out, MARK_BYTES + trailer.postings, trailer.stop)?;
    let sizes = Sizes {
        postings: 0,
        stop: trailer.stop as u64,
        documents: 0,
        dictionary: 0,
        grams: 0,
    };
    append_trailer(&mut out, &sizes, 0, 0)?;
    Ok(out)
}

/// Appends the lists of terms that were found in an index text whose POSTINGS has this many bytes.
///
/// # Errors
/// Those of the source.
fn append_lists<S: ReadAt>(
    source: &S,
    out: &mut Vec<u8>,
    postings: usize,
    found: &[FoundTerm],
) -> Result<(), FileError>
    requires room { postings + MARK_BYTES < 2 ^ 64 }
    requires within { All (λ one. one.start + one.size ≤ postings) found.now }
    ensures lists { (bytes : List ℕ) → S.contents source.now ≡ Some bytes
        → OnOk result (out.new.items ≡ out.old.items ++ lists_at bytes found.now) }
    ensures longer { OnOk result (length out.old.items ≤ length out.new.items) }
{
    for one in found {
        source.append_at(out, MARK_BYTES + one.start, one.size as usize)?;
    }
    Ok(())
}

/// Appends the GRAMS section of these terms.
fn append_grams(alloc: Global, out: &mut Vec<u8>, found: &[FoundTerm]) -> Result<(), AllocError>
    requires few { length found.now < 2 ^ 32 }
    requires short { All (λ one. length (string_bytes one.term) ≤ 255) found.now }
    ensures { OnOk result (AppendsGrams (found_texts found.now) out.old.items out.new.items) }
{
    let mut grams = Grams::new(alloc);
    for one in found {
        grams.push_term(one.term.as_str())?;
    }
    grams.write(out)
}

/// Appends the trailer of an index text of version 1 whose sections have these sizes.
fn append_trailer(out: &mut Vec<u8>, sizes: &Sizes, rows: u32, terms: u32) -> Result<(), AllocError>
    ensures { OnOk result (out.new.items ≡ out.old.items
        ++ ((sizes_bytes sizes.now ++ counts rows terms) ++ end_mark Plain)) }
{
    append_size(out, sizes.postings)?;
    append_size(out, sizes.stop)?;
    append_size(out, sizes.documents)?;
    append_size(out, sizes.dictionary)?;
    append_size(out, sizes.grams)?;
    append_count(out, rows)?;
    append_count(out, terms)?;
    out.extend_from_slice(END_MARK_PLAIN)?;
    Ok(())
}

/// Appends how many bytes a section has.
#[tactic(auto, unfolding(ix_file::specs::Frames::eight))]
fn append_size(out: &mut Vec<u8>, size: u64) -> Result<(), AllocError>
    ensures { OnOk result (out.new.items ≡ out.old.items ++ eight size) }
{
    out.extend_from_slice(&size.to_le_bytes())
}

/// Appends a count.
#[tactic(auto, unfolding(ix_file::specs::Frames::four))]
fn append_count(out: &mut Vec<u8>, count: u32) -> Result<(), AllocError>
    ensures { OnOk result (out.new.items ≡ out.old.items ++ four count) }
{
    out.extend_from_slice(&count.to_le_bytes())
}

/// Appends a DICTIONARY of version 1 of these terms.
fn append_entries(out: &mut Vec<u8>, found: &[FoundTerm]) -> Result<(), AllocError>
    requires short { All (λ one. length (string_bytes one.term) ≤ 255) found.now }
    ensures { OnOk result (out.new.items ≡ out.old.items ++ found_dictionary found.now) }
{
    for one in found {
        append_entry(out, one)?;
    }
    Ok(())
}

/// Appends a term, the number of its documents, and that of the bytes of its list.
fn append_entry(out: &mut Vec<u8>, one: &FoundTerm) -> Result<(), AllocError>
    requires short { length (string_bytes one.now.term) ≤ 255 }
    ensures { OnOk result (out.new.items ≡ out.old.items ++ found_entry one.now) }
{
    push_counted(out, one.term.as_bytes())?;
    push_code(out, one.documents)?;
    push_code(out, one.size)?;
    Ok(())
}

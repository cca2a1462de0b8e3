//! The frame of an index text: its marks, and the trailer that says how long the sections are.
ghost use Rattle.std.specs.Prelude.{◌≡◌, ◌≢◌, ◌↔◌, ℕ, ◌+◌, ◌^◌, ◌<◌, ◌≤◌, ◌++◌, List, length, IsTrue, MatchOption, IfOk, OnErr};
ghost use Rattle.ix_file.specs.Frames.{IsCutInto, FileSectionTexts, counts, eight, framed, joined_sections, lengths, texts_in, version_in};
ghost use Rattle.ix_index_text.specs.IndexText.{end_mark, magic};
ghost use Rattle.ix_index_text.specs.Sections.{Version as FormatVersion};

use crate::OpenError;
use ix_index_text::{
    COUNT_BYTES, COUNTS_BYTES, END_MARK_FRONT_CODED, END_MARK_PLAIN, FRAME_BYTES, LENGTH_BYTES,
    LENGTHS_BYTES, MAGIC_FRONT_CODED, MAGIC_PLAIN, MARK_BYTES, TRAILER_BYTES,
};
use ix_text::MAX_DOCUMENTS;

/// The version of an index text.
#[derive(Clone, Copy)]
pub(crate) enum Version {
    /// Version 1: each term of the dictionary is whole.
    Plain,
    /// Version 2: the dictionary is front coded.
    FrontCoded,
}

/// The sections of an index text, each where it stands.
#[derive(Clone, Copy)]
pub(crate) struct FileSections<'a> {
    pub(crate) postings: &'a [u8],
    pub(crate) stop: &'a [u8],
    pub(crate) documents: &'a [u8],
    pub(crate) dictionary: &'a [u8],
    pub(crate) grams: &'a [u8],
}

/// An index text cut by its trailer, and how many documents and terms it says there are.
#[derive(Clone, Copy)]
pub(crate) struct Frame<'a> {
    pub(crate) version: Version,
    pub(crate) sections: FileSections<'a>,
    pub(crate) documents: u32,
    pub(crate) terms: u32,
}

/// Cuts an index text. Nothing is looked at but the marks and the trailer.
///
/// `Short` if there are fewer than 64 bytes; `Magic` if the first eight are those of no version; `Trailer` where
/// the last eight are not those of this version; `Lengths` if the lengths do not sum to what is between; `TooLarge`
/// where there are more than 2^28 documents.
pub(crate) fn cut(bytes: &[u8]) -> Result<Frame<'_>, OpenError>
    ensures found { IfOk result (λ frame. bytes.now ≡ framed (version_in frame.version)
        (texts_in frame.sections) frame.documents frame.terms) }
    ensures few { IfOk result (λ frame. (frame.documents ≤ 2 ^ 28) × (frame.terms < 2 ^ 32)) }
    ensures refused { OnErr result ((version : FormatVersion) (texts : FileSectionTexts)
        (documents terms : ℕ) → documents ≤ 2 ^ 28 → terms < 2 ^ 32 →
        bytes.now ≢ framed version texts documents terms) }
{
    if bytes.len() < FRAME_BYTES {
        return Err(OpenError::Short);
    }
    let parts = split_frame(bytes);
    let Some(version) = version_of(parts.mark) else {
        return Err(OpenError::Magic);
    };
    if !is_end_mark(version, parts.end_mark) {
        return Err(OpenError::Trailer);
    }
    let sections = cut_sections(parts.body, parts.sizes)?;
    let (documents, terms) = read_counts(parts.counts);
    if documents > MAX_DOCUMENTS {
        return Err(OpenError::TooLarge);
    }
    Ok(Frame {
        version,
        sections,
        documents,
        terms,
    })
}

/// The parts of a frame: its marks, and between them the sections, their lengths and the counts.
#[derive(Clone, Copy)]
struct Parts<'a> {
    mark: &'a [u8],
    body: &'a [u8],
    sizes: &'a [u8],
    counts: &'a [u8],
    end_mark: &'a [u8],
}

/// Cuts bytes where the parts of a frame end.
fn split_frame(bytes: &[u8]) -> Parts<'_>
    requires { FRAME_BYTES ≤ length bytes.now }
    ensures { IsCutInto bytes.now result.mark.now result.body.now result.sizes.now result.counts.now
        result.end_mark.now }
{
    let (mark, rest) = bytes.split_at(MARK_BYTES);
    let (body, trailer) = rest.split_at(rest.len() - TRAILER_BYTES);
    let (numbers, end_mark) = trailer.split_at(LENGTHS_BYTES + COUNTS_BYTES);
    let (sizes, counts) = numbers.split_at(LENGTHS_BYTES);
    Parts {
        mark,
        body,
        sizes,
        counts,
        end_mark,
    }
}

/// The version whose mark is at the front.
fn version_of(mark: &[u8]) -> Option<Version>
    ensures { MatchOption result ((version : FormatVersion) → mark.now ≢ magic version)
        (λ version. mark.now ≡ magic (version_in version)) }
{
    if mark == MAGIC_PLAIN {
        return Some(Version::Plain);
    }
    if mark == MAGIC_FRONT_CODED {
        return Some(Version::FrontCoded);
    }
    None
}

/// Whether the mark is that of the end of this version.
fn is_end_mark(version: Version, mark: &[u8]) -> bool
    ensures { IsTrue result ↔ (mark.now ≡ end_mark (version_in version)) }
{
    match version {
        Version::Plain => mark == END_MARK_PLAIN,
        Version::FrontCoded => mark == END_MARK_FRONT_CODED,
    }
}

/// Cuts what stands between the marks' first and the trailer by the five lengths.
fn cut_sections<'a>(body: &'a [u8], sizes: &[u8]) -> Result<FileSections<'a>, OpenError>
    requires { length sizes.now ≡ LENGTHS_BYTES }
    ensures found { IfOk result (λ sections. (body.now ≡ joined_sections (texts_in sections))
        × (sizes.now ≡ lengths (texts_in sections))) }
    ensures refused { OnErr result ((texts : FileSectionTexts) → body.now ≡ joined_sections texts →
        sizes.now ≢ lengths texts) }
{
    let (postings, body, sizes) = cut_section(body, sizes)?;
    let (stop, body, sizes) = cut_section(body, sizes)?;
    let (documents, body, sizes) = cut_section(body, sizes)?;
    let (dictionary, body, sizes) = cut_section(body, sizes)?;
    let (grams, body, _) = cut_section(body, sizes)?;
    if !body.is_empty() {
        return Err(OpenError::Lengths);
    }
    Ok(FileSections {
        postings,
        stop,
        documents,
        dictionary,
        grams,
    })
}

/// Cuts off the section whose length is the first, and returns it, what follows it, and the lengths behind.
fn cut_section<'a, 'b>(
    body: &'a [u8],
    sizes: &'b [u8],
) -> Result<(&'a [u8], &'a [u8], &'b [u8]), OpenError>
    requires { LENGTH_BYTES ≤ length sizes.now }
    ensures found { IfOk result (λ cut. (body.now ≡ cut.0.now ++ cut.1.now)
        × (sizes.now ≡ eight (length cut.0.now) ++ cut.2.now)) }
    ensures small { length body.now < 2 ^ 64 }
    ensures less { IfOk result (λ cut. length sizes.now ≡ LENGTH_BYTES + length cut.2.now) }
    ensures refused { OnErr result ((section rest more : List ℕ) → body.now ≡ section ++ rest →
        sizes.now ≢ eight (length section) ++ more) }
{
    let (size, more) = read_length(sizes);
    if size > body.len() as u64 {
        return Err(OpenError::Lengths);
    }
    let (section, rest) = body.split_at(size as usize);
    Ok((section, rest, more))
}

/// The length at the front, and what follows it.
fn read_length(sizes: &[u8]) -> (u64, &[u8])
    requires { LENGTH_BYTES ≤ length sizes.now }
    ensures value { sizes.now ≡ eight result.0 ++ result.1.now }
{
    let (size, more) = sizes.split_first_chunk::<LENGTH_BYTES>().unwrap();
    (u64::from_le_bytes(*size), more)
}

/// The number of documents and that of terms.
fn read_counts(numbers: &[u8]) -> (u32, u32)
    requires { length numbers.now ≡ COUNTS_BYTES }
    ensures { numbers.now ≡ counts result.0 result.1 }
{
    let (documents, rest) = numbers.split_first_chunk::<COUNT_BYTES>().unwrap();
    let (terms, _) = rest.split_first_chunk::<COUNT_BYTES>().unwrap();
    (u32::from_le_bytes(*documents), u32::from_le_bytes(*terms))
}

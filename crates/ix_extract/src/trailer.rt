//! The trailer of an index text.

ghost use Rattle.std.specs.Prelude.{◌≡◌, ◌≢◌, ◌+◌, ◌^◌, ◌<◌, ◌≤◌, ◌++◌, ℕ, ◌↔◌, length, IfOk, IsOkAnd, IsTrue, MatchOption};
ghost use Rattle.ix_index_text.specs.IndexText.{end_mark, magic};
ghost use Rattle.ix_index_text.specs.Sections.{Version as FormatVersion};
ghost use Rattle.ix_file.specs.Frames.{FileSectionTexts, counts, eight, joined_sections};
ghost use Rattle.ix_lookup.specs.Versions.{version_in};
ghost use Rattle.ix_extract.specs.Trailers.{AreEnds, AreSmall, IsTrailerOf, ends_of, sizes_bytes, sum_of};

use ix_file::OpenError;
use ix_index_text::{
    COUNT_BYTES, COUNTS_BYTES, END_MARK_FRONT_CODED, END_MARK_PLAIN, FRAME_BYTES, LENGTH_BYTES,
    LENGTHS_BYTES, MAGIC_FRONT_CODED, MAGIC_PLAIN, MARK_BYTES,
};
use ix_lookup::Version;

/// What the trailer of an index text says: the version, how many bytes the sections have, and how many documents and
/// terms there are.
#[derive(Clone, Copy)]
pub(crate) struct Trailer {
    pub(crate) version: Version,
    pub(crate) postings: usize,
    pub(crate) stop: usize,
    pub(crate) documents: usize,
    pub(crate) dictionary: usize,
    pub(crate) rows: u32,
    pub(crate) terms: u32,
}

/// What the trailer of a frame says, of which these are the mark at the front and, behind it, the trailer.
///
/// # Errors
/// In this order: `Magic` if the first mark is that of no version; `Trailer` if the last one is not that of the version;
/// `Lengths` if the sections do not have `left` bytes together.
pub(crate) fn read_trailer(frame: &[u8], left: usize) -> Result<Trailer, OpenError>
    requires { length frame.now ≡ FRAME_BYTES }
    ensures within { IfOk result (λ read.
        ((read.postings + read.stop) + read.documents) + read.dictionary ≤ left) }
    ensures found { (version : FormatVersion) (texts : FileSectionTexts) (rows terms : ℕ)
        → rows < 2 ^ 32 → terms < 2 ^ 32 → length (joined_sections texts) ≡ left
        → frame.now ≡ ends_of version texts rows terms
        → IsOkAnd result (IsTrailerOf version texts rows terms) }
{
    let parts = split_ends(frame);
    let Some(version) = version_of(parts.mark) else {
        return Err(OpenError::Magic);
    };
    if !is_end_mark(version, parts.end_mark) {
        return Err(OpenError::Trailer);
    }
    let sizes = read_sizes(parts.sizes);
    let (rows, terms) = read_counts(parts.counts);
    if !sizes.have_sum(left as u64) {
        return Err(OpenError::Lengths);
    }
    Ok(Trailer {
        version,
        postings: sizes.postings as usize,
        stop: sizes.stop as usize,
        documents: sizes.documents as usize,
        dictionary: sizes.dictionary as usize,
        rows,
        terms,
    })
}

/// The parts of both ends of a frame.
#[derive(Clone, Copy)]
struct Ends<'a> {
    mark: &'a [u8],
    sizes: &'a [u8],
    counts: &'a [u8],
    end_mark: &'a [u8],
}

/// Cuts both ends of a frame.
fn split_ends(frame: &[u8]) -> Ends<'_>
    requires { length frame.now ≡ FRAME_BYTES }
    ensures { AreEnds frame.now result }
{
    let (mark, trailer) = frame.split_at(MARK_BYTES);
    let (numbers, end_mark) = trailer.split_at(LENGTHS_BYTES + COUNTS_BYTES);
    let (sizes, counts) = numbers.split_at(LENGTHS_BYTES);
    Ends {
        mark,
        sizes,
        counts,
        end_mark,
    }
}

/// The version whose mark is at the front.
fn version_of(mark: &[u8]) -> Option<Version>
    ensures { MatchOption result ((version : FormatVersion) → mark.now ≢ magic version)
        (λ version. mark.now ≡ magic (version_in version)) }
{
    if mark == MAGIC_PLAIN {
        return Some(Version::Plain);
    }
    if mark == MAGIC_FRONT_CODED {
        return Some(Version::FrontCoded);
    }
    None
}

/// Whether the mark is that of the end of this version.
fn is_end_mark(version: Version, mark: &[u8]) -> bool
    ensures { IsTrue result ↔ (mark.now ≡ end_mark (version_in version)) }
{
    match version {
        Version::Plain => mark == END_MARK_PLAIN,
        Version::FrontCoded => mark == END_MARK_FRONT_CODED,
    }
}

/// The sizes of the five sections.
#[derive(Clone, Copy)]
pub(crate) struct Sizes {
    pub(crate) postings: u64,
    pub(crate) stop: u64,
    pub(crate) documents: u64,
    pub(crate) dictionary: u64,
    pub(crate) grams: u64,
}

impl Sizes {
    /// Whether that is their sum.
    fn have_sum(&self, size: u64) -> bool
        ensures { IsTrue result ↔ (sum_of self.now ≡ size) }
    {
        if self.postings > size {
            return false;
        }
        let left = size - self.postings;
        if self.stop > left {
            return false;
        }
        let left = left - self.stop;
        if self.documents > left {
            return false;
        }
        let left = left - self.documents;
        if self.dictionary > left {
            return false;
        }
        left - self.dictionary == self.grams
    }
}

/// The five sizes.
fn read_sizes(bytes: &[u8]) -> Sizes
    requires { length bytes.now ≡ LENGTHS_BYTES }
    ensures told { bytes.now ≡ sizes_bytes result }
    ensures small { AreSmall result }
{
    let (postings, rest) = read_size(bytes);
    let (stop, rest) = read_size(rest);
    let (documents, rest) = read_size(rest);
    let (dictionary, rest) = read_size(rest);
    let (grams, _) = read_size(rest);
    Sizes {
        postings,
        stop,
        documents,
        dictionary,
        grams,
    }
}

/// The size at the front, and what follows it.
fn read_size(bytes: &[u8]) -> (u64, &[u8])
    requires { LENGTH_BYTES ≤ length bytes.now }
    ensures told { bytes.now ≡ eight result.0 ++ result.1.now }
    ensures size { length bytes.now ≡ LENGTH_BYTES + length result.1.now }
{
    let (size, rest) = bytes.split_first_chunk::<LENGTH_BYTES>().unwrap();
    (u64::from_le_bytes(*size), rest)
}

/// The number of documents and that of terms.
fn read_counts(numbers: &[u8]) -> (u32, u32)
    requires { length numbers.now ≡ COUNTS_BYTES }
    ensures { numbers.now ≡ counts result.0 result.1 }
{
    let (documents, rest) = numbers.split_first_chunk::<COUNT_BYTES>().unwrap();
    let (terms, _) = rest.split_first_chunk::<COUNT_BYTES>().unwrap();
    (u32::from_le_bytes(*documents), u32::from_le_bytes(*terms))
}

//! The terms of an index text.
ghost use Rattle.std.specs.Prelude.{◌≡◌, ◌≢◌, ◌⊎◌, ℕ, ◌^◌, ◌<◌, ◌≤◌, ◌++◌, ◌∷◌, [], List, length, string_bytes, take, IsUtf8, IfOk, IfErr, OnErr};
ghost use Rattle.ix_vbyte.specs.Code.{code_of};
ghost use Rattle.ix_vbyte.specs.Texts.{counted};
ghost use Rattle.ix_text.specs.ByteOrder.{IsAscending};
ghost use Rattle.ix_text.specs.StopSets.{HasTermSize};
ghost use Rattle.ix_file.specs.Frames.{version_in};
ghost use Rattle.ix_index_text.specs.Listings.{Listing, listing_bytes, listings_section, dictionary_term_bytes, last_listed};
ghost use Rattle.ix_file.specs.ReadListings.{AreLaidOut, AreListings, HasListedCounts, listing_read, listings_in, sizes_sum};
ghost use Rattle.ix_index_text.specs.Sections.{front_coded};
ghost use Rattle.ix_file.specs.TermReading.{IsLongestFront, TermMayFollow, text_of};
ghost use Rattle.ix_file.specs.declared.open_error.OpenError.TheVariants.{Memory};

use crate::open::frame::Version;
use crate::open::front::{read_bytes, read_number};
use crate::open::terms::{ListPlace, Terms};
use crate::{OpenError, Section};
use ix_index_text::{GROUP, MIN_ENTRY_BYTES};
use ix_text::{MAX_TERM_BYTES, StopList};
use ix_vbyte::VbError;
use std::alloc::{AllocError, Global};

/// How many times as many bytes as DICTIONARY has front coded terms may have together: no term is longer than its own
/// bytes and those of the terms before it in its group.
const MOST_SHARED: usize = GROUP;

/// A term as it was read: its text, the number of its documents, and of the bytes of its list.
#[derive(Drop)]
pub(crate) struct ListedTerm {
    pub(crate) term: String,
    pub(crate) documents: u32,
    pub(crate) size: u32,
}

/// Reads DICTIONARY, which has this many terms, whose lists are as long as POSTINGS.
///
/// Term by term: `Number` of its codes, `Front` if it is front coded and what it shares is not the longest front
/// that it shares with the term before, `TermSize`, `Number` if the section ends inside it, `Text`, `TermOrder`,
/// `StopIndexed`, `Number` and `Zero` of the number of its documents, and `Number` of its list's length. Behind the
/// last, `Counts` if there is another number of terms, and `ListLength` if the lists are not as long as
/// POSTINGS; or `Memory`.
pub(crate) fn read_dictionary(
    alloc: Global,
    version: Version,
    section: &[u8],
    stop: &StopList,
    count: u32,
    postings: usize,
) -> Result<Terms, OpenError>
    ensures terms { IfOk result (λ terms. AreListings stop.now (listings_in terms)
        × (section.now ≡ listings_section (version_in version) (listings_in terms))) }
    ensures counts { IfOk result (λ terms. (length terms ≡ count)
        × (sizes_sum (listings_in terms) ≡ postings)) }
    ensures starts { IfOk result (λ terms. AreLaidOut terms) }
    ensures refused { IfErr result (λ error. (error ≡ Memory)
        ⊎ ((listings : List Listing) → AreListings stop.now listings → length listings ≡ count →
        sizes_sum listings ≡ postings → section.now ≢ listings_section (version_in version)
        listings)) }
{
    let mut terms = room_for_terms(alloc, version, section, count)?;
    let mut buffer = Vec::new(alloc);
    let mut start = 0usize;
    let mut left = section;
    while !left.is_empty() {
        let (read, rest) = read_row(buffer, version, stop, terms.len(), last_text(&terms), left)?;
        let place = ListPlace {
            start,
            size: read.size,
            documents: read.documents,
        };
        terms.push(read.term.as_str(), place)?;
        // a sum past the largest number has more terms than `count` can say
        start = start.saturating_add(read.size as usize);
        buffer = read.term.into_bytes();
        left = rest;
    }
    if terms.len() != count as usize {
        return Err(OpenError::Counts);
    }
    if start != postings {
        return Err(OpenError::ListLength);
    }
    terms.fit();
    Ok(terms)
}

/// No terms, with room for those of DICTIONARY: it is asked for once, and for no more than its bytes can be of.
fn room_for_terms(
    alloc: Global,
    version: Version,
    section: &[u8],
    count: u32,
) -> Result<Terms, AllocError>
    ensures { IfOk result (λ terms. terms ≡ []) }
{
    let bytes = match version {
        Version::Plain => section.len(),
        Version::FrontCoded => section.len().saturating_mul(MOST_SHARED),
    };
    Terms::with_room(
        alloc,
        (count as usize).min(section.len() / MIN_ENTRY_BYTES),
        bytes,
    )
}

/// The last term, or the empty text if there is none.
fn last_text(terms: &Terms) -> &str
    ensures { result.now ≡ last_listed (listings_in terms.now) }
{
    let count = terms.len();
    if count == 0 {
        return "";
    }
    terms.text(count - 1)
}

/// The term that what is left of DICTIONARY begins with at a place, behind the term before, with its counts, and what
/// follows them. What the buffer held is lost, and the text takes its place.
///
/// The errors of its term, and then those of its counts.
fn read_row<'a>(
    buffer: Vec<u8>,
    version: Version,
    stop: &StopList,
    place: usize,
    before: &str,
    left: &'a [u8],
) -> Result<(ListedTerm, &'a [u8]), OpenError>
    requires { length before.now ≤ MAX_TERM_BYTES }
    ensures term { IfOk result (λ read. TermMayFollow stop.now before.now
        (listing_read read.0).term) }
    ensures counts { IfOk result (λ read. HasListedCounts (listing_read read.0)) }
    ensures found { IfOk result (λ read. left.now ≡ listing_bytes (version_in version) place
        before.now (listing_read read.0) ++ read.1.now) }
    ensures refused { IfErr result (λ error. (error ≡ Memory)
        ⊎ ((listing : Listing) (rest : List ℕ) → TermMayFollow stop.now before.now listing.term →
        HasListedCounts listing → left.now ≢ listing_bytes (version_in version) place before.now
        listing ++ rest)) }
{
    let (term, behind) = read_term(buffer, version, stop, place, before, left)?;
    let (documents, size, rest) = read_counts(behind)?;
    let read = ListedTerm {
        term,
        documents,
        size,
    };
    Ok((read, rest))
}

/// The number of documents and the length of the list, in bytes, that stand behind a term, and what follows them.
///
/// `Number` of the first; `Zero` if it is 0; `Number` of the second.
fn read_counts(left: &[u8]) -> Result<(u32, u32, &[u8]), OpenError>
    ensures some { IfOk result (λ read. 0 < read.0) }
    ensures small { IfOk result (λ read. (read.0 < 2 ^ 32) × (read.1 < 2 ^ 32)) }
    ensures found { IfOk result (λ read. left.now ≡ (code_of read.0 ++ code_of read.1)
        ++ read.2.now) }
    ensures refused { OnErr result ((listing : Listing) (rest : List ℕ) → HasListedCounts listing →
        left.now ≢ (code_of listing.documents ++ code_of listing.size) ++ rest) }
{
    let (documents, behind) = read_number(Section::Dictionary, left)?;
    if documents == 0 {
        return Err(OpenError::Zero);
    }
    let (size, rest) = read_number(Section::Dictionary, behind)?;
    Ok((documents, size, rest))
}

/// The term that what is left of DICTIONARY begins with at a place, behind the term before, in place of what the buffer
/// held, and what follows it.
///
/// The errors of `cut_term`; `Text` if it is not UTF-8; `TermOrder` if it is not above the term before;
/// `StopIndexed` if it is a stop term; or `Memory`.
fn read_term<'a>(
    buffer: Vec<u8>,
    version: Version,
    stop: &StopList,
    place: usize,
    before: &str,
    left: &'a [u8],
) -> Result<(String, &'a [u8]), OpenError>
    requires { length before.now ≤ MAX_TERM_BYTES }
    ensures term { IfOk result (λ read. TermMayFollow stop.now before.now (string_bytes read.0)) }
    ensures found { IfOk result (λ read. left.now ≡ dictionary_term_bytes (version_in version) place
        before.now (string_bytes read.0) ++ read.1.now) }
    ensures refused { IfErr result (λ error. (error ≡ Memory)
        ⊎ ((term rest : List ℕ) → TermMayFollow stop.now before.now term →
        left.now ≢ dictionary_term_bytes (version_in version) place before.now term ++ rest)) }
{
    let cut = cut_term(version, place, before.as_bytes(), left)?;
    let term = join(buffer, cut.front, cut.own)?;
    let is_above = before < term.as_str();
    if !is_above {
        return Err(OpenError::TermOrder);
    }
    if stop.contains(term.as_str()) {
        return Err(OpenError::StopIndexed);
    }
    Ok((term, cut.rest))
}

/// Two runs of bytes as one text, in place of what the buffer held.
///
/// `Text` if they are not UTF-8 together; or `Memory`.
fn join(buffer: Vec<u8>, front: &[u8], own: &[u8]) -> Result<String, OpenError>
    ensures found { IfOk result (λ text. string_bytes text ≡ front.now ++ own.now) }
    ensures refused { IfErr result (λ error. (error ≡ Memory) ⊎ ¬ (IsUtf8 (front.now ++ own.now))) }
{
    let mut bytes = buffer;
    bytes.clear();
    bytes.extend_from_slice(front)?;
    bytes.extend_from_slice(own)?;
    String::from_utf8(bytes).map_err(|_| OpenError::Text)
}

/// A term as it was cut: the bytes that it shares with the term before, its own, and what follows it.
#[derive(Clone, Copy)]
struct TermCut<'a, 'b> {
    front: &'b [u8],
    own: &'a [u8],
    rest: &'a [u8],
}

/// Cuts the term off that what is left of DICTIONARY begins with at a place, behind the term before. Whether it is
/// text is not looked at.
///
/// The errors of `cut_whole` or of `cut_front_coded`, as the version and the place have it.
fn cut_term<'a, 'b>(
    version: Version,
    place: usize,
    before: &'b [u8],
    left: &'a [u8],
) -> Result<TermCut<'a, 'b>, OpenError>
    requires { length before.now ≤ MAX_TERM_BYTES }
    ensures size { IfOk result (λ cut. HasTermSize (text_of cut)) }
    ensures found { IfOk result (λ cut. left.now ≡ dictionary_term_bytes (version_in version) place
        before.now (text_of cut) ++ cut.rest.now) }
    ensures refused { OnErr result ((term rest : List ℕ) → HasTermSize term →
        IsAscending (before.now ∷ term ∷ []) → left.now ≢ dictionary_term_bytes (version_in version)
        place before.now term ++ rest) }
{
    match version {
        Version::Plain => cut_whole(before, left),
        Version::FrontCoded => {
            if place.is_multiple_of(GROUP) {
                cut_whole(before, left)
            } else {
                cut_front_coded(before, left)
            }
        }
    }
}

/// Cuts a term off that is whole.
///
/// `Number` of its length or if there are fewer bytes; `TermSize` if it has not 1 to 255 bytes.
fn cut_whole<'a, 'b>(before: &'b [u8], left: &'a [u8]) -> Result<TermCut<'a, 'b>, OpenError>
    ensures size { IfOk result (λ cut. HasTermSize (text_of cut)) }
    ensures found { IfOk result (λ cut. left.now ≡ counted (text_of cut) ++ cut.rest.now) }
    ensures refused { OnErr result ((term rest : List ℕ) → HasTermSize term →
        left.now ≢ counted term ++ rest) }
{
    let (size, bytes) = read_number(Section::Dictionary, left)?;
    if size == 0 || size > MAX_TERM_BYTES {
        return Err(OpenError::TermSize);
    }
    let (own, rest) = read_bytes(Section::Dictionary, size, bytes)?;
    Ok(TermCut {
        front: &before[..0],
        own,
        rest,
    })
}

/// Cuts a term off that is front coded.
///
/// `Number` of its two numbers; `Front` if it shares another number of bytes with the term before; `TermSize` where
/// it has not 1 to 255 bytes; `Number` if there are fewer bytes.
fn cut_front_coded<'a, 'b>(before: &'b [u8], left: &'a [u8]) -> Result<TermCut<'a, 'b>, OpenError>
    requires { length before.now ≤ MAX_TERM_BYTES }
    ensures size { IfOk result (λ cut. HasTermSize (text_of cut)) }
    ensures found { IfOk result (λ cut. left.now ≡ front_coded before.now (text_of cut)
        ++ cut.rest.now) }
    ensures refused { OnErr result ((term rest : List ℕ) → HasTermSize term →
        IsAscending (before.now ∷ term ∷ []) → left.now ≢ front_coded before.now term ++ rest) }
{
    let (shared, behind) = read_number(Section::Dictionary, left)?;
    let (size, bytes) = read_number(Section::Dictionary, behind)?;
    let front = longest_front(before, shared, size, bytes)?;
    if size > MAX_TERM_BYTES - shared {
        return Err(OpenError::TermSize);
    }
    let (own, rest) = read_bytes(Section::Dictionary, size, bytes)?;
    Ok(TermCut { front, own, rest })
}

/// The bytes that a term shares with the term before, which are to be as many as it can share, where it has this
/// many of its own, and they begin what is left.
///
/// `Front` if they are not; `Number` of `Cut` if nothing is left.
fn longest_front<'b>(
    before: &'b [u8],
    shared: u32,
    size: u32,
    left: &[u8],
) -> Result<&'b [u8], OpenError>
    ensures front { IfOk result (λ front. front.now ≡ take shared before.now) }
    ensures longest { IfOk result (λ front. IsLongestFront before.now shared size left.now) }
    ensures refused { OnErr result (¬ (IsLongestFront before.now shared size left.now)) }
{
    let shared = shared as usize;
    if shared > before.len() || size == 0 {
        return Err(OpenError::Front);
    }
    if left.is_empty() {
        return Err(OpenError::Number(Section::Dictionary, VbError::Cut));
    }
    if shared < before.len() && before[shared] == left[0] {
        return Err(OpenError::Front);
    }
    Ok(&before[..shared])
}

//! A row of a dictionary.
ghost use Rattle.std.specs.Prelude.{◌≡◌, ℕ, ◌^◌, ◌<◌, ◌≤◌, ◌++◌, List, length, IsSomeAnd};
ghost use Rattle.ix_vbyte.specs.Code.{code_of};
ghost use Rattle.ix_vbyte.specs.Texts.{counted};
ghost use Rattle.ix_index_text.specs.Listings.{Listing, listing_bytes, dictionary_term_bytes};
ghost use Rattle.ix_lookup.specs.Listed.{IsReadable};
ghost use Rattle.ix_lookup.specs.Rows.{IsRowRead, IsSharedRead};
ghost use Rattle.ix_lookup.specs.Versions.{version_in};

use crate::Version;
use ix_index_text::GROUP;
use ix_vbyte::decode;

/// What a dictionary says of a term: the number of bytes that it shares with the term before, its own bytes, the number
/// of its documents and of the bytes of its list; and the bytes that follow the row.
#[derive(Clone, Copy)]
pub(crate) struct Row<'a> {
    pub(crate) shared: u32,
    pub(crate) own: &'a [u8],
    pub(crate) documents: u32,
    pub(crate) size: u32,
    pub(crate) rest: &'a [u8],
}

/// The row that the rest of a dictionary begins with, at a place. `None` if there is none.
#[inline]
pub(crate) fn read_row(version: Version, place: u32, left: &[u8]) -> Option<Row<'_>>
    ensures { (before : List ℕ) (listing : Listing) (rest : List ℕ) → length before ≤ 255
        → IsReadable listing
        → left.now ≡ listing_bytes (version_in version) place before listing ++ rest
        → IsSomeAnd result (IsRowRead before listing rest) }
{
    let (shared, behind) = read_shared(version, place, left)?;
    let (own, counts) = read_counted(behind)?;
    let (documents, size, rest) = read_counts(counts)?;
    Some(Row {
        shared,
        own,
        documents,
        size,
        rest,
    })
}

/// How many bytes the term at a place shares with the term before, and what follows that number.
#[inline]
fn read_shared(version: Version, place: u32, left: &[u8]) -> Option<(u32, &[u8])>
    ensures { (before term rest : List ℕ) → length before ≤ 255
        → left.now ≡ dictionary_term_bytes (version_in version) place before term ++ rest
        → IsSomeAnd result (λ read. IsSharedRead before term rest read.0 read.1.now) }
{
    match version {
        Version::Plain => Some((0, left)),
        Version::FrontCoded => {
            if (place as usize).is_multiple_of(GROUP) {
                return Some((0, left));
            }
            read_number(left)
        }
    }
}

/// The text that the bytes begin with, behind the number of its bytes, and what follows it. `None` if there is none.
#[inline]
fn read_counted(bytes: &[u8]) -> Option<(&[u8], &[u8])>
    ensures { (text rest : List ℕ) → length text < 2 ^ 32 → bytes.now ≡ counted text ++ rest
        → IsSomeAnd result (λ read. (read.0.now ≡ text) × (read.1.now ≡ rest)) }
{
    let (size, behind) = read_number(bytes)?;
    behind.split_at_checked(size as usize)
}

/// The two numbers whose codes the bytes begin with, and what follows them. `None` if they are not there.
#[inline]
fn read_counts(bytes: &[u8]) -> Option<(u32, u32, &[u8])>
    ensures { (documents size : ℕ) (rest : List ℕ) → documents < 2 ^ 32 → size < 2 ^ 32
        → bytes.now ≡ (code_of documents ++ code_of size) ++ rest
        → IsSomeAnd result (λ read. (read.0 ≡ documents) × (read.1 ≡ size) × (read.2.now ≡ rest)) }
{
    let (documents, behind) = read_number(bytes)?;
    let (size, rest) = read_number(behind)?;
    Some((documents, size, rest))
}

/// The number whose code the bytes begin with, and what follows the code. `None` if there is none. Most codes have one
/// byte.
#[inline]
fn read_number(bytes: &[u8]) -> Option<(u32, &[u8])>
    ensures { (number : ℕ) (rest : List ℕ) → number < 2 ^ 32 → bytes.now ≡ code_of number ++ rest
        → IsSomeAnd result (λ read. (read.0 ≡ number) × (read.1.now ≡ rest)) }
{
    if !bytes.is_empty() && bytes[0] >= 128 {
        return Some((u32::from(bytes[0] % 128), &bytes[1..]));
    }
    match decode(bytes) {
        Ok((number, size)) => Some((number, &bytes[size..])),
        Err(_) => None,
    }
}

//! How many bytes some codes take, found by the top bits alone.
ghost use Rattle.std.specs.Prelude.{◌≡◌, ◌<◌, ◌≤◌, ◌++◌, ℕ, List, length, count_by, nat_le, MatchResult};
ghost use Rattle.ix_vbyte.specs.Ends.{end_of, ends_by_byte, marks_of};
ghost use Rattle.ix_vbyte.specs.Postings.{codes_of};

/// How many bytes are looked at in one step.
const WORD: usize = 8;

/// The top bit of each byte of a word.
const TOPS: u64 = 0x8080_8080_8080_8080;

/// The number 1 in each byte of a word.
const ONES: u64 = 0x0101_0101_0101_0101;

/// Returns how many bytes the first `count` codes take, or the number of all bytes if fewer codes end in them.
/// No code is decoded: a code ends at a byte with the top bit.
#[inline]
pub fn skip_codes(bytes: &[u8], count: u32) -> usize
    ensures codes { (numbers rest : List ℕ) → bytes.now ≡ codes_of numbers ++ rest
        → length numbers ≡ count → result ≡ length (codes_of numbers) }
    ensures ends { result ≡ end_of count bytes.now }
    ensures within { result ≤ length bytes.now }
{
    skip_words(bytes, count)
}

/// Behind the code of that number, counted from 1, where it ends in the word; otherwise how many codes end there.
/// How many are passed is looked up by arithmetic alone, since no branch on it could be foreseen.
#[inline(always)]
fn end_in_word(word: &[u8; WORD], count: u32) -> Result<usize, u32>
    requires { 0 < count }
    ensures { MatchResult result
        (λ end. (behind : List ℕ) → end_of count (word.now ++ behind) ≡ end)
        (λ ends. (ends ≡ count_by (λ byte. nat_le 128 byte) word.now) × (ends < count)) }
{
    let ends = count_ends(word);
    let all = (ends >> 56) as u32;
    if all < count {
        return Err(all);
    }
    // the top bit of each byte up to which as many codes end
    let reached = (ends + TOPS - u64::from(count) * ONES) & TOPS;
    Ok(reached.trailing_zeros() as usize / 8 + 1)
}

/// How many codes end in the first byte of a word, how many in the first two, and so on: a byte for each, the first
/// lowest.
#[inline(always)]
fn count_ends(word: &[u8; WORD]) -> u64
    ensures { result ≡ ends_by_byte 0 word.now }
{
    (marks_in_word(word) >> 7).wrapping_mul(ONES)
}

/// The top bits of a word, the first byte's lowest.
#[inline(always)]
fn marks_in_word(word: &[u8; WORD]) -> u64
    ensures { result ≡ marks_of 8 128 word.now }
{
    u64::from_le_bytes(*word) & TOPS
}

/// The same as `skip_codes`, a word at a time.
#[inline]
fn skip_words(bytes: &[u8], count: u32) -> usize
    ensures { result ≡ end_of count bytes.now }
{
    if count == 0 {
        return 0;
    }
    let mut rest = bytes;
    let mut left = count;
    while let Some((word, behind)) = rest.split_first_chunk::<WORD>() {
        match end_in_word(word, left) {
            Ok(end) => return bytes.len() - rest.len() + end,
            Err(ends) => left -= ends,
        }
        rest = behind;
    }
    bytes.len() - rest.len() + skip_bytes(rest, left)
}

/// The same as `skip_codes`, byte by byte.
fn skip_bytes(bytes: &[u8], count: u32) -> usize
    ensures { result ≡ end_of count bytes.now }
{
    let mut left = count;
    for (place, &byte) in bytes.iter().enumerate() {
        if left == 0 {
            return place;
        }
        if byte >= 128 {
            left -= 1;
        }
    }
    bytes.len()
}

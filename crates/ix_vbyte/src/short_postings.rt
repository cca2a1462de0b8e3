//! Numbers with short codes, and postings of one position whose gaps have such, at the front of bytes that may be
//! anything.
ghost use Rattle.std.specs.Prelude.{◌≡◌, ◌≢◌, ◌<◌, ◌≤◌, ◌^◌, ◌++◌, ◌⊎◌, ℕ, List, length, IfNone, IfSome};
ghost use Rattle.ix_vbyte.specs.Code.{code_of};
ghost use Rattle.ix_vbyte.specs.ShortPostings.{BeginsWithShort, BeginsWithSingle, IsShortCode, single_bytes};

/// How many bytes are looked at: two gaps of two bytes, and the number of positions.
const SHORT: usize = 5;

/// The code of 1.
const ONE: u8 = 129;

/// A posting of one position.
#[derive(Clone, Copy)]
pub struct ShortPosting {
    /// The gap of its document.
    pub gap: u32,
    /// The gap of its position, which is one above it.
    pub position_gap: u32,
    /// How many bytes it takes.
    pub size: usize,
}

/// Returns the posting of one position that the bytes begin with, if its two gaps are below 2^14 and not 0, and there are
/// at least five bytes; or `None`.
///
/// Most postings of a term have one position. The width of the document's gap is mostly predicted, so it is a branch; that
/// of the position's gap is not, so nothing branches on it.
#[inline(always)]
pub fn short_posting(bytes: &[u8]) -> Option<ShortPosting>
    ensures found { IfSome result (λ posting.
        BeginsWithSingle bytes.now posting.gap posting.position_gap posting.size) }
    ensures none { IfNone result ((gap position : ℕ) (rest : List ℕ) → 5 ≤ length bytes.now
        → 0 < gap → gap < 2 ^ 14 → 0 < position → position < 2 ^ 14
        → bytes.now ≢ single_bytes gap position ++ rest) }
{
    if bytes.len() < SHORT {
        return None;
    }
    let first = bytes[0];
    let second = bytes[1];
    if first > 128 {
        if second != ONE {
            return None;
        }
        let Some((position_gap, size)) = short_code(bytes[2], bytes[3]) else {
            return None;
        };
        return Some(ShortPosting {
            gap: u32::from(first - 128),
            position_gap,
            size: 2 + size,
        });
    }
    if first == 0 || first == 128 || second < 128 || bytes[2] != ONE {
        return None;
    }
    let Some((position_gap, size)) = short_code(bytes[3], bytes[4]) else {
        return None;
    };
    Some(ShortPosting {
        gap: u32::from(first) * 128 + u32::from(second - 128),
        position_gap,
        size: 3 + size,
    })
}

/// Returns the number whose code the bytes begin with, if it is below 2^14 and not 0, and how many bytes the code takes;
/// or `None`.
#[inline(always)]
pub fn short_number(bytes: &[u8]) -> Option<(u32, usize)>
    ensures found { IfSome result (λ read. BeginsWithShort bytes.now read.0 read.1) }
    ensures none { IfNone result ((number : ℕ) (rest : List ℕ) → 0 < number → number < 2 ^ 14
        → bytes.now ≢ code_of number ++ rest) }
{
    match bytes {
        [first, second, ..] => short_code(*first, *second),
        [first] => short_code(*first, 0),
        [] => None,
    }
}

/// The number above 0 whose code of one byte or two these bytes begin with, and how many it takes.
#[inline(always)]
fn short_code(first: u8, second: u8) -> Option<(u32, usize)>
    ensures found { IfSome result (λ code. IsShortCode first second code.0 code.1) }
    ensures none { IfNone result ((first ≡ 0)
        ⊎ ((first ≡ 128) ⊎ ((first < 128) × (second < 128)))) }
{
    if first > 128 {
        return Some((u32::from(first - 128), 1));
    }
    if first == 0 || first == 128 || second < 128 {
        return None;
    }
    Some((u32::from(first) * 128 + u32::from(second - 128), 2))
}

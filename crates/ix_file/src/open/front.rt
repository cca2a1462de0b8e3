//! What stands at the front of some bytes of a section: a number, or a text behind the number of its bytes.
ghost use Rattle.std.specs.Prelude.{◌≡◌, ◌≢◌, ℕ, ◌^◌, ◌<◌, ◌++◌, List, length, IfOk, IfErr, OnErr};
ghost use Rattle.ix_vbyte.specs.Code.{code_of};
ghost use Rattle.ix_vbyte.specs.Texts.{counted};
ghost use Rattle.ix_text.specs.Terms.{IsTerm};
ghost use Rattle.ix_file.specs.Refusals.{IsNumberFault};

use crate::{OpenError, Section};
use ix_text::MAX_TERM_BYTES;
use ix_vbyte::{VbError, decode};
use std::str::from_utf8;

/// The number whose code the bytes of a section begin with, and what follows the code.
///
/// `Number`, with this section, if no code is there.
#[inline]
pub(crate) fn read_number(section: Section, bytes: &[u8]) -> Result<(u32, &[u8]), OpenError>
    ensures found { IfOk result (λ read. (read.0 < 2 ^ 32)
        × (bytes.now ≡ code_of read.0 ++ read.1.now)) }
    ensures fault { IfErr result (λ error. IsNumberFault section bytes.now error) }
    ensures refused { OnErr result ((n : ℕ) (rest : List ℕ) → n < 2 ^ 32 → bytes.now ≢ code_of n
        ++ rest) }
{
    match decode(bytes) {
        Ok((number, count)) => Ok((number, &bytes[count..])),
        Err(fault) => Err(OpenError::Number(section, fault)),
    }
}

/// The first `count` bytes, and what follows them.
///
/// `Number` of `Cut`, with this section, if there are fewer.
#[inline]
pub(crate) fn read_bytes(
    section: Section,
    count: u32,
    bytes: &[u8],
) -> Result<(&[u8], &[u8]), OpenError>
    ensures found { IfOk result (λ read. (length read.0.now ≡ count)
        × (bytes.now ≡ read.0.now ++ read.1.now)) }
    ensures fault { IfErr result (λ error. (error ≡ OpenError.Number section VbError.Cut)
        × (length bytes.now < count)) }
{
    bytes
        .split_at_checked(count as usize)
        .ok_or(OpenError::Number(section, VbError::Cut))
}

/// The text of 1 to 255 bytes that stands, behind the number of its bytes, at the front of some bytes of a section,
/// and what follows it.
///
/// `Number`, with this section, if the number is no code, or if there are fewer bytes; the error that is handed
/// in if the number is not 1 to 255; `Text` if the bytes are not UTF-8.
pub(crate) fn read_text(
    section: Section,
    wrong_size: OpenError,
    bytes: &[u8],
) -> Result<(&str, &[u8]), OpenError>
    ensures found { IfOk result (λ read. IsTerm read.0.now
        × (bytes.now ≡ counted read.0.now ++ read.1.now)) }
    ensures refused { OnErr result ((text rest : List ℕ) → IsTerm text → bytes.now ≢ counted text
        ++ rest) }
{
    let (count, rest) = read_number(section, bytes)?;
    if count == 0 || count > MAX_TERM_BYTES {
        return Err(wrong_size);
    }
    let (text, rest) = read_bytes(section, count, rest)?;
    let Ok(text) = from_utf8(text) else {
        return Err(OpenError::Text);
    };
    Ok((text, rest))
}

//! The number whose code stands at the front of some bytes.
ghost use Rattle.std.specs.Prelude.{◌≡◌, ◌↔◌, ℕ, ◌+◌, ◌<◌, ◌≤◌, ◌^◌, ◌++◌, List, length, drop, IfOk, IsErr, IsErrOf};
ghost use Rattle.ix_vbyte.specs.Code.{code_of};
ghost use Rattle.ix_vbyte.specs.Reading.{StartsWithCode, StartsWithZero, IsTooBig, IsCut};
ghost use Rattle.ix_vbyte.specs.Decoded.{Finds};
ghost use Rattle.ix_vbyte.specs.Walking.{BeginsWithNumber, ReadsNumber};

use crate::VbError;

/// The number whose code the bytes begin with, and the count of the code's bytes. What follows the
/// code is not looked at.
///
/// # Errors
/// * `LeadingZero` if the first byte is `00`.
/// * `TooBig` if the bytes come to more than 2^32 - 1 before one of them ends the code.
/// * `Cut` if no byte ends the code, also if there is no byte.
#[inline]
pub fn decode(bytes: &[u8]) -> Result<(u32, usize), VbError>
    ensures found { (n count : ℕ) → (result ≡ Ok (n, count)) ↔ StartsWithCode bytes.now n count }
    ensures leading_zero { IsErrOf result VbError.LeadingZero ↔ StartsWithZero bytes.now }
    ensures too_big { IsErrOf result VbError.TooBig ↔ IsTooBig bytes.now }
    ensures cut { IsErrOf result VbError.Cut ↔ IsCut bytes.now }

    // The same in words for callers.
    ensures refused { IsErr result ↔ ((n count : ℕ) → ¬ StartsWithCode bytes.now n count) }
    ensures front { IfOk result (λ r. bytes.now ≡ code_of r.0 ++ drop r.1 bytes.now) }
    ensures count { IfOk result (λ r. r.1 ≡ length (code_of r.0)) }
    ensures size { IfOk result (λ r. (0 < r.1) × (r.1 ≤ 5) × (r.1 ≤ length bytes.now)) }
    ensures written { (n : ℕ) (rest : List ℕ) → n < 2 ^ 32 → bytes.now ≡ code_of n ++ rest
        → result ≡ Ok (n, length (code_of n)) }
{
    read(bytes)
}

/// The number whose code the bytes are known to begin with, and what follows the code. Codes of one and two bytes take
/// no call.
#[inline(always)]
pub fn first_number(bytes: &[u8]) -> (u32, &[u8])
    requires { BeginsWithNumber bytes.now }
    ensures { ReadsNumber bytes.now result.0 result.1.now }
{
    if bytes.len() < 2 {
        return long_number(bytes);
    }
    let first = bytes[0];
    let second = bytes[1];
    if first >= 128 {
        return (u32::from(first % 128), &bytes[1..]);
    }
    if second >= 128 {
        return (
            u32::from(first) * 128 + u32::from(second % 128),
            &bytes[2..],
        );
    }
    long_number(bytes)
}

/// The same of a code of any length.
#[cold]
#[inline(never)]
fn long_number(bytes: &[u8]) -> (u32, &[u8])
    requires { BeginsWithNumber bytes.now }
    ensures { ReadsNumber bytes.now result.0 result.1.now }
{
    match decode(bytes) {
        Ok((number, count)) => (number, &bytes[count..]),
        Err(_) => unreachable!(),
    }
}

/// The same, as what was found in one fact.
#[tactic(auto, using(crate::proofs::Fronts::reads))]
fn read(bytes: &[u8]) -> Result<(u32, usize), VbError>
    ensures { Finds bytes.now result }
{
    let Some(&first) = bytes.first() else {
        return Err(VbError::Cut);
    };
    if first == 0 {
        return Err(VbError::LeadingZero);
    }
    let mut number: u32 = 0;
    for (place, &byte) in bytes.iter().enumerate() {
        if number >= 1 << 25 {
            return Err(VbError::TooBig);
        }
        number = number * 128 + u32::from(byte % 128);
        if byte >= 128 {
            return Ok((number, place + 1));
        }
    }
    Err(VbError::Cut)
}

//! A number that is not 0.
ghost use Rattle.std.specs.Prelude.{◌≡◌, ◌≢◌, ◌<◌, ◌^◌, ◌++◌, List, ℕ, IfOk, IfErr, MatchResult, drop};
ghost use Rattle.ix_vbyte.specs.Code.{code_of};
ghost use Rattle.ix_vbyte.specs.ShortPostings.{BeginsWithShort};
ghost use Rattle.ix_postings.specs.CheckedLists.{IsCutShort};
ghost use Rattle.ix_postings.specs.declared.list_fault.ListFault.TheVariants.{Memory};

use crate::ListFault;
use ix_vbyte::{decode, short_number};

/// Returns the number above 0 whose code the bytes begin with, and how many bytes the code has.
///
/// # Errors
/// `Zero` if it is 0; `Number` if the code is faulty, or the bytes do not end it.
#[inline(always)]
pub(crate) fn some_number(bytes: &[u8]) -> Result<(u32, usize), ListFault>
    ensures found { IfOk result (λ found. BeginsWithShort bytes.now found.0 found.1) }
    ensures accepted { (number : ℕ) (missing rest : List ℕ) → 0 < number → number < 2 ^ 32
        → bytes.now ++ missing ≡ code_of number ++ rest
        → MatchResult result (λ found. (found.0 ≡ number)
        × (drop found.1 bytes.now ++ missing ≡ rest)) (IsCutShort bytes.now (code_of number)) }
    ensures sparing { IfErr result (λ fault. fault ≢ Memory) }
{
    match short_number(bytes) {
        Some(found) => Ok(found),
        None => long_number(bytes),
    }
}

/// The same of a code of any length. Few numbers come here, so it stays a call.
#[cold]
#[inline(never)]
fn long_number(bytes: &[u8]) -> Result<(u32, usize), ListFault>
    ensures found { IfOk result (λ found. BeginsWithShort bytes.now found.0 found.1) }
    ensures accepted { (number : ℕ) (missing rest : List ℕ) → 0 < number → number < 2 ^ 32
        → bytes.now ++ missing ≡ code_of number ++ rest
        → MatchResult result (λ found. (found.0 ≡ number)
        × (drop found.1 bytes.now ++ missing ≡ rest)) (IsCutShort bytes.now (code_of number)) }
    ensures sparing { IfErr result (λ fault. fault ≢ Memory) }
{
    match decode(bytes) {
        Ok((0, _)) => Err(ListFault::Zero),
        Ok(found) => Ok(found),
        Err(fault) => Err(ListFault::Number(fault)),
    }
}

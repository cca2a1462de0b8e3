//! Reading what stands in a run text before its terms.
ghost use Rattle.std.specs.Prelude.{OnOk, codes, ◌≡◌, ◌<◌, ◌^◌, ◌++◌, List, ℕ, length, string_bytes, Some, IfOk, MatchResult};
ghost use Rattle.std.specs.Int.{to_le_bytes, w32};
ghost use Rattle.std.specs.Io.KnownBytes.{Consumes};
ghost use Rattle.ix_text.specs.Terms.{IsTerm};
ghost use Rattle.ix_vbyte.specs.Texts.{counted};
ghost use Rattle.ix_run_text.specs.Heads.{Heading, IsLawfulHeading, heading_of};
ghost use Rattle.ix_run_text.specs.Inputs.{known_left};
ghost use Rattle.ix_run_text.specs.RunText.{heading_bytes};
ghost use Rattle.ix_run_text.specs.RunTextErrors.{IsRefusal};

use crate::input::Input;
use crate::rows::read_rows;
use crate::stop_terms::read_stop_list;
use crate::{RunHead, RunTextError};
use ix_text::{MAX_DOCUMENTS, MAX_TERM_BYTES};
use std::alloc::Global;
use std::io::Read;

/// More bytes than any code has.
pub(crate) const CODE_LIMIT: usize = 8;

/// The eight bytes with which a run text begins.
const MAGIC: [u8; 8] = *b"PIIXRUN1";

/// Takes what stands before the terms of a run text.
///
/// `Magic` where the first eight bytes are others or are missing; `TooLarge` where the first document number plus the
/// number of documents is above 2^28; then the errors of the stop terms and of the documents, in order.
pub(crate) fn read_head<R: Read>(
    alloc: Global,
    input: &mut Input<R>,
) -> Result<RunHead, RunTextError>
    ensures taken { IfOk result (λ head.
        Consumes (known_left R.remaining input.old) (known_left R.remaining input.new)
        (heading_bytes (heading_of head))) }
    ensures lawful { IfOk result (λ head. IsLawfulHeading (heading_of head)) }
    ensures accepted { (heading : Heading) (rest : List ℕ) → IsLawfulHeading heading
        → known_left R.remaining input.old ≡ Some (heading_bytes heading ++ rest)
        → MatchResult result (λ head. (heading_of head ≡ heading)
        × (known_left R.remaining input.new ≡ Some rest)) IsRefusal }
{
    read_magic(alloc, input)?;
    let first = read_fixed(alloc, input)?;
    let count = read_fixed(alloc, input)?;
    if u64::from(first) + u64::from(count) > u64::from(MAX_DOCUMENTS) {
        return Err(RunTextError::TooLarge);
    }
    let stop = read_stop_list(alloc, input)?;
    let docs = read_rows(alloc, input, count)?;
    Ok(RunHead { first, stop, docs })
}

/// Takes the first eight bytes.
fn read_magic<R: Read>(alloc: Global, input: &mut Input<R>) -> Result<(), RunTextError>
    ensures taken { OnOk result (Consumes (known_left R.remaining input.old)
        (known_left R.remaining input.new) (codes "PIIXRUN1")) }
    ensures accepted { (rest : List ℕ) → known_left R.remaining input.old
        ≡ Some (codes "PIIXRUN1" ++ rest)
        → MatchResult result (λ _. known_left R.remaining input.new ≡ Some rest) IsRefusal }
{
    let mut bytes = Vec::new(alloc);
    match input.take(MAGIC.len(), &mut bytes) {
        Ok(()) => {}
        Err(RunTextError::Number(_)) => return Err(RunTextError::Magic),
        Err(error) => return Err(error),
    }
    if bytes.as_slice() != MAGIC.as_slice() {
        return Err(RunTextError::Magic);
    }
    Ok(())
}

/// Takes a number of four bytes, the least significant first.
fn read_fixed<R: Read>(alloc: Global, input: &mut Input<R>) -> Result<u32, RunTextError>
    ensures taken { IfOk result (λ number.
        Consumes (known_left R.remaining input.old) (known_left R.remaining input.new)
        (to_le_bytes w32 number)) }
    ensures accepted { (number : ℕ) (rest : List ℕ) → number < 2 ^ 32
        → known_left R.remaining input.old ≡ Some (to_le_bytes w32 number ++ rest)
        → MatchResult result (λ read. (read ≡ number)
        × (known_left R.remaining input.new ≡ Some rest)) IsRefusal }
{
    let mut bytes = Vec::new(alloc);
    input.take(4, &mut bytes)?;
    Ok(u32::from_le_bytes([bytes[0], bytes[1], bytes[2], bytes[3]]))
}

/// Takes a text of 1 to 255 bytes behind the code of that number.
///
/// `size_fault` where the number is another one; `Text` where the bytes are not UTF-8.
pub(crate) fn read_counted_text<R: Read>(
    alloc: Global,
    input: &mut Input<R>,
    size_fault: RunTextError,
) -> Result<String, RunTextError>
    ensures taken { IfOk result (λ text.
        Consumes (known_left R.remaining input.old) (known_left R.remaining input.new)
        (counted (string_bytes text))) }
    ensures term { IfOk result (λ text. IsTerm (string_bytes text)) }
    ensures accepted { (text rest : List ℕ) → IsTerm text
        → known_left R.remaining input.old ≡ Some (counted text ++ rest)
        → MatchResult result (λ read. (string_bytes read ≡ text)
        × (known_left R.remaining input.new ≡ Some rest)) IsRefusal }
{
    let (length, _) = input.code(CODE_LIMIT)?;
    if length == 0 || length > MAX_TERM_BYTES {
        return Err(size_fault);
    }
    let mut bytes = Vec::new(alloc);
    input.take(length as usize, &mut bytes)?;
    match String::from_utf8(bytes) {
        Ok(text) => Ok(text),
        Err(_) => Err(RunTextError::Text),
    }
}

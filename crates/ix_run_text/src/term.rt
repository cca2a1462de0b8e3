//! Reading what stands before a term's list of postings in a run text.
ghost use Rattle.std.specs.Prelude.{◌≡◌, ◌<◌, ◌≤◌, ◌^◌, ◌++◌, List, [], ◌∷◌, ℕ, length, string_bytes, Some, None, IfOk, IfErr, OnOk, IfNone, IfSome, MatchOption, MatchResult};
ghost use Rattle.std.specs.Io.KnownBytes.{Consumes, IsAtEnd};
ghost use Rattle.ix_vbyte.specs.Code.{code_of};
ghost use Rattle.ix_vbyte.specs.Texts.{counted};
ghost use Rattle.ix_run_text.specs.Inputs.{known_left};
ghost use Rattle.ix_run_text.specs.ReadTerms.{TermFits, TextFits};
ghost use Rattle.ix_run_text.specs.RunTextErrors.{IsRefusal};

use crate::RunTextError;
use crate::heading::CODE_LIMIT;
use crate::input::Input;
use ix_text::{MAX_TERM_BYTES, StopList};
use std::io::Read;
use std::str::from_utf8;

/// The numbers that stand behind a term: of its documents, and of the bytes of its list.
#[derive(Clone, Copy)]
pub(crate) struct TermCounts {
    pub(crate) documents: u32,
    pub(crate) bytes: u32,
}

/// Takes the next term into `term`, which holds the term before, or nothing before the first, and the two numbers
/// behind it. None: the end mark was taken, and the input is at its end.
///
/// `Extra` where a byte stands behind the end mark; of a term, in this order, `TermSize` above 255 bytes, `Text`,
/// `TermOrder` where it does not stand above the term before, `StopIndexed` where it is a stop term, and `Zero` where
/// it has no document. After an error any text may stand in `term`.
pub(crate) fn read_term<R: Read>(
    input: &mut Input<R>,
    stop: &StopList,
    scratch: &mut Vec<u8>,
    term: &mut String,
) -> Result<Option<TermCounts>, RunTextError>
    ensures taken { IfOk result (λ found.
        MatchOption found (Consumes (known_left R.remaining input.old)
        (known_left R.remaining input.new) (128 ∷ []))
        (λ counts. Consumes (known_left R.remaining input.old) (known_left R.remaining input.new)
        (counted (string_bytes term.new) ++ (code_of counts.documents ++ code_of counts.bytes)))) }
    ensures end { IfOk result (λ found. IfNone found (IsAtEnd (known_left R.remaining input.new)
        × (string_bytes term.new ≡ string_bytes term.old))) }
    ensures fits { IfOk result (λ found.
        IfSome found (λ counts. TermFits stop.now (string_bytes term.old)
        (string_bytes term.new) counts.documents counts.bytes)) }
    ensures accepted { (text : List ℕ) (documents bytes : ℕ) (rest : List ℕ)
        → TermFits stop.now (string_bytes term.old) text documents bytes
        → known_left R.remaining input.old
        ≡ Some (counted text ++ (code_of documents ++ (code_of bytes ++ rest)))
        → MatchResult result (λ found. MatchOption found ⊥ (λ counts. (string_bytes term.new ≡ text)
        × (counts.documents ≡ documents)
        × (counts.bytes ≡ bytes) × (known_left R.remaining input.new ≡ Some rest))) IsRefusal }
    ensures ended { known_left R.remaining input.old ≡ Some (128 ∷ [])
        → MatchResult result (λ found. found ≡ None) IsRefusal }
{
    let (size, _) = input.code(CODE_LIMIT)?;
    if size == 0 {
        check_end(input)?;
        return Ok(None);
    }
    read_text(input, stop, size, scratch, term)?;
    let counts = read_counts(input)?;
    Ok(Some(counts))
}

/// Sees that no byte is left: `Extra` where one is.
fn check_end<R: Read>(input: &mut Input<R>) -> Result<(), RunTextError>
    ensures taken { OnOk result (Consumes (known_left R.remaining input.old)
        (known_left R.remaining input.new) []) }
    ensures end { OnOk result (IsAtEnd (known_left R.remaining input.new)) }
    ensures accepted { known_left R.remaining input.old ≡ Some []
        → MatchResult result (λ _. known_left R.remaining input.new ≡ Some []) IsRefusal }
{
    match input.byte()? {
        None => Ok(()),
        Some(_) => Err(RunTextError::Extra),
    }
}

/// Takes a term of so many bytes.
fn read_text<R: Read>(
    input: &mut Input<R>,
    stop: &StopList,
    size: u32,
    scratch: &mut Vec<u8>,
    term: &mut String,
) -> Result<(), RunTextError>
    requires { 0 < size }
    ensures taken { OnOk result (Consumes (known_left R.remaining input.old)
        (known_left R.remaining input.new) (string_bytes term.new)) }
    ensures size { OnOk result (length (string_bytes term.new) ≡ size) }
    ensures fits { OnOk result (TextFits stop.now (string_bytes term.old) (string_bytes term.new)) }
    ensures accepted { (text rest : List ℕ) → TextFits stop.now (string_bytes term.old) text
        → size ≡ length text
        → known_left R.remaining input.old ≡ Some (text ++ rest)
        → MatchResult result (λ _. (string_bytes term.new ≡ text)
        × (known_left R.remaining input.new ≡ Some rest)) IsRefusal }
{
    if size > MAX_TERM_BYTES {
        return Err(RunTextError::TermSize);
    }
    input.take(size as usize, scratch)?;
    set_term(scratch, stop, term)
}

/// Puts the term of these bytes into `term`, in place of the one before: `Text` where they are not UTF-8, `TermOrder` where it
/// does not stand above the one before, `StopIndexed` where it is a stop term. After an error any text may stand in `term`.
#[inline]
fn set_term(bytes: &[u8], stop: &StopList, term: &mut String) -> Result<(), RunTextError>
    requires some { 0 < length bytes.now }
    requires short { length bytes.now ≤ 255 }
    ensures set { OnOk result (string_bytes term.new ≡ bytes.now) }
    ensures fits { OnOk result (TextFits stop.now (string_bytes term.old) (string_bytes term.new)) }
    ensures accepted { TextFits stop.now (string_bytes term.old) bytes.now
        → IfErr result IsRefusal }
{
    let Ok(text) = from_utf8(bytes) else {
        return Err(RunTextError::Text);
    };
    if text <= term.as_str() {
        return Err(RunTextError::TermOrder);
    }
    if stop.contains(text) {
        return Err(RunTextError::StopIndexed);
    }
    term.clear();
    term.push_str(text)?;
    Ok(())
}

/// Takes the two numbers behind a term: `Zero` where the first is 0.
fn read_counts<R: Read>(input: &mut Input<R>) -> Result<TermCounts, RunTextError>
    ensures taken { IfOk result (λ counts.
        Consumes (known_left R.remaining input.old) (known_left R.remaining input.new)
        (code_of counts.documents ++ code_of counts.bytes)) }
    ensures some { IfOk result (λ counts. 0 < counts.documents) }
    ensures fit { IfOk result (λ counts. (counts.documents < 2 ^ 32) × (counts.bytes < 2 ^ 32)) }
    ensures accepted { (documents bytes : ℕ) (rest : List ℕ) → 0 < documents → documents < 2 ^ 32
        → bytes < 2 ^ 32
        → known_left R.remaining input.old ≡ Some (code_of documents ++ (code_of bytes ++ rest))
        → MatchResult result (λ counts. (counts.documents ≡ documents) × (counts.bytes ≡ bytes)
        × (known_left R.remaining input.new ≡ Some rest)) IsRefusal }
{
    let (documents, _) = read_positive(input, CODE_LIMIT)?;
    let (bytes, _) = input.code(CODE_LIMIT)?;
    Ok(TermCounts { documents, bytes })
}

/// Takes a number of at most `limit` bytes. Returns it and how many bytes it has.
///
/// # Errors
/// `Zero` if it is 0; the errors of `Input::code`.
fn read_positive<R: Read>(input: &mut Input<R>, limit: usize) -> Result<(u32, usize), RunTextError>
    ensures taken { IfOk result (λ found.
        Consumes (known_left R.remaining input.old) (known_left R.remaining input.new)
        (code_of found.0)) }
    ensures some { IfOk result (λ found. 0 < found.0) }
    ensures accepted { (number : ℕ) (rest : List ℕ) → 0 < number → number < 2 ^ 32
        → length (code_of number) ≤ limit
        → known_left R.remaining input.old ≡ Some (code_of number ++ rest)
        → MatchResult result (λ found. (found.0 ≡ number)
        × (known_left R.remaining input.new ≡ Some rest)) IsRefusal }
{
    let (number, bytes) = input.code(limit)?;
    if number == 0 {
        return Err(RunTextError::Zero);
    }
    Ok((number, bytes))
}

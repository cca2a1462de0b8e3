//! Reading removals.
ghost use Rattle.std.specs.Prelude.{◌≡◌, ◌≢◌, ◌↔◌, ◌++◌, ◌∷◌, ◌<◌, ◌^◌, ℕ, List, decimal, All, Contains, IfErr, IfNone, IfOk, IfSome, IsTrue, MatchOption, MatchResult, slice_index};
ghost use Rattle.std.specs.Int.{IsInRange};
ghost use Rattle.ix_text.specs.CollectionFaults.{IsCutAtFirst};
ghost use Rattle.ix_text.specs.Collections.{IsName};
ghost use Rattle.ix_removals.specs.RemovalFaults.{IsFault};
ghost use Rattle.ix_removals.specs.RemovalsText.{AreRemovals, IsRemoval, Removal, line_of, removals_text};
ghost use Rattle.ix_removals.specs.declared.removals_error.RemovalsError.TheVariants.{Memory};

use crate::{Removals, RemovalsError};
use ix_text::{MAX_NAME_BYTES, is_unbroken};
use memchr::memchr;
use std::alloc::Global;
use std::str::from_utf8;

/// Reads the text of removals.
///
/// # Errors
/// * `Line` if the bytes are not such a text, with the number of the first line that is not as it should be behind those
///   before it, from 1.
/// * `Memory` if out of memory.
pub fn read(alloc: Global, bytes: &[u8]) -> Result<Removals, RemovalsError>
    ensures found { IfOk result (λ removals.
        AreRemovals removals × (bytes.now ≡ removals_text removals)) }
    ensures exact { (removals : List Removal) → AreRemovals removals
        → bytes.now ≡ removals_text removals
        → MatchResult result (λ found. found ≡ removals) (λ error. error ≡ Memory) }
    ensures fault { IfErr result (IsFault bytes.now) }
{
    let mut removals = Removals::new(alloc);
    let mut left = bytes;
    while !left.is_empty() {
        let line = removals.len() as u64 + 1;
        let Some((below, name, rest)) = scan_line(left) else {
            return Err(RemovalsError::Line(line));
        };
        if !removals.is_below(name) {
            return Err(RemovalsError::Line(line));
        }
        removals.add(alloc, name, below)?;
        left = rest;
    }
    Ok(removals)
}

/// The bound and the name of a first line that is a removal's, and what is behind the line.
fn scan_line(bytes: &[u8]) -> Option<(u64, &str, &[u8])>
    ensures found { IfSome result (λ found.
        let removal : Removal = record { name = found.1.now; below = found.0 } in
        IsRemoval removal × (bytes.entry.now ≡ line_of removal ++ found.2.now)) }
    ensures none { IfNone result ((removal : Removal) (rest : List ℕ) → IsRemoval removal
        → bytes.entry.now ≢ line_of removal ++ rest) }
{
    let (line, rest) = cut_line(bytes)?;
    let Ok(text) = from_utf8(line) else {
        return None;
    };
    let (digits, name) = text.split_once('\t')?;
    let below = scan_number(digits)?;
    if is_name(name) {
        Some((below, name, rest))
    } else {
        None
    }
}

/// The first line without its LF, and what is behind the LF.
fn cut_line(bytes: &[u8]) -> Option<(&[u8], &[u8])>
    ensures { MatchOption result
        (¬ (Contains bytes.entry.now 10))
        (λ parts. IsCutAtFirst bytes.entry.now 10 parts.0.now parts.1.now) }
{
    let end = memchr(b'\n', bytes)?;
    Some((&bytes[..end], &bytes[end + 1..]))
}

/// The number of decimal digits without leading zeros that is not 0.
fn scan_number(digits: &str) -> Option<u64>
    ensures found { IfSome result (λ number.
        (0 < number) × (number < 2 ^ 64) × (digits.now ≡ decimal number)) }
    ensures none { IfNone result ((number : ℕ) → 0 < number → number < 2 ^ 64
        → digits.now ≢ decimal number) }
{
    let Ok(number) = digits.parse::<u64>() else {
        return None;
    };
    if begins_with_digit(digits) {
        Some(number)
    } else {
        None
    }
}

/// Whether the first byte of a text is a decimal digit that is not 0.
fn begins_with_digit(text: &str) -> bool
    ensures { IsTrue result ↔ IsInRange 49 57 (slice_index text.now 0) }
{
    match text.as_bytes().first() {
        Some(first) => *first >= b'1' && *first <= b'9',
        None => false,
    }
}

/// Whether a text can be the name of a document.
pub fn is_name(name: &str) -> bool
    ensures { IsTrue result ↔ IsName name.now }
{
    !name.is_empty() && name.len() <= MAX_NAME_BYTES as usize && is_unbroken(name)
}

/// Whether each of these texts can be the name of a document.
pub fn are_names(names: &[&str]) -> bool
    ensures { IsTrue result ↔ All (λ name. IsName name.now) names.now }
{
    for name in names {
        if !is_name(name) {
            return false;
        }
    }
    true
}

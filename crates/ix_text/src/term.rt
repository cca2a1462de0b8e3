ghost use Rattle.std.specs.Prelude.{◌≡◌, ◌↔◌, ℕ, ◌<◌, ◌⊎◌, List, All, map, chars, encode_utf8_all, string_bytes, IsTrue, IfOk, OnOk};
ghost use Rattle.std.specs.Char.{to_ascii_lowercase};
ghost use Rattle.std.specs.List.{list_any};
ghost use Rattle.caseless.specs.Caseless.{IsCanonicalMatch, default_case_fold};
ghost use Rattle.unicode_normalization.specs.Forms.{nfc};
ghost use Rattle.ix_text.specs.IotaSubscript.{may_hold_iota};
ghost use Rattle.ix_text.specs.Terms.{folded, term_of_word};

use crate::Memory;
use caseless::default_case_fold_str;
use std::alloc::Global;
use unicode_normalization::{QuickCheck, is_nfc_quick, to_nfc, to_nfd};

/// The term of a word: NFC of the full default case folding of NFD of the word (UAX #15; The Unicode Standard,
/// section 3.13). An ASCII word takes one pass, and a word is decomposed first only where that may change its term.
/// Fails where memory is refused.
pub fn term_of(alloc: Global, word: &str) -> Result<String, Memory>
    ensures { IfOk result (λ term. string_bytes term ≡ term_of_word word.now) }
{
    if is_small_ascii(word) {
        return String::from_str(alloc, word);
    }
    if word.is_ascii() {
        return lowercase(alloc, word);
    }
    if has_iota_below(word) {
        let decomposed = to_nfd(alloc, word)?;
        return fold(alloc, decomposed.as_str());
    }
    fold(alloc, word)
}

/// Makes the text the term of the word, over what it held. After `Memory` it holds some text.
pub(crate) fn write_term(alloc: Global, term: &mut String, word: &str) -> Result<(), Memory>
    ensures { OnOk result (string_bytes term.new ≡ term_of_word word.now) }
{
    if word.is_ascii() {
        term.clear();
        term.push_str(word)?;
        term.make_ascii_lowercase();
    } else {
        *term = term_of(alloc, word)?;
    }
    Ok(())
}

/// Whether the text is ASCII without a capital letter.
fn is_small_ascii(text: &str) -> bool
    ensures { IsTrue result ↔ All (λ byte. (byte < 65) ⊎ ((90 < byte) × (byte < 128))) text.now }
{
    text.as_bytes()
        .iter()
        .all(|byte| *byte < b'A' || (b'Z' < *byte && *byte < 128))
}

fn lowercase(alloc: Global, word: &str) -> Result<String, Memory>
    ensures { IfOk result (λ term. string_bytes term ≡ map to_ascii_lowercase word.now) }
{
    let mut term = String::from_str(alloc, word)?;
    term.make_ascii_lowercase();
    Ok(term)
}

/// Whether a character of the text is U+0345 or may decompose to it.
fn has_iota_below(text: &str) -> bool
    ensures { result ≡ list_any may_hold_iota (chars text.now) }
{
    text.chars().any(|c| may_hold_iota(c))
}

fn may_hold_iota(c: char) -> bool
    ensures { result ≡ may_hold_iota c }
{
    c == '\u{345}' || ('\u{1f80}' <= c && c <= '\u{1fff}')
}

/// NFC of the full case folding of the text.
fn fold(alloc: Global, text: &str) -> Result<String, Memory>
    ensures { IfOk result
        (λ term. string_bytes term ≡ encode_utf8_all (nfc (default_case_fold (chars text.now)))) }
{
    let folded = default_case_fold_str(alloc, text)?;
    match is_nfc_quick(folded.as_str().chars()) {
        QuickCheck::Yes => Ok(folded),
        QuickCheck::No | QuickCheck::Maybe => to_nfc(alloc, folded.as_str()),
    }
}

/// A law: two words have equal terms exactly where they match canonically without case (The Unicode Standard, D145).
pub fn equal_terms_match()
    ensures characters { (a b : List ℕ) → (folded a ≡ folded b) ↔ IsCanonicalMatch a b }
    ensures words { (a b : List ℕ) → (term_of_word a ≡ term_of_word b)
        ↔ IsCanonicalMatch (chars a) (chars b) }
{}

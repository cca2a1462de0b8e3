//! Scanning the fields of a line.
ghost use Rattle.std.specs.Prelude.{◌≡◌, ◌≢◌, ◌<◌, ◌^◌, ◌++◌, ◌∷◌, ℕ, List, length, decimal, IsSomeAnd, IfSome, MatchOption};
ghost use Rattle.hex.specs.Hex.{IsBytes, encode_lower};
ghost use Rattle.ix_manifest.specs.ManifestText.{AreFields, fields_text};

use crate::Removals;
use hex::FromHex;

/// What is behind a word at the front of a text.
pub fn rest_after<'t>(text: &'t str, word: &str) -> Option<&'t str>
    ensures { MatchOption result
        ((rest : List ℕ) → text.entry.now ≢ word.now ++ rest)
        (λ rest. text.entry.now ≡ word.now ++ rest.now) }
{
    text.strip_prefix(word)
}

/// The number at the front of a text, and what is behind the mark that ends it.
pub fn scan_number(text: &str, mark: char) -> Option<(u64, &str)>
    requires { mark < 48 }
    ensures exact { (number : ℕ) (rest : List ℕ) → number < 2 ^ 64
        → text.entry.now ≡ decimal number ++ mark ∷ rest
        → IsSomeAnd result (λ found. (found.0 ≡ number) × (found.1.now ≡ rest)) }
    ensures shorter { IfSome result (λ found. length found.1.now < length text.entry.now) }
{
    let Some((digits, rest)) = text.split_once(mark) else {
        return None;
    };
    let Ok(number) = digits.parse::<u64>() else {
        return None;
    };
    Some((number, rest))
}

/// The digest at the front of a text, and what is behind the LF that ends it.
fn scan_digest(text: &str) -> Option<([u8; 32], &str)>
    ensures exact { (digest rest : List ℕ) → length digest ≡ 32 → IsBytes digest
        → text.entry.now ≡ encode_lower digest ++ 10 ∷ rest
        → IsSomeAnd result (λ found. (found.0 ≡ digest) × (found.1.now ≡ rest)) }
    ensures shorter { IfSome result (λ found. length found.1.now < length text.entry.now) }
{
    let Some((digits, rest)) = text.split_once('\n') else {
        return None;
    };
    let Ok(digest) = <[u8; 32]>::from_hex(digits) else {
        return None;
    };
    Some((digest, rest))
}

/// The fields of a line, and what is behind the line. They are read as those of the removals.
pub fn scan_fields(text: &str) -> Option<(Removals, &str)>
    ensures exact { (next file count bytes : ℕ) (digest rest : List ℕ)
        → next < 2 ^ 64 → AreFields next file count bytes digest
        → text.entry.now ≡ fields_text file count bytes digest ++ rest
        → IsSomeAnd result (λ found. (found.0 ≡ record {
          file = file;
          count = count;
          bytes = bytes;
          digest = digest;
        })
        × (found.1.now ≡ rest)) }
    ensures shorter { IfSome result (λ found. length found.1.now < length text.entry.now) }
{
    let (file, left) = scan_number(text, ' ')?;
    let (count, left) = scan_number(left, ' ')?;
    let (bytes, left) = scan_number(left, ' ')?;
    let (digest, left) = scan_digest(left)?;
    Some((
        Removals {
            file,
            count,
            bytes,
            digest,
        },
        left,
    ))
}

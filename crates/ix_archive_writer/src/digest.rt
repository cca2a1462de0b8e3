//! How many bytes a file has, and their digest.

ghost use Rattle.std.specs.Prelude.{◌≡◌, ℕ, List, Some, length, IfErr, IfOk, IfSome};
ghost use Rattle.sha2.specs.Sha256.{sha256};
ghost use Rattle.ix_files.specs.Locations.{place_of};
ghost use Rattle.ix_files.specs.Opened.{IsReadError};
ghost use Rattle.ix_files.specs.Slots.{Kept};

use ix_files::{FileError, Files, Location, ReadAt};
use sha2::{Digest, Sha256};
use std::alloc::Global;

/// How many bytes are read at once.
const PIECE_BYTES: usize = 1 << 18;

/// How many bytes there are, and their SHA-256.
#[derive(Clone, Copy, Debug, PartialEq, Eq)]
pub struct Digested {
    /// The number of bytes.
    pub bytes: u64,
    /// Their SHA-256.
    pub digest: [u8; 32],
}

/// How many bytes a source has, and their SHA-256. It is read in pieces.
///
/// # Errors
/// `Memory`; `Failed`.
pub fn digest_of<S: ReadAt>(alloc: Global, source: &S) -> Result<Digested, FileError>
    ensures told { (bytes : List ℕ) → S.contents source.now ≡ Some bytes
        → IfOk result (λ found. (found.bytes ≡ length bytes) × (found.digest ≡ sha256 bytes)) }
    ensures error { IfErr result (IsReadError (Unit {0})) }
{
    let size = source.size()?;
    let mut hasher = Sha256::new();
    let mut piece = Vec::new(alloc);
    let mut start = 0;
    while start < size {
        let count = PIECE_BYTES.min(size - start);
        piece.clear();
        source.append_at(&mut piece, start, count)?;
        hasher.update(piece.as_slice());
        start += count;
    }
    let digest = hasher.finalize();
    Ok(Digested {
        bytes: size as u64,
        digest,
    })
}

/// The same of the file of a name, if there is one.
///
/// # Errors
/// `Memory`; `Failed`.
pub(crate) fn digest_at<F: Files>(
    alloc: Global,
    files: &F,
    at: &Location,
) -> Result<Option<Digested>, FileError>
    ensures told { IfOk result (λ found. IfSome found (λ digested. (F.view files.now).honest
        → (text : List ℕ) → ((F.view files.now).slots (place_of at.now)).now ≡ Kept text
        → (digested.bytes ≡ length text) × (digested.digest ≡ sha256 text))) }
    ensures error { IfErr result (IsReadError (Unit {0})) }
{
    let Some(source) = files.open_at(at)? else {
        return Ok(None);
    };
    let digested = digest_of(alloc, &source)?;
    Ok(Some(digested))
}

//! What no clause says of building: that the calls answer, in the worked cases, and that workers run side by side.

mod folders;
mod makers;
mod plans;
mod stores;

use ix_build::Watch;
use std::io::{self, Write};
use std::sync::atomic::AtomicU64;
use std::sync::atomic::Ordering::SeqCst;

/// Five documents, whose texts have 3, 1, 0, 5 and 1 bytes.
const FIVE_DOCUMENTS: &[u8] = b"a\tx y\nb\ty\nc\t\nd\ty x y\ne\tx\n";

/// The index text of the five documents, of version 2.
const FIVE_DOCUMENTS_INDEX: &[u8] =
    b"PIIX0002\x81\x81\x81\x83\x81\x82\x81\x81\x81\x81\x81\x82\x81\x81\x81\x82\x82\x81\x82\
      \x81a\x82\x81b\x81\x81c\x80\x81d\x83\x81e\x81\
      \x81x\x83\x89\x80\x81y\x83\x8a\
      \x83$x$\x81\x81\x83$y$\x81\x82\
      \x13\0\0\0\0\0\0\0\0\0\0\0\0\0\0\0\x0f\0\0\0\0\0\0\0\x09\0\0\0\0\0\0\0\x0c\0\0\0\0\0\0\0\
      \x05\0\0\0\x02\0\0\0PIIXEND2";

/// The five documents. It tells no proof which bytes these are, and so costs none.
fn five_documents() -> &'static [u8] {
    FIVE_DOCUMENTS
}

/// The index text of the five documents, likewise.
fn five_documents_index() -> &'static [u8] {
    FIVE_DOCUMENTS_INDEX
}

/// How often one looks at most, before it gives up waiting for the others.
const TURNS: u64 = 1 << 30;

/// Waits until so many calls were begun, or for all turns.
fn have_begun(begun: &AtomicU64, wanted: u64) -> bool {
    for _ in 0..TURNS {
        if begun.load(SeqCst) >= wanted {
            return true;
        }
    }
    false
}

/// Counts the calls that return once so many were begun, but not those that wait in vain. Keeps of how many blocks in all it was
/// told last.
#[derive(Drop)]
struct Counts {
    begun: AtomicU64,
    met: AtomicU64,
    blocks: AtomicU64,
    wanted: u64,
}

impl Counts {
    fn new(wanted: u64) -> Counts {
        Counts {
            begun: AtomicU64::new(0),
            met: AtomicU64::new(0),
            blocks: AtomicU64::new(0),
            wanted,
        }
    }

    /// How many calls did not wait in vain, and of how many blocks the last one told.
    fn told(&self) -> (u64, u64) {
        (self.met.load(SeqCst), self.blocks.load(SeqCst))
    }
}

impl Watch for Counts {
    fn inverted(&self, blocks: usize) {
        self.begun.fetch_add(1, SeqCst);
        self.blocks.store(blocks as u64, SeqCst);
        if have_begun(&self.begun, self.wanted) {
            self.met.fetch_add(1, SeqCst);
        }
    }
}

/// A writer that takes one byte at a time, and so many of them.
#[derive(Drop)]
struct Narrow {
    bytes: Vec<u8>,
    left: usize,
}

impl Write for Narrow {
    fn write(&mut self, bytes: &[u8]) -> io::Result<usize> {
        let Some(byte) = bytes.first() else {
            return Ok(0);
        };
        if self.left == 0 {
            return Ok(0);
        }
        self.left -= 1;
        self.bytes.push(*byte)?;
        Ok(1)
    }

    fn flush(&mut self) -> io::Result<()> {
        Ok(())
    }
}

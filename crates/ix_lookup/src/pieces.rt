//! A section that is read in pieces.
ghost use Rattle.std.specs.Prelude.{◌≡◌, ◌≤◌, ◌<◌, ◌+◌, ◌-◌, ◌^◌, ℕ, List, Some, length, take, drop, OnOk};

use ix_files::{FileError, ReadAt};
use std::alloc::Global;

/// How many bytes a row has, at most: two of the number of shared bytes, two of the number of own bytes, 255 of a term,
/// and twice five of a count.
pub(crate) const ROW_BYTES: usize = 269;

/// How many bytes are read at once, at most.
const READ_BYTES: usize = 64 * 1024;

/// What is left of a section: the rest of the piece of it that is in memory, and the bytes that were not read yet.
#[derive(Drop)]
pub(crate) struct Pieces {
    piece: Vec<u8>,
    /// The byte of the piece at which its rest begins.
    place: usize,
    /// The byte of the source at which the bytes begin that were not read yet.
    start: usize,
    /// How many bytes were not read yet.
    unread: usize,
    ghost within: { place ≤ length piece.items },
    ghost room: { start + unread < 2 ^ 64 },
}

impl Pieces {
    ghost use Rattle.ix_lookup.specs.Pieces.{HasRow, left_in, rest_in};

    /// A section of a source, of which nothing was read yet. Takes no memory.
    pub(crate) fn new(alloc: Global, start: usize, size: usize) -> Pieces
        requires { start + size < 2 ^ 64 }
        ensures { (bytes : List ℕ) → left_in result bytes ≡ take size (drop start bytes) }
    {
        Pieces {
            piece: Vec::new(alloc),
            place: 0,
            start,
            unread: size,
        }
    }

    /// Reads on if the rest of the piece may have less than a row.
    ///
    /// # Errors
    /// `Memory`; `Failed` if a read failed.
    #[inline]
    pub(crate) fn fill<S: ReadAt>(&mut self, source: &S) -> Result<(), FileError>
        ensures filled { OnOk result (HasRow self.new) }
        ensures same { (bytes : List ℕ) → S.contents source.now ≡ Some bytes
            → OnOk result (left_in self.new bytes ≡ left_in self.old bytes) }
    {
        if self.unread > 0 && self.piece.len() - self.place < ROW_BYTES {
            self.read_on(source)?;
        }
        Ok(())
    }

    /// Moves the rest of the piece to its front, and reads on behind it.
    #[cold]
    fn read_on<S: ReadAt>(&mut self, source: &S) -> Result<(), FileError>
        ensures filled { OnOk result (HasRow self.new) }
        ensures same { (bytes : List ℕ) → S.contents source.now ≡ Some bytes
            → OnOk result (left_in self.new bytes ≡ left_in self.old bytes) }
    {
        let rest = self.piece.len() - self.place;
        self.piece.copy_within(self.place.., 0);
        self.piece.truncate(rest);
        self.place = 0;
        let size = self.unread.min(READ_BYTES);
        source.append_at(&mut self.piece, self.start, size)?;
        self.start += size;
        self.unread -= size;
        Ok(())
    }

    /// The rest of the piece.
    #[inline]
    pub(crate) fn rest(&self) -> &[u8]
        ensures { result.now ≡ rest_in self.now }
    {
        &self.piece[self.place..]
    }

    /// Goes on behind a row, behind which the piece has `size` bytes more.
    #[inline]
    pub(crate) fn keep(&mut self, size: usize)
        ensures rest { rest_in self.new
            ≡ drop (length (rest_in self.old) - size) (rest_in self.old) }
        ensures unread { self.new.unread ≡ self.old.unread }
        ensures start { self.new.start ≡ self.old.start }
    {
        self.place = self.piece.len() - size.min(self.piece.len() - self.place);
    }
}

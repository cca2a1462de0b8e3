//! Bytes that are given or taken in pieces.

use std::io::{self, ErrorKind, Read, Write};

/// How many bytes a call gives or takes.
#[derive(Clone, Copy)]
pub(super) enum Sizes {
    /// One, in so many calls. Later ones are refused.
    Single(usize),
    /// So many at most, in every other call. The calls before these are interrupted.
    Interrupted(usize),
    /// Changing numbers. Every third call is interrupted.
    Uneven,
}

/// Bytes that are given or taken in pieces.
#[derive(Drop)]
pub(super) struct Pieces<T> {
    pub(super) bytes: T,
    sizes: Sizes,
    calls: usize,
}

impl<T> Pieces<T> {
    pub(super) fn new(bytes: T, sizes: Sizes) -> Pieces<T> {
        Pieces {
            bytes,
            sizes,
            calls: 0,
        }
    }

    /// How many bytes the next call may have, 0 if it is refused. None: it is interrupted.
    fn next_size(&mut self) -> Option<usize> {
        self.calls = self.calls.wrapping_add(1);
        match self.sizes {
            Sizes::Single(calls) if self.calls > calls => Some(0),
            Sizes::Single(_) => Some(1),
            Sizes::Interrupted(_) if self.calls % 2 == 1 => None,
            Sizes::Interrupted(most) => Some(most),
            Sizes::Uneven if self.calls % 3 == 0 => None,
            Sizes::Uneven => Some(self.calls % 97 * 787 + 1),
        }
    }
}

impl Read for Pieces<&[u8]> {
    fn read(&mut self, buf: &mut [u8]) -> io::Result<usize> {
        let Some(size) = self.next_size() else {
            return Err(io::Error::from(ErrorKind::Interrupted));
        };
        if size == 0 {
            return Err(io::Error::from(ErrorKind::Other));
        }
        let count = size.min(buf.len()).min(self.bytes.len());
        buf[..count].copy_from_slice(&self.bytes[..count]);
        self.bytes = &self.bytes[count..];
        Ok(count)
    }
}

// A refused writer takes nothing.
impl Write for Pieces<Vec<u8>> {
    fn write(&mut self, bytes: &[u8]) -> io::Result<usize> {
        let Some(size) = self.next_size() else {
            return Err(io::Error::from(ErrorKind::Interrupted));
        };
        let count = size.min(bytes.len());
        self.bytes.extend_from_slice(&bytes[..count])?;
        Ok(count)
    }

    fn flush(&mut self) -> io::Result<()> {
        Ok(())
    }
}

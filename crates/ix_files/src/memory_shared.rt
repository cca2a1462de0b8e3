//! Files in memory that threads share.

ghost use Rattle.std.specs.Prelude.{◌≡◌, map, IfErr, IfOk, Some};
ghost use Rattle.std.specs.Io.Cursor.{cursor_remaining};
ghost use Rattle.ix_files.specs.Locations.{place_of};
ghost use Rattle.ix_files.specs.Opened.{IsReadError};

use crate::file_error::FileError;
use crate::location::Location;
use crate::memory_writer::MemoryWriter;
use crate::shared_files::SharedFiles;
use once_cell::race::OnceBox;
use std::alloc::{AllocError, Global};
use std::io::Cursor;
use std::sync::Arc;
use std::sync::atomic::{AtomicUsize, Ordering};

/// Files in memory that threads share. Each is written once.
#[derive(Drop)]
pub struct MemoryShared {
    pub(crate) alloc: Global,
    pub(crate) names: Vec<Location>,
    pub(crate) files: Vec<OnceBox<Vec<u8>>>,
    pub(crate) failures: Failures,
    pub(crate) room: usize,
}

/// The calls of files in memory, one of which may be to fail.
#[derive(Drop)]
pub(crate) struct Failures {
    /// How many there were.
    pub(crate) calls: Arc<AtomicUsize>,
    /// The number of the one that is to fail, from 1.
    pub(crate) failing: usize,
    /// Whether it is out of memory.
    pub(crate) starved: bool,
}

impl Failures {
    /// The same count of calls, and the same one that is to fail.
    pub(crate) fn try_clone(&self) -> Result<Failures, AllocError> {
        Ok(Failures {
            calls: Arc::try_clone(&self.calls)?,
            failing: self.failing,
            starved: self.starved,
        })
    }

    /// Counts a call, and returns whether it is the one that is to fail.
    pub(crate) fn is_next(&self) -> bool {
        let before = self.calls.fetch_add(1, Ordering::SeqCst);
        before.wrapping_add(1) == self.failing
    }

    /// Counts a call, and returns an error if it is the one that is to fail.
    pub(crate) fn pass(&self) -> Result<(), FileError>
        ensures { IfErr result (IsReadError (Unit {0})) }
    {
        if self.is_next() {
            return Err(if self.starved {
                FileError::Memory
            } else {
                FileError::Failed
            });
        }
        Ok(())
    }
}

impl SharedFiles for MemoryShared {
    type Reader = Cursor<Vec<u8>>;

    type Writer = MemoryWriter;

    ghost shared = { λ files. map place_of files.names.items };

    ghost back = { λ _ place bytes. Unit {0} };

    ghost kept = { λ _ place bytes. Unit {0} };

    fn names(&self) -> &[Location] {
        &self.names
    }

    fn create(&self, place: usize) -> Result<MemoryWriter, FileError> {
        self.failures.pass()?;
        if place >= self.files.len() {
            return Err(FileError::Failed);
        }
        Ok(MemoryWriter::new(self.alloc, self.room))
    }

    fn end(&self, place: usize, writer: MemoryWriter) -> Result<(), FileError> {
        self.failures.pass()?;
        let Ok(bytes) = Box::new(self.alloc, writer.bytes) else {
            return Err(FileError::Memory);
        };
        match self.files.get(place) {
            Some(file) => match file.set(bytes) {
                Ok(()) => Ok(()),
                Err(_) => Err(FileError::Failed),
            },
            None => Err(FileError::Failed),
        }
    }

    fn open(&self, place: usize) -> Result<Cursor<Vec<u8>>, FileError> {
        self.failures.pass()?;
        let Some(file) = self.files.get(place) else {
            return Err(FileError::Failed);
        };
        match file.get() {
            Some(bytes) => Ok(Cursor::new(Vec::from_slice(self.alloc, bytes)?)),
            None => Err(FileError::Failed),
        }
    }

    ghost untold = { λ files place bytes writer none. tt };
}

//! A file of the system that is read by ranges.

ghost use Rattle.std.specs.Prelude.{None};

use crate::file_error::FileError;
use crate::read_at::ReadAt;
use crate::system_files::fault;
use std::fs::File;
use std::os::unix::fs::FileExt;

/// A file of the system that is open to be read by ranges, of whose bytes nothing is known.
#[derive(Drop)]
pub struct SystemRanges {
    pub(crate) file: File,
}

impl ReadAt for SystemRanges {
    ghost contents = { λ _. None };

    ghost sure = { λ _. ⊥ };

    fn size(&self) -> Result<usize, FileError> {
        match self.file.metadata() {
            Ok(metadata) => Ok(metadata.len() as usize),
            Err(error) => Err(fault(&error)),
        }
    }

    fn append_at(&self, out: &mut Vec<u8>, start: usize, size: usize) -> Result<(), FileError> {
        let before = out.len();
        let Some(after) = before.checked_add(size) else {
            return Err(FileError::Memory);
        };
        out.resize(after, 0)?;
        match self.file.read_exact_at(&mut out[before..], start as u64) {
            Ok(()) => Ok(()),
            Err(error) => Err(fault(&error)),
        }
    }
}

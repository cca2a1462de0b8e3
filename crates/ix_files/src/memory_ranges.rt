//! A file in memory that is read by ranges.

ghost use Rattle.std.specs.Prelude.{Some};

use crate::file_error::FileError;
use crate::memory_shared::Failures;
use crate::read_at::{ReadAt, Slice};

/// A file in memory that is open to be read by ranges. Each of its calls counts as one of the files'.
#[derive(Drop)]
pub struct MemoryRanges {
    pub(crate) bytes: Vec<u8>,
    pub(crate) failures: Failures,
}

impl ReadAt for MemoryRanges {
    ghost contents = { λ ranges. Some ranges.bytes.items };

    ghost sure = { λ _. ⊥ };

    fn size(&self) -> Result<usize, FileError> {
        self.failures.pass()?;
        Ok(self.bytes.len())
    }

    fn append_at(&self, out: &mut Vec<u8>, start: usize, size: usize) -> Result<(), FileError> {
        self.failures.pass()?;
        let bytes = Slice { bytes: &self.bytes };
        bytes.append_at(out, start, size)
    }
}

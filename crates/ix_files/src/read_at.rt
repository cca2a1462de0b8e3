//! Bytes that are read by ranges.

ghost use Rattle.std.specs.Prelude.{◌≡◌, ◌+◌, ◌++◌, ℕ, List, Option, Some, drop, length, take, IfErr, IfOk, OnOk};
ghost use Rattle.ix_files.specs.Opened.{IsReadError};
ghost use Rattle.ix_files.specs.Ranges.{HasBytes};
ghost use Rattle.ix_files.specs.declared.file_error.FileError.TheVariants as file_error;

use crate::file_error::FileError;

/// Bytes that are read by ranges, as an open file's.
pub trait ReadAt {
    // The bytes, if contracts know them.
    ghost contents: { Self → Option (List ℕ) };

    // No read of bytes that are there fails.
    ghost sure: { Self → Type 0 };

    /// How many bytes there are.
    ///
    /// # Errors
    /// `Memory`; `Failed`.
    fn size(&self) -> Result<usize, FileError>
        ensures told { (bytes : List ℕ) → contents self.now ≡ Some bytes
            → IfOk result (λ size. size ≡ length bytes) }
        ensures sure { HasBytes (contents self.now) (sure self.now) 0
            → IfErr result (λ error. error ≡ file_error.Memory) }
        ensures error { IfErr result (IsReadError (Unit {0})) };

    /// Appends the `size` bytes from `start` on.
    ///
    /// # Errors
    /// `Memory`; `Failed` if a read failed, or there are fewer bytes. What `out` gained is not known then.
    fn append_at(&self, out: &mut Vec<u8>, start: usize, size: usize) -> Result<(), FileError>
        ensures sized { OnOk result (length out.new.items ≡ length out.old.items + size) }
        ensures told { (bytes : List ℕ) → contents self.now ≡ Some bytes
            → OnOk result (out.new.items ≡ out.old.items ++ take size (drop start bytes)) }
        ensures sure { HasBytes (contents self.now) (sure self.now) (start + size)
            → IfErr result (λ error. error ≡ file_error.Memory) }
        ensures error { IfErr result (IsReadError (Unit {0})) };
}

/// Bytes in memory.
#[derive(Clone, Copy)]
pub struct Slice<'a> {
    /// The bytes.
    pub bytes: &'a [u8],
}

impl ReadAt for Slice<'_> {
    ghost contents = { λ slice. Some slice.bytes.now };

    ghost sure = { λ _. Unit {0} };

    fn size(&self) -> Result<usize, FileError> {
        Ok(self.bytes.len())
    }

    fn append_at(&self, out: &mut Vec<u8>, start: usize, size: usize) -> Result<(), FileError> {
        if start > self.bytes.len() || size > self.bytes.len() - start {
            return Err(FileError::Failed);
        }
        out.extend_from_slice(&self.bytes[start..start + size])?;
        Ok(())
    }
}

//! What writes files in memory.

ghost use Rattle.std.specs.Prelude.{◌≡◌, [], Some};

use std::alloc::Global;
use std::io;
use std::io::{ErrorKind, Write};

/// Writes a file in memory, or into a device or a pipe there, and takes at most some bytes, as a full disk does.
#[derive(Drop)]
pub struct MemoryWriter {
    pub(crate) bytes: Vec<u8>,
    room: usize,
}

impl MemoryWriter {
    /// A writer that takes at most this many bytes.
    pub(crate) fn new(alloc: Global, room: usize) -> MemoryWriter
        ensures { result.bytes.items ≡ [] }
    {
        MemoryWriter {
            bytes: Vec::new(alloc),
            room,
        }
    }
}

impl Write for MemoryWriter {
    ghost contents = { λ writer. Some writer.bytes.items };

    fn write(&mut self, bytes: &[u8]) -> io::Result<usize> {
        let count = bytes.len().min(self.room);
        if count == 0 && !bytes.is_empty() {
            return Err(io::Error::from(ErrorKind::StorageFull));
        }
        self.bytes.extend_from_slice(&bytes[..count])?;
        self.room -= count;
        Ok(count)
    }

    fn flush(&mut self) -> io::Result<()> {
        Ok(())
    }
}

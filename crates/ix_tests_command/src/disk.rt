//! Files in memory, and what a session says of them.

use super::session::tell_bytes;
use ix_files::MemoryFiles;
use std::alloc::Global;
use std::io;
use std::io::{ErrorKind, Write};
use std::test::Fail;

/// Files in memory.
#[derive(Drop)]
pub struct Disk {
    alloc: Global,
    /// These files.
    pub(super) files: MemoryFiles,
}

impl Disk {
    /// No files.
    pub(super) fn new(alloc: Global) -> Result<Disk, Fail> {
        let files = MemoryFiles::new(alloc)?;
        Ok(Disk { alloc, files })
    }

    /// Does what a command says of a path, of a folder, or of a number, and what stands behind it: `put` gives the file spelled
    /// bytes, `cmp` tells whether it differs from another one, and `size` how many bytes it has; `add-file` puts an empty file
    /// of this name into the folder, and `show` tells what is in one; `fail` lets the call of files of this number, from 1 and
    /// from now on, fail, for want of memory if `Memory` stands behind it, and `room` lets a writer take so many bytes.
    pub(super) fn tell(
        &mut self,
        command: &str,
        rest: &str,
        told: &mut String,
    ) -> Result<(), Fail> {
        let (first, more) = rest.split_once(' ').unwrap_or((rest, ""));
        match command {
            "put" => Ok(self.files.put(first, &bytes_of(self.alloc, more)?)?),
            "add-file" => Ok(self.files.put_at(first, more, b"")?),
            "show" => self.show(first, more, told),
            "fail" => {
                self.files.fail_at(first.parse()?, more == "Memory");
                Ok(())
            }
            "room" => {
                self.files.set_room(first.parse()?);
                Ok(())
            }
            _ => self.tell_file(command, first, more, told),
        }
    }

    /// Tells the text of a file in a folder.
    fn show(&self, folder: &str, name: &str, told: &mut String) -> Result<(), Fail> {
        let bytes = self
            .files
            .bytes_at(folder, name)
            .unwrap_or(b"no such file\n");
        tell_bytes(bytes, told)
    }

    /// Tells how many bytes a file has, or whether it differs from another one.
    fn tell_file(
        &self,
        command: &str,
        path: &str,
        other: &str,
        told: &mut String,
    ) -> Result<(), Fail> {
        let Some(bytes) = self.files.bytes(path) else {
            told.push_str("no such file\n")?;
            return Ok(());
        };
        if command == "size" {
            told.push_str(&format!(in self.alloc; "{}\n", bytes.len())?)?;
        } else if self.files.bytes(other) != Some(bytes) {
            told.push_str("they differ\n")?;
        }
        Ok(())
    }
}

/// The bytes that a text spells: those of its characters, and for an escape as `\n` or `\x81` the one that it names.
fn bytes_of(alloc: Global, spelled: &str) -> Result<Vec<u8>, Fail> {
    let mut bytes = Vec::new(alloc);
    let mut rest = spelled.as_bytes();
    for _ in 0..spelled.len() {
        let Some((byte, behind)) = first_byte(rest) else {
            break;
        };
        bytes.push(byte)?;
        rest = behind;
    }
    if !rest.is_empty() {
        return Err("no such escape")?;
    }
    Ok(bytes)
}

/// The first byte that is spelled, and what stands behind it.
fn first_byte(spelled: &[u8]) -> Option<(u8, &[u8])> {
    match spelled {
        [b'\\', b'0', rest @ ..] => Some((0, rest)),
        [b'\\', b'n', rest @ ..] => Some((b'\n', rest)),
        [b'\\', b't', rest @ ..] => Some((b'\t', rest)),
        [b'\\', b'x', high, low, rest @ ..] => Some((digit(*high)? << 4 | digit(*low)?, rest)),
        [b'\\', ..] => None,
        [byte, rest @ ..] => Some((*byte, rest)),
        [] => None,
    }
}

fn digit(character: u8) -> Option<u8> {
    match character {
        b'0'..=b'9' => Some(character - b'0'),
        b'a'..=b'f' => Some(character - b'a' + 10),
        _ => None,
    }
}

/// A writer that takes so many bytes, and never flushes.
#[derive(Drop)]
pub struct Narrow {
    taken: Vec<u8>,
    room: usize,
}

impl Narrow {
    pub(super) fn new(alloc: Global, room: usize) -> Narrow {
        Narrow {
            taken: Vec::new(alloc),
            room,
        }
    }
}

impl Write for Narrow {
    fn write(&mut self, bytes: &[u8]) -> io::Result<usize> {
        let count = bytes.len().min(self.room);
        if count == 0 && !bytes.is_empty() {
            return Err(io::Error::from(ErrorKind::StorageFull));
        }
        self.taken.extend_from_slice(&bytes[..count])?;
        self.room -= count;
        Ok(count)
    }

    fn flush(&mut self) -> io::Result<()> {
        Err(io::Error::from(ErrorKind::StorageFull))
    }
}

//! What the files of given paths hold.

ghost use Rattle.std.specs.Prelude.{◌≡◌, ◌≤◌, length, take, IfErr, IfOk, IfSome};
ghost use Rattle.ix_files.specs.Opened.{IsReadError};
ghost use Rattle.ix_files.specs.Reading.{IsFront, held_in};

use crate::file_error::FileError;
use crate::files::Files;
use std::alloc::Global;
use std::io::{ErrorKind, Read};

/// The first bytes of what a path leads to: `room` of them, or all if it has fewer.
///
/// # Errors
/// `Memory`; `Failed` if it cannot be opened, or a read failed.
pub fn read_front<F: Files>(
    alloc: Global,
    files: &F,
    path: &str,
    room: usize,
) -> Result<Vec<u8>, FileError>
    ensures front { IfOk result
        (λ bytes. IsFront (held_in (F.view files.now) path.now) room bytes.items) }
    ensures error { IfErr result (IsReadError (Unit {0})) }
{
    let reader = files.open(path)?;
    read_up_to(alloc, reader, room)
}

/// The first bytes that a reader gives: `room` of them, or all if it has fewer.
///
/// # Errors
/// `Memory`; `Failed` if a read failed.
pub fn read_up_to<S: Read + Drop>(
    alloc: Global,
    reader: S,
    room: usize,
) -> Result<Vec<u8>, FileError>
    ensures short { IfOk result (λ bytes. length bytes.items ≤ room) }
    ensures front { IfOk result (λ bytes. IfSome (S.remaining reader)
        (λ left. bytes.items ≡ take room left)) }
    ensures error { IfErr result (IsReadError (Unit {0})) }
{
    let mut bytes = Vec::new(alloc);
    match reader.take(room as u64).read_to_end(&mut bytes) {
        Ok(_) => {
            // There are no more than `room`, which the contract of `take` does not tell.
            bytes.truncate(room);
            Ok(bytes)
        }
        Err(error) if error.kind() == ErrorKind::OutOfMemory => Err(FileError::Memory),
        Err(_) => Err(FileError::Failed),
    }
}

//! Files of an archive that are read whole.

ghost use Rattle.std.specs.Prelude.{IfErr, IfOk, option_map};
ghost use Rattle.ix_files.specs.Locations.{place_of};
ghost use Rattle.ix_files.specs.Opened.{IsReadError};
ghost use Rattle.ix_archive_writer.specs.Readings.{IsWhole};

use ix_files::{FileError, Files, Location, ReadAt};
use std::alloc::Global;

/// The bytes of a file, if there is one.
///
/// # Errors
/// `Memory`; `Failed`.
pub(crate) fn read_whole<F: Files>(
    alloc: Global,
    files: &F,
    at: &Location,
) -> Result<Option<Vec<u8>>, FileError>
    ensures whole { IfOk result (λ found. (F.view files.now).honest
        → IsWhole ((F.view files.now).slots (place_of at.now)).now
        (option_map (λ bytes. bytes.items) found)) }
    ensures error { IfErr result (IsReadError (Unit {0})) }
{
    let Some(source) = files.open_at(at)? else {
        return Ok(None);
    };
    let mut bytes = Vec::new(alloc);
    let size = source.size()?;
    source.append_at(&mut bytes, 0, size)?;
    Ok(Some(bytes))
}

//! Index files, opened.
ghost use Rattle.std.specs.Prelude.{◌≡◌, true, IfOk, IfErr, IfSome};
ghost use Rattle.ix_files.specs.Reading.{AreKnownOf, held_in};
ghost use Rattle.ix_files.specs.Slots.{Nothing};
ghost use Rattle.ix_command.specs.IndexFiles.{IsOpened, RefusesIndex};
ghost use Rattle.ix_command.specs.Refusals.{IsUnread};

use crate::refusal::Refusal;
use ix_ask::EngineRefusal;
use ix_file::Volume;
use ix_files::{Files, Kind, read_front};
use std::alloc::Global;
use std::thread::Threads;

/// The index in the file of this path, which is read whole, and of which two parts are checked side by side.
pub fn open_index<'a, R: Threads + Sync, F: Files>(
    rt: &R,
    alloc: Global,
    files: &F,
    path: &'a str,
) -> Result<Volume, Refusal<'a>>
    ensures opened { IfOk result (IsOpened (held_in (F.view files.now)) path.entry.now) }
    ensures refused { IfErr result (RefusesIndex (held_in (F.view files.now)) path.entry.now) }
{
    // No bound that a machine could meet is set to an index text, so there is room for any.
    match read_front(alloc, files, path, usize::MAX) {
        Ok(bytes) => match Volume::open_beside(rt, alloc, bytes) {
            Ok(volume) => Ok(volume),
            Err(error) => Err(Refusal::Engine(EngineRefusal::Index(error))),
        },
        Err(error) => Err(Refusal::unread(path, error)),
    }
}

/// The file of this path, open to be read by ranges, or none if it is no regular file: what is read once, from its front to its
/// end, has no ranges.
pub fn open_ranges<'a, F: Files>(files: &F, path: &'a str) -> Result<Option<F::Ranges>, Refusal<'a>>
    ensures opened { IfOk result (λ opened. IfSome opened (λ ranges.
        AreKnownOf (held_in (F.view files.now) path.entry.now) (F.Ranges.contents ranges))) }
    ensures refused { IfErr result (IsUnread path.entry.now) }
{
    match files.kind(path) {
        Ok(Kind::File) => match files.open_ranges(path) {
            Ok(ranges) => Ok(Some(ranges)),
            Err(error) => Err(Refusal::unread(path, error)),
        },
        Ok(_) => Ok(None),
        Err(error) => Err(Refusal::unread(path, error)),
    }
}

/// Whether a path leads to a folder.
pub fn is_folder<'a, F: Files>(files: &F, path: &'a str) -> Result<bool, Refusal<'a>>
    ensures no_file { IfOk result (λ folder. folder ≡ true → (F.view files.now).honest
        → ((F.view files.now).slots ((F.view files.now).place path.entry.now)).now ≡ Nothing) }
    ensures refused { IfErr result (IsUnread path.entry.now) }
{
    match files.kind(path) {
        Ok(Kind::Folder) => Ok(true),
        Ok(_) => Ok(false),
        Err(error) => Err(Refusal::unread(path, error)),
    }
}

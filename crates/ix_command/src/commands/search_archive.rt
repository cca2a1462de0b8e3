//! `ix search` of an archive.

ghost use Rattle.std.specs.Prelude.{◌≡◌, IfErr, IfOk};
ghost use Rattle.ix_files.specs.Slots.{Nothing};
ghost use Rattle.ix_command.specs.StoredArchives.{IsArchiveSearched, IsArchiveUnsearched, storing_of};

use crate::commands::print_whole;
use crate::refusal::Refusal;
use ix_archive::{find, open_archive};
use ix_files::Files;
use std::alloc::Global;
use std::io::Write;
use std::thread::Threads;

/// Writes the names of the documents of the archive in a folder that satisfy the query and are not removed, and returns how many
/// there are. Of each segment only what the query needs is read.
pub fn search_archive<'a, R: Threads + Sync, F: Files, W: Write>(
    rt: &R,
    alloc: Global,
    files: &F,
    archive: &'a str,
    query: &str,
    out: &mut W,
) -> Result<usize, Refusal<'a>>
    requires { (F.view files.now).honest
        → ((F.view files.now).slots ((F.view files.now).place archive.now)).now ≡ Nothing }
    ensures answered { IfOk result (IsArchiveSearched
        (storing_of (F.view files.now) (F.view files.now)) archive.entry.now query.now
        (W.contents out.old) (W.contents out.new)) }
    ensures refused { IfErr result (IsArchiveUnsearched
        (storing_of (F.view files.now) (F.view files.now)) archive.entry.now query.now
        (W.contents out.old) (W.contents out.new)) }
{
    let opened = match open_archive(alloc, files, archive) {
        Ok(opened) => opened,
        Err(error) => return Err(Refusal::of_reading(archive, error)),
    };
    match find(rt, alloc, &opened, query) {
        Ok(names) => {
            print_whole(&names.bytes, out)?;
            Ok(names.count)
        }
        Err(error) => Err(Refusal::of_reading(archive, error)),
    }
}

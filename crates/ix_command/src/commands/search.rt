//! `ix search`: asks an index file or an archive.

ghost use Rattle.std.specs.Prelude.{◌⊎◌, IfOk, IfErr};
ghost use Rattle.ix_files.specs.Reading.{held_in};
ghost use Rattle.ix_command.specs.IndexFiles.{IsSearchRefused, IsSearchedFromFile};
ghost use Rattle.ix_command.specs.StoredArchives.{IsArchiveSearched, IsArchiveUnsearched, storing_of};
ghost use Rattle.ix_command.specs.TrustedFiles.{IsSearchDone, IsSearchUndone};

use crate::commands::search_archive::search_archive;
use crate::index_file::{is_folder, open_index, open_ranges};
use crate::refusal::Refusal;
use ix_ask::{search, search_trusting};
use ix_files::Files;
use std::alloc::Global;
use std::io::Write;
use std::thread::Threads;

/// Writes the names of the documents of an index file or an archive that satisfy the query, and
/// returns how many there are. A folder is an archive.
pub fn run<'a, R: Threads + Sync, F: Files, W: Write>(
    rt: &R,
    alloc: Global,
    files: &F,
    index: &'a str,
    query: &str,
    trust: bool,
    out: &mut W,
) -> Result<usize, Refusal<'a>>
    ensures answered { IfOk result (λ count. IsSearchDone trust (held_in (F.view files.now))
        index.entry.now query.now (W.contents out.old) (W.contents out.new) count
        ⊎ IsArchiveSearched (storing_of (F.view files.now) (F.view files.now))
        index.entry.now query.now (W.contents out.old) (W.contents out.new) count) }
    ensures refused { IfErr result (λ told. IsSearchUndone trust (held_in (F.view files.now))
        index.entry.now query.now (W.contents out.old) (W.contents out.new) told
        ⊎ IsArchiveUnsearched (storing_of (F.view files.now) (F.view files.now))
        index.entry.now query.now (W.contents out.old) (W.contents out.new) told) }
{
    let is_archive = is_folder(files, index)?;
    if is_archive {
        return search_archive(rt, alloc, files, index, query, out);
    }
    search_file(rt, alloc, files, index, query, trust, out)
}

/// The same of an index file. The query is read under the stop list of the index.
///
/// With `trust` only what the query needs is read of a regular file, and a fault elsewhere in it is not noticed.
fn search_file<'a, R: Threads + Sync, F: Files, W: Write>(
    rt: &R,
    alloc: Global,
    files: &F,
    index: &'a str,
    query: &str,
    trust: bool,
    out: &mut W,
) -> Result<usize, Refusal<'a>>
    ensures answered { IfOk result (IsSearchDone trust (held_in (F.view files.now))
        index.entry.now query.now
        (W.contents out.old) (W.contents out.new)) }
    ensures refused { IfErr result (IsSearchUndone trust (held_in (F.view files.now))
        index.entry.now query.now
        (W.contents out.old) (W.contents out.new)) }
{
    if trust {
        if let Some(ranges) = open_ranges(files, index)? {
            return match search_trusting(alloc, &ranges, query, out) {
                Ok(count) => Ok(count),
                Err(error) => Err(Refusal::of_trusting(index, error)),
            };
        }
    }
    search_whole(rt, alloc, files, index, query, out)
}

/// The same of an index file that is read and checked as a whole.
fn search_whole<'a, R: Threads + Sync, F: Files, W: Write>(
    rt: &R,
    alloc: Global,
    files: &F,
    index: &'a str,
    query: &str,
    out: &mut W,
) -> Result<usize, Refusal<'a>>
    ensures answered { IfOk result (IsSearchedFromFile (held_in (F.view files.now))
        index.entry.now query.now
        (W.contents out.old) (W.contents out.new)) }
    ensures refused { IfErr result (IsSearchRefused (held_in (F.view files.now))
        index.entry.now query.now
        (W.contents out.old) (W.contents out.new)) }
{
    let volume = open_index(rt, alloc, files, index)?;
    Ok(search(alloc, &volume.index(), query, out)?)
}

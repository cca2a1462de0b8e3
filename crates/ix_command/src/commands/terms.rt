//! `ix terms`: lists terms of an index file.

ghost use Rattle.std.specs.Prelude.{IfOk, IfErr};
ghost use Rattle.ix_files.specs.Reading.{held_in};
ghost use Rattle.ix_command.specs.IndexFiles.{IsListingRefused, IsPrintedFromFile};
ghost use Rattle.ix_command.specs.TrustedFiles.{IsListingDone, IsListingUndone};

use crate::index_file::{open_index, open_ranges};
use crate::refusal::Refusal;
use ix_ask::{list_terms, list_terms_trusting};
use ix_files::Files;
use std::alloc::Global;
use std::io::Write;
use std::thread::Threads;

/// Writes the terms of the index file that match the pattern, each with in how many documents it
/// is, and answers how many terms there are.
///
/// With `trust` only what the pattern needs is read of a regular file, and a fault elsewhere in it is not noticed.
pub fn run<'a, R: Threads + Sync, F: Files, W: Write>(
    rt: &R,
    alloc: Global,
    files: &F,
    index: &'a str,
    pattern: &str,
    trust: bool,
    out: &mut W,
) -> Result<usize, Refusal<'a>>
    ensures printed { IfOk result (IsListingDone trust (held_in (F.view files.now)) index.entry.now
        pattern.now (W.contents out.old) (W.contents out.new)) }
    ensures refused { IfErr result (IsListingUndone trust (held_in (F.view files.now))
        index.entry.now pattern.now (W.contents out.old) (W.contents out.new)) }
{
    if trust {
        if let Some(ranges) = open_ranges(files, index)? {
            return match list_terms_trusting(alloc, &ranges, pattern, out) {
                Ok(count) => Ok(count),
                Err(error) => Err(Refusal::of_trusting(index, error)),
            };
        }
    }
    list_whole(rt, alloc, files, index, pattern, out)
}

/// The same of an index file that is read and checked as a whole.
fn list_whole<'a, R: Threads + Sync, F: Files, W: Write>(
    rt: &R,
    alloc: Global,
    files: &F,
    index: &'a str,
    pattern: &str,
    out: &mut W,
) -> Result<usize, Refusal<'a>>
    ensures printed { IfOk result (IsPrintedFromFile (held_in (F.view files.now)) index.entry.now
        pattern.now (W.contents out.old) (W.contents out.new)) }
    ensures refused { IfErr result (IsListingRefused (held_in (F.view files.now)) index.entry.now
        pattern.now (W.contents out.old) (W.contents out.new)) }
{
    let volume = open_index(rt, alloc, files, index)?;
    Ok(list_terms(alloc, &volume.index(), pattern, out)?)
}

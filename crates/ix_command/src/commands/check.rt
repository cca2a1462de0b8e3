//! `ix check`: looks for faults in index files.

ghost use Rattle.std.specs.Prelude.{◌≡◌, ◌↔◌, ◌<◌, ◌+◌, ◌^◌, ◌++◌, IfErr, IfOk, IsTrue, OnOk};
ghost use Rattle.std.specs.Io.KnownBytes.{Appends};
ghost use Rattle.ix_files.specs.Reading.{held_in};
ghost use Rattle.ix_line.specs.Lines.{texts_of};
ghost use Rattle.ix_command.specs.CheckedFiles.{AreChecked, AreLookedAt, GainsFault, IsCheckRefused};
ghost use Rattle.ix_command.specs.CheckedFiles.{IsJudged, LooksAt, TellsMemory, fault_line};

use super::print_whole;
use crate::index_file::open_index;
use crate::refusal::Refusal;
use crate::refusing::put_shown;
use ix_ask::{EngineRefusal, Lines};
use ix_file::OpenError;
use ix_files::Files;
use ix_output::{WriteError, put_all};
use std::alloc::{AllocError, Global};
use std::io::Write;
use std::thread::Threads;

/// Reads and checks each index file as a whole, writes a line for each that has a fault, and returns how many have one. All files
/// are looked at before a line is written.
pub fn run<'a, R: Threads + Sync, F: Files, W: Write>(
    rt: &R,
    alloc: Global,
    files: &F,
    paths: &[&'a str],
    out: &mut W,
) -> Result<usize, Refusal<'a>>
    ensures checked { IfOk result (AreChecked (held_in (F.view files.now)) (texts_of paths.now)
        (W.contents out.old) (W.contents out.new)) }
    ensures refused { IfErr result (IsCheckRefused (held_in (F.view files.now))
        (texts_of paths.now) (W.contents out.old) (W.contents out.new)) }
{
    let faults = find_faults(rt, alloc, files, paths)?;
    print_whole(&faults.bytes, out)?;
    Ok(faults.count)
}

/// The lines of the index files that have a fault, in the order of the paths.
///
/// # Errors
/// Memory ran out.
fn find_faults<'a, R: Threads + Sync, F: Files>(
    rt: &R,
    alloc: Global,
    files: &F,
    paths: &[&'a str],
) -> Result<Lines, Refusal<'a>>
    ensures looked_at { IfOk result (λ lines. AreLookedAt (held_in (F.view files.now))
        (texts_of paths.now) lines.bytes.items lines.count) }
    ensures memory { IfErr result TellsMemory }
{
    let mut lines = Lines {
        bytes: Vec::new(alloc),
        count: 0,
    };
    for path in paths {
        look_at(rt, alloc, files, path, &mut lines)?;
    }
    Ok(lines)
}

/// Looks at the index file of this path, and appends its line if it has a fault.
///
/// # Errors
/// Memory ran out.
fn look_at<'a, R: Threads + Sync, F: Files>(
    rt: &R,
    alloc: Global,
    files: &F,
    path: &'a str,
    lines: &mut Lines,
) -> Result<(), Refusal<'a>>
    requires { lines.old.count + 1 < 2 ^ 64 }
    ensures looked_at { OnOk result (LooksAt (held_in (F.view files.now)) path.entry.now
        lines.old lines.new) }
    ensures memory { IfErr result TellsMemory }
{
    match find_fault(rt, alloc, files, path)? {
        Some(fault) => {
            put_fault(alloc, &mut lines.bytes, path, &fault)?;
            lines.count += 1;
            Ok(())
        }
        None => Ok(()),
    }
}

/// Why the file of this path is no index file that can be read; none if it is one.
///
/// # Errors
/// Memory ran out.
fn find_fault<'a, R: Threads + Sync, F: Files>(
    rt: &R,
    alloc: Global,
    files: &F,
    path: &'a str,
) -> Result<Option<Refusal<'a>>, Refusal<'a>>
    ensures judged { IfOk result (IsJudged (held_in (F.view files.now)) path.entry.now) }
    ensures memory { IfErr result TellsMemory }
{
    match open_index(rt, alloc, files, path) {
        Ok(_) => Ok(None),
        Err(refusal) => {
            if tells_memory(&refusal) {
                Err(refusal)
            } else {
                Ok(Some(refusal))
            }
        }
    }
}

/// Whether a refusal says that memory ran out.
fn tells_memory(refusal: &Refusal<'_>) -> bool
    ensures { IsTrue result ↔ TellsMemory refusal.now }
{
    matches!(
        refusal,
        Refusal::Engine(EngineRefusal::Memory | EngineRefusal::Index(OpenError::Memory))
    )
}

/// Appends the line of a file's fault.
///
/// # Errors
/// Memory ran out.
fn put_fault<'a>(
    alloc: Global,
    lines: &mut Vec<u8>,
    path: &str,
    fault: &Refusal<'_>,
) -> Result<(), Refusal<'a>>
    ensures gained { OnOk result (GainsFault path.now fault.now lines.old.items lines.new.items) }
    ensures memory { IfErr result TellsMemory }
{
    // The path is at the front of the line.
    if let Refusal::Read(_) = fault {
        return put_line(lines, path, "file 1: Read");
    }
    match format!(in alloc; "{fault}") {
        Ok(text) => put_line(lines, path, text.as_str()),
        Err(AllocError) => Err(Refusal::Engine(EngineRefusal::Memory)),
    }
}

/// Appends a line: the path, with its control characters shown, a TAB, and the text of its fault.
///
/// # Errors
/// Memory ran out.
fn put_line<'a>(lines: &mut Vec<u8>, path: &str, fault: &str) -> Result<(), Refusal<'a>>
    ensures gained { OnOk result
        (lines.new.items ≡ lines.old.items ++ fault_line path.now fault.now) }
    ensures memory { IfErr result TellsMemory }
{
    match put_pieces(lines, path, fault) {
        Ok(()) => Ok(()),
        // Nothing else lets a write to a vector fail.
        Err(WriteError::Write) => Err(Refusal::Engine(EngineRefusal::Memory)),
    }
}

/// Writes the pieces of such a line.
fn put_pieces<E: Write>(out: &mut E, path: &str, fault: &str) -> Result<(), WriteError>
    ensures { OnOk result
        (Appends (E.contents out.old) (E.contents out.new) (fault_line path.now fault.now)) }
{
    put_shown(out, path)?;
    put_all(out, b"\t")?;
    put_all(out, fault.as_bytes())?;
    put_all(out, b"\n")
}

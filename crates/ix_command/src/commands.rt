//! What the program does for the words of its command line.
//!
//! A command is a file below, with its own contract; here is what all of them share: the words are
//! read, help is printed, and a refusal is told.

ghost use Rattle.std.specs.Prelude.{◌≡◌, ◌≢◌, ◌≤◌, ◌↔◌, ◌⊎◌, IfOk, IfErr, IsTrue, OnErr, OnOk};
ghost use Rattle.std.specs.Io.KnownBytes.{Appends, Keeps};
ghost use Rattle.ix_command.specs.Files.{keeping_of};
ghost use Rattle.ix_command.specs.Refusals.{IsUnwritten};
ghost use Rattle.ix_line.specs.Lines.{Refuses, texts_of};
ghost use Rattle.ix_command.specs.Statuses.{AreUndone, FindsFaults, FindsNoFault, FindsNone, FindsSome, IsCheck};
ghost use Rattle.ix_command.specs.Statuses.{IsDone, IsHelped, IsLineRefused, status_of};
ghost use Rattle.ix_command.specs.Statuses.{KeepsArchive, KeepsArchiveOf, LeavesFilesOf, spelled};
ghost use Rattle.ix_command.specs.StoredArchives.{storing_of};
ghost use Rattle.ix_files.specs.Outputs.{saved_in};
ghost use Rattle.ix_files.specs.Reading.{held_in};
ghost use Rattle.ix_command.specs.Statuses.{IsLineless, IsUndone, IsRefused, IsRefusedFor, LeavesFiles};

mod add;
mod ask;
mod build;
mod check;
mod live;
mod merge;
mod remove;
mod run_file;
mod search;
mod search_archive;
mod standard_input;
mod terms;
mod upgrade;

use crate::refusal::Refusal;
use crate::refusing::refuse;
use ix_ask::EngineRefusal;
use ix_build::Watch;
use ix_files::Files;
use ix_line::{Line, LineError, help_on, read_line, with_help_as_flag};
use ix_output::{flush, put_all};
use standard_input::reads_input_twice;
use std::alloc::{AllocError, Global};
use std::io::Write;
use std::sync::Wait;
use std::thread::Threads;

/// Something was found or written, no index file has a fault, or help was asked for.
const FOUND: u8 = 0;

/// Nothing was found.
const NOTHING: u8 = 1;

/// Some index files have a fault.
const FAULTY: u8 = 2;

/// How much a command has done that writes one file or changes one archive.
const ONE_FILE: usize = 1;

/// Does what the words after the program's name ask for, with the files that they name, and answers
/// the exit status: 0 where something was found, a file was written, no index file has a fault or help was
/// printed, 1 where nothing was found, 2 where it was refused or an index file has a fault. A folder in which
/// runs are to be kept is one of `runs`, and `watch` is told of each block of the command `build`.
///
/// What was found goes to `out`, and so does help, and nothing else does. A refusal is one line on
/// `err`, and whether that line could be written is not answered. The faults of index files are no refusal. A refusal leaves `out` as it was,
/// but where a write was refused: a beginning of the names, or of the help that was asked for, is
/// out then.
pub fn command_over<R: Threads + Wait + Sync, F: Files, V: Watch, W: Write, E: Write>(
    rt: &R,
    alloc: Global,
    files: &mut F,
    watch: &V,
    words: &[&str],
    out: &mut W,
    err: &mut E,
) -> u8
    ensures status { result ≤ 2 }
    ensures found { result ≡ 0 →
        IsHelped (spelled words.now) (W.contents out.old) (W.contents out.new)
        ⊎ FindsSome (held_in (F.view files.old))
        (saved_in (F.sent files.new) (F.view files.old) (F.view files.new))
        (keeping_of F.Shared.Reader.remaining F.Shared.shared F.Shared.back)
        (storing_of (F.view files.old) (F.view files.new)) (spelled words.now)
        (W.contents out.old) (W.contents out.new)
        ⊎ FindsNoFault (held_in (F.view files.old))
        (saved_in (F.sent files.new) (F.view files.old) (F.view files.new))
        (keeping_of F.Shared.Reader.remaining F.Shared.shared F.Shared.back)
        (storing_of (F.view files.old) (F.view files.new)) (spelled words.now)
        (W.contents out.old) (W.contents out.new) }
    ensures nothing { result ≡ 1 →
        FindsNone (held_in (F.view files.old))
        (saved_in (F.sent files.new) (F.view files.old) (F.view files.new))
        (keeping_of F.Shared.Reader.remaining F.Shared.shared F.Shared.back)
        (storing_of (F.view files.old) (F.view files.new)) (spelled words.now)
        (W.contents out.old) (W.contents out.new) }
    ensures quiet { result ≢ 2 → Keeps (E.contents err.old) (E.contents err.new) }
    ensures refused { result ≡ 2 →
        IsRefused (held_in (F.view files.old))
        (storing_of (F.view files.old) (F.view files.new)) (spelled words.now)
        (W.contents out.old) (W.contents out.new) (E.contents err.old) (E.contents err.new)
        ⊎ (FindsFaults (held_in (F.view files.old))
        (saved_in (F.sent files.new) (F.view files.old) (F.view files.new))
        (keeping_of F.Shared.Reader.remaining F.Shared.shared F.Shared.back)
        (storing_of (F.view files.old) (F.view files.new)) (spelled words.now)
        (W.contents out.old) (W.contents out.new) × Keeps (E.contents err.old) (E.contents err.new)) }

    // Only the file that the line asks for changes; if it was not saved, there is what was there.
    ensures files { (F.view files.new).honest
        → LeavesFilesOf (spelled words.now) (F.view files.old) (F.view files.new) }

    // A stop at any moment leaves an archive as it was or with the whole change.
    ensures kept { (F.view files.new).honest → KeepsArchiveOf (held_in (F.view files.old))
        (spelled words.now) (F.view files.old) (F.view files.new) }
    ensures undone { result ≡ 2 → (F.view files.new).honest → AreUndone
        (held_in (F.view files.old)) (keeping_of F.Shared.Reader.remaining F.Shared.shared F.Shared.back)
        (spelled words.now) (F.view files.old) (F.view files.new) }
{
    let words = match with_help_as_flag(alloc, words) {
        Ok(words) => words,
        Err(AllocError) => return refuse(alloc, err, &Refusal::Engine(EngineRefusal::Memory)),
    };
    match run(rt, alloc, files, watch, words.as_slice(), out) {
        Ok(status) => status,
        Err(refusal) => refuse(alloc, err, &refusal),
    }
}

/// Does what the words ask for, but for telling a refusal.
fn run<'a, R: Threads + Wait + Sync, F: Files, V: Watch, W: Write>(
    rt: &R,
    alloc: Global,
    files: &mut F,
    watch: &V,
    words: &'a [&'a str],
    out: &mut W,
) -> Result<u8, Refusal<'a>>
    ensures status { IfOk result (λ status. status ≤ 2) }
    ensures found { IfOk result (λ status. status ≡ 0 →
        IsHelped (texts_of words.entry.now) (W.contents out.old) (W.contents out.new)
        ⊎ FindsSome (held_in (F.view files.old))
        (saved_in (F.sent files.new) (F.view files.old) (F.view files.new))
        (keeping_of F.Shared.Reader.remaining F.Shared.shared F.Shared.back)
        (storing_of (F.view files.old) (F.view files.new)) (texts_of words.entry.now)
        (W.contents out.old) (W.contents out.new)
        ⊎ FindsNoFault (held_in (F.view files.old))
        (saved_in (F.sent files.new) (F.view files.old) (F.view files.new))
        (keeping_of F.Shared.Reader.remaining F.Shared.shared F.Shared.back)
        (storing_of (F.view files.old) (F.view files.new)) (texts_of words.entry.now)
        (W.contents out.old) (W.contents out.new)) }
    ensures faults { IfOk result (λ status. status ≡ 2 →
        FindsFaults (held_in (F.view files.old))
        (saved_in (F.sent files.new) (F.view files.old) (F.view files.new))
        (keeping_of F.Shared.Reader.remaining F.Shared.shared F.Shared.back)
        (storing_of (F.view files.old) (F.view files.new)) (texts_of words.entry.now)
        (W.contents out.old) (W.contents out.new)) }
    ensures nothing { IfOk result (λ status. status ≡ 1 →
        FindsNone (held_in (F.view files.old))
        (saved_in (F.sent files.new) (F.view files.old) (F.view files.new))
        (keeping_of F.Shared.Reader.remaining F.Shared.shared F.Shared.back)
        (storing_of (F.view files.old) (F.view files.new)) (texts_of words.entry.now)
        (W.contents out.old) (W.contents out.new)) }
    ensures refused { IfErr result (IsRefusedFor (held_in (F.view files.old))
        (storing_of (F.view files.old) (F.view files.new))
        (texts_of words.entry.now)
        (W.contents out.old) (W.contents out.new)) }
    ensures files { (F.view files.new).honest
        → LeavesFilesOf (texts_of words.entry.now) (F.view files.old) (F.view files.new) }
    ensures kept { (F.view files.new).honest → KeepsArchiveOf (held_in (F.view files.old))
        (texts_of words.entry.now) (F.view files.old) (F.view files.new) }
    ensures undone { OnErr result ((F.view files.new).honest → AreUndone
        (held_in (F.view files.old)) (keeping_of F.Shared.Reader.remaining F.Shared.shared F.Shared.back)
        (texts_of words.entry.now) (F.view files.old) (F.view files.new)) }
{
    match read_line(alloc, words) {
        Ok(line) => {
            if reads_input_twice(&line) {
                return Err(Refusal::Arguments);
            }
            let checks = is_check(&line);
            let count = do_line(rt, alloc, files, watch, line, out)?;
            Ok(status_of(checks, count))
        }
        Err(error) => {
            answer_without_line(words, error, out)?;
            Ok(FOUND)
        }
    }
}

/// Whether a line is one of `check`.
fn is_check(line: &Line<'_>) -> bool
    ensures { IsTrue result ↔ IsCheck line.now }
{
    matches!(line, Line::Check { .. })
}

/// The exit status of a command that found so much, or of `check` if so many files have a fault.
fn status_of(checks: bool, count: usize) -> u8
    ensures { result ≡ status_of checks count }
{
    match (checks, count) {
        (false, 0) => NOTHING,
        (false, _) => FOUND,
        (true, 0) => FOUND,
        (true, _) => FAULTY,
    }
}

/// Does a line that was read, and answers how much was found, or how many files have a fault.
fn do_line<'a, R: Threads + Wait + Sync, F: Files, V: Watch, W: Write>(
    rt: &R,
    alloc: Global,
    files: &mut F,
    watch: &V,
    line: Line<'a>,
    out: &mut W,
) -> Result<usize, Refusal<'a>>
    ensures done { IfOk result (IsDone (held_in (F.view files.old))
        (saved_in (F.sent files.new) (F.view files.old) (F.view files.new))
        (keeping_of F.Shared.Reader.remaining F.Shared.shared F.Shared.back)
        (storing_of (F.view files.old) (F.view files.new)) line.entry
        (W.contents out.old) (W.contents out.new)) }
    ensures refused { IfErr result (IsLineRefused (held_in (F.view files.old))
        (storing_of (F.view files.old) (F.view files.new)) line.entry
        (W.contents out.old) (W.contents out.new)) }
    ensures files { (F.view files.new).honest
        → LeavesFiles line.entry (F.view files.old) (F.view files.new) }
    ensures kept { (F.view files.new).honest → KeepsArchive (held_in (F.view files.old)) line.entry
        (F.view files.old) (F.view files.new) }
    ensures undone { OnErr result ((F.view files.new).honest → IsUndone
        (held_in (F.view files.old)) (keeping_of F.Shared.Reader.remaining F.Shared.shared F.Shared.back)
        line.entry (F.view files.old) (F.view files.new)) }
{
    match line {
        Line::Ask {
            stop,
            plan,
            collection,
            query,
        } => ask::run(rt, alloc, files, stop, &plan, collection, query, out),
        Line::Search {
            index,
            query,
            trust,
        } => search::run(rt, alloc, files, index, query, trust, out),
        Line::Terms {
            index,
            pattern,
            trust,
        } => terms::run(rt, alloc, files, index, pattern, trust, out),
        Line::Build {
            stop,
            plan,
            collection,
            index,
        } => one_file(build::run(rt, alloc, files, watch, stop, &plan, collection, index)),
        Line::Live {
            stop,
            plan,
            searchers,
            script,
        } => live::run(rt, alloc, files, stop, &plan, &searchers, script, out),
        Line::Run {
            stop,
            first,
            collection,
            run,
        } => one_file(run_file::run(alloc, files, stop, first, collection, run)),
        Line::Merge { index, inputs } => one_file(merge::run(rt, alloc, files, index, &inputs)),
        Line::Upgrade { old, new } => one_file(upgrade::run(rt, alloc, files, old, new)),
        Line::Check { paths } => check::run(rt, alloc, files, &paths, out),
        Line::Add {
            stop,
            plan,
            archive,
            collection,
        } => one_file(add::run(rt, alloc, files, watch, stop, &plan, archive, collection)),
        Line::Remove { archive, names } => remove::run(alloc, files, archive, &names),
    }
}

/// How much a command has done that writes one file or changes one archive, or its refusal.
fn one_file<'a>(done: Result<(), Refusal<'a>>) -> Result<usize, Refusal<'a>>
    ensures done { OnOk done.entry (result ≡ Ok 1) }
    ensures refused { IfErr done.entry (λ refusal. result ≡ Err refusal) }
{
    match done {
        Ok(()) => Ok(ONE_FILE),
        Err(refusal) => Err(refusal),
    }
}

/// Prints the help that words which are no line ask for, or refuses them for their error.
fn answer_without_line<'a, W: Write>(
    words: &[&str],
    error: LineError,
    out: &mut W,
) -> Result<(), Refusal<'a>>
    requires { Refuses (texts_of words.now) error }
    ensures helped { OnOk result
        (IsHelped (texts_of words.now) (W.contents out.old) (W.contents out.new)) }
    ensures refused { IfErr result
        (IsLineless (texts_of words.now) (W.contents out.old) (W.contents out.new)) }
{
    if error.help().is_some() {
        return print_whole(help_on(words).as_bytes(), out);
    }
    match error {
        LineError::Clap(_) => Err(Refusal::Arguments),
        LineError::Both => Err(Refusal::Arguments),
        LineError::NamesOrList => Err(Refusal::Arguments),
        LineError::Memory => Err(Refusal::Engine(EngineRefusal::Memory)),
    }
}

/// Prints bytes on the standard output, and flushes.
fn print_whole<'a, W: Write>(bytes: &[u8], out: &mut W) -> Result<(), Refusal<'a>>
    ensures printed { OnOk result (Appends (W.contents out.old) (W.contents out.new) bytes.now) }
    ensures refused { IfErr result
        (IsUnwritten bytes.now (W.contents out.old) (W.contents out.new)) }
{
    if put_all(out, bytes).is_ok() && flush(out).is_ok() {
        Ok(())
    } else {
        Err(Refusal::Write("-"))
    }
}

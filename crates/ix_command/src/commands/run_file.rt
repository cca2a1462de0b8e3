//! `ix run`: inverts a collection file into a run file.

ghost use Rattle.std.specs.Prelude.{◌≡◌, ◌⊎◌, Err, IfOk, IfErr, OnErr, OnOk};
ghost use Rattle.std.specs.Io.KnownBytes.{Appends, Keeps};
ghost use Rattle.ix_run.specs.Runs.{run_bytes};
ghost use Rattle.ix_files.specs.Outputs.{LeavesOthers, LeavesTarget, now_in, saved_in};
ghost use Rattle.ix_files.specs.Reading.{held_in};
ghost use Rattle.ix_files.specs.declared.file_error.FileError.TheVariants as file_error;
ghost use Rattle.ix_command.specs.Refusals.{IsUnsaved};
ghost use Rattle.ix_command.specs.WrittenRuns.{HasRun, IsRunRefused, IsRunSaved, RefusesRun};

use crate::commands::ask::{read_file, read_stop_list};
use crate::outputs::{begin, end, keep_apart};
use crate::refusal::Refusal;
use ix_ask::EngineRefusal;
use ix_files::{FileError, Files};
use ix_output::put_all;
use ix_run::{Run, invert};
use ix_text::{Collection, StopList};
use std::alloc::Global;
use std::io::Write;

/// Writes the run of a collection file into a run file, its documents counted from `first` on. The
/// words of the stop file, where one is named, are left out.
///
/// The output is begun once the run is made, and what is there is untouched until it ends.
pub fn run<'a, F: Files>(
    alloc: Global,
    files: &mut F,
    stop: Option<&'a str>,
    first: u32,
    collection: &'a str,
    output: &'a str,
) -> Result<(), Refusal<'a>>
    ensures saved { OnOk result (IsRunSaved (held_in (F.view files.old))
        (saved_in (F.sent files.new) (F.view files.old) (F.view files.new))
        stop.entry first collection.entry.now output.entry.now) }
    ensures refused { IfErr result (IsRunRefused (held_in (F.view files.old))
        stop.entry first collection.entry.now output.entry.now) }

    // No other file changes, and after an error there is what was there, or the folder could not be synced.
    ensures others { (F.view files.new).honest
        → LeavesOthers output.entry.now (F.view files.old) (F.view files.new) }
    ensures undone { OnErr result ((F.view files.new).honest
        → LeavesTarget output.entry.now (F.view files.old) (F.view files.new)
        ⊎ IsRunSaved (held_in (F.view files.old)) (now_in (F.view files.old) (F.view files.new))
        stop.entry first collection.entry.now output.entry.now) }
{
    let stop_list = read_stop_list(alloc, files, stop)?;
    let text = read_file(alloc, files, collection)?;
    if let Some(path) = stop {
        keep_apart(files, path, output)?;
    }
    keep_apart(files, collection, output)?;
    let run = run_of(alloc, &text, &stop_list, first)?;
    // The text of the run takes no more.
    drop(text);
    save(alloc, files, output, &run)
}

/// The run of a collection text.
fn run_of<'a>(alloc: Global, text: &[u8], stop: &StopList, first: u32) -> Result<Run, Refusal<'a>>
    ensures run { IfOk result (HasRun text.now stop.now first) }
    ensures refused { IfErr result (RefusesRun text.now stop.now first) }
{
    let documents = match Collection::read(alloc, text) {
        Ok(documents) => documents,
        Err(error) => return Err(Refusal::Engine(EngineRefusal::Collection(error))),
    };
    match invert(alloc, documents.docs(), stop, first) {
        Ok(run) => Ok(run),
        Err(error) => Err(Refusal::Engine(EngineRefusal::Run(error))),
    }
}

/// Saves the text of a run.
fn save<'a, F: Files>(
    alloc: Global,
    files: &mut F,
    path: &'a str,
    run: &Run,
) -> Result<(), Refusal<'a>>
    ensures saved { OnOk result
        (saved_in (F.sent files.new) (F.view files.old) (F.view files.new) path.entry.now
        (run_bytes run.now)) }
    ensures refused { IfErr result (IsUnsaved path.entry.now) }
    ensures others { (F.view files.new).honest
        → LeavesOthers path.entry.now (F.view files.old) (F.view files.new) }
    ensures undone { OnErr result ((F.view files.new).honest
        → LeavesTarget path.entry.now (F.view files.old) (F.view files.new)
        ⊎ now_in (F.view files.old) (F.view files.new) path.entry.now (run_bytes run.now)) }
{
    let mut output = begin(alloc, files, path)?;
    let written = match put_run(alloc, &mut output.writer, run) {
        Ok(()) => Ok(()),
        Err(error) => Err(Refusal::unsaved(path, error)),
    };
    end(files, path, output, written)
}

/// Writes the text of a run. If it is out of memory, nothing is written.
fn put_run<W: Write>(alloc: Global, writer: &mut W, run: &Run) -> Result<(), FileError>
    ensures written { OnOk result
        (Appends (W.contents writer.old) (W.contents writer.new) (run_bytes run.now)) }
    ensures memory { result ≡ Err file_error.Memory
        → Keeps (W.contents writer.old) (W.contents writer.new) }
{
    let mut text = Vec::new(alloc);
    if run.write_to(&mut text).is_err() {
        return Err(FileError::Memory);
    }
    match put_all(writer, &text) {
        Ok(()) => Ok(()),
        Err(_) => Err(FileError::Failed),
    }
}

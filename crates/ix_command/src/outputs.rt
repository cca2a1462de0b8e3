//! The output of a command: it is begun once the inputs were read, and ended, or given up after an error.

ghost use Rattle.std.specs.Prelude.{◌≡◌, ◌≢◌, ◌⊎◌, ℕ, List, [], None, Ok, Some, IfErr, IfOk, IsErrAnd, IsOk, OnErr, OnOk};
ghost use Rattle.ix_command.specs.Refusals.{IsFolderLocked, IsSameOrUnsaved, IsUnsaved};
ghost use Rattle.ix_files.specs.Drafts.{ChangesDrafts};
ghost use Rattle.ix_files.specs.Outputs.{AreReady, IsBegunFor, LeavesOthers, LeavesTarget, saved_in};
ghost use Rattle.ix_files.specs.Slots.{Kept, Nothing};
ghost use Rattle.ix_files.specs.Views.{GoesOn};

use crate::refusal::Refusal;
use ix_ask::EngineRefusal;
use ix_build::Plan;
use ix_files::{
    FileError, Files, Output, begin_output, discard_output, finish_output, locate_output,
};
use std::alloc::{AllocError, Global};

/// Begins the output to a path. What is there is untouched until the output ends.
pub fn begin<'a, F: Files>(
    alloc: Global,
    files: &mut F,
    path: &'a str,
) -> Result<Output<F::Writer>, Refusal<'a>>
    ensures ready { IfOk result (λ output. AreReady output.names) }
    ensures begun { IfOk result (λ output. (F.view files.new).honest
        → IsBegunFor (F.view files.new) path.entry.now output.names) }
    ensures empty { IfOk result (λ output. (F.view files.new).honest
        → F.Writer.contents output.writer ≡ Some []) }
    ensures changes { ChangesDrafts ((F.view files.old).place path.entry.now) (F.view files.old)
        (F.view files.new) }
    ensures goes_on { GoesOn (F.view files.old) (F.view files.new) }
    ensures refused { IfErr result (IsUnsaved path.entry.now) }
{
    match begin_output(alloc, files, path) {
        Ok(output) => Ok(output),
        Err(error) => Err(Refusal::unsaved(path, error)),
    }
}

/// Ends the output to a path if it was written, and gives it up otherwise.
pub fn end<'a, F: Files>(
    files: &mut F,
    path: &'a str,
    output: Output<F::Writer>,
    written: Result<(), Refusal<'a>>,
) -> Result<(), Refusal<'a>>
    requires { AreReady output.names }
    ensures saved { OnOk result ((text : List ℕ)
        → ((F.view files.new).honest → F.Writer.contents output.writer ≡ Some text)
        → ((F.view files.old).honest → IsBegunFor (F.view files.old) path.entry.now output.names)
        → saved_in (F.sent files.new) (F.view files.old) (F.view files.new) path.entry.now text) }
    ensures written { OnOk result (IsOk written.entry) }
    ensures refused { IfErr result (λ told. IsUnsaved path.entry.now told
        ⊎ IsErrAnd written.entry (λ refusal. refusal ≡ told)) }
    ensures undone { OnErr result ((F.view files.new).honest
        → IsBegunFor (F.view files.old) path.entry.now output.names → (text : List ℕ)
        → OnOk written.entry (F.Writer.contents output.writer ≡ Some text)
        → LeavesTarget path.entry.now (F.view files.old) (F.view files.new)
        ⊎ (((F.view files.new).slots ((F.view files.old).place path.entry.now)).now ≡ Kept text)) }
    ensures others { (F.view files.new).honest
        → IsBegunFor (F.view files.old) path.entry.now output.names
        → LeavesOthers path.entry.now (F.view files.old) (F.view files.new) }
    ensures goes_on { GoesOn (F.view files.old) (F.view files.new) }
{
    match written {
        Ok(()) => match finish_output(files, path, output) {
            Ok(()) => Ok(()),
            Err(error) => Err(Refusal::unsaved(path, error)),
        },
        Err(refusal) => {
            discard_output(files, path, output);
            Err(refusal)
        }
    }
}

/// Returns an error if a path leads to what cannot be an output, or if there is no such folder, so that no work is done in vain.
pub fn check_output<'a, F: Files>(files: &F, path: &'a str) -> Result<(), Refusal<'a>>
    ensures refused { IfErr result (IsUnsaved path.entry.now) }
{
    match locate_output(files, path) {
        Ok(_) => Ok(()),
        Err(error) => Err(Refusal::unsaved(path, error)),
    }
}

/// Returns an error if an output path leads to a file that is read.
pub fn keep_apart<'a, F: Files>(files: &F, input: &str, output: &'a str) -> Result<(), Refusal<'a>>
    ensures apart { OnOk result ((F.view files.now).honest
        → ((F.view files.now).slots ((F.view files.now).place output.entry.now)).now ≢ Nothing
        → (F.view files.now).place output.entry.now ≢ (F.view files.now).place input.now) }
    ensures refused { IfErr result (IsSameOrUnsaved output.entry.now) }
{
    match files.is_same(output, input) {
        Ok(false) => Ok(()),
        Ok(true) => Err(Refusal::Same(output)),
        Err(error) => Err(Refusal::unsaved(output, error)),
    }
}

/// Locks the folder of a plan in which runs are kept. One that cannot be opened, or of a file system without locks, is left to the
/// build.
pub fn lock_runs<'a, F: Files>(
    alloc: Global,
    files: &F,
    plan: &Plan,
) -> Result<Option<F::Lock>, Refusal<'a>>
    ensures no_folder { plan.now.folder ≡ None → result ≡ Ok None }
    ensures refused { IfErr result (IsFolderLocked plan.now) }
{
    let Some(folder) = plan.folder() else {
        return Ok(None);
    };
    match files.lock_folder(folder) {
        Ok(lock) => Ok(Some(lock)),
        Err(FileError::Locked) => match String::from_str(alloc, folder) {
            Ok(folder) => Err(Refusal::Locked(folder)),
            Err(AllocError) => Err(Refusal::Engine(EngineRefusal::Memory)),
        },
        Err(FileError::Memory) => Err(Refusal::Engine(EngineRefusal::Memory)),
        Err(FileError::Failed | FileError::Exists) => Ok(None),
    }
}

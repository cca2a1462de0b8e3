//! Where the output of a command goes.

ghost use Rattle.std.specs.Prelude.{◌≡◌, ◌⊎◌, ℕ, List, [], Some, IfErr, IfOk, IsErrOf, OnErr, OnOk};
ghost use Rattle.ix_files.specs.Drafts.{ChangesDrafts, HasDraft};
ghost use Rattle.ix_files.specs.Opened.{IsReadError};
ghost use Rattle.ix_files.specs.Outputs.{AreReady, IsBegunFor, IsTargetOf, LeavesOthers, LeavesTarget, saved_in};
ghost use Rattle.ix_files.specs.Slots.{Kept};
ghost use Rattle.ix_files.specs.Views.{GoesOn};
ghost use Rattle.ix_files.specs.declared.file_error.FileError.TheVariants.{Exists};

use crate::draft::{self, Draft};
use crate::file_error::FileError;
use crate::files::Files;
use crate::kind::Kind;
use crate::location::Location;
use std::alloc::Global;

/// The names of a new file.
#[derive(Drop)]
pub struct DraftNames {
    /// What it will replace.
    pub(crate) target: Location,
    /// Its own name.
    pub(crate) own: Location,
}

/// Where the output of a command goes: into a new file, which will take the place of what has its name, or into a device or a pipe
/// as it is.
#[derive(Drop)]
pub struct Output<W> {
    /// The names of the new file; none of a device or a pipe.
    pub(crate) names: Option<DraftNames>,
    /// Writes it. It does not buffer.
    pub writer: W,
}

/// The name of the file that an output to a path will replace or create; none if the path leads to a device or a pipe.
///
/// # Errors
/// `Memory`; `Failed`, also if the path leads to a folder or a socket, or if there is no such folder.
pub fn locate_output<F: Files>(files: &F, path: &str) -> Result<Option<Location>, FileError>
    ensures target { IfOk result (λ target. (F.view files.now).honest
        → IsTargetOf (F.view files.now) path.now target) }
    ensures error { IfErr result (IsReadError (Unit {0})) }
{
    match files.kind(path)? {
        Kind::Missing | Kind::File => Ok(Some(files.locate(path)?)),
        Kind::Stream => Ok(None),
        Kind::Folder | Kind::Other => Err(FileError::Failed),
    }
}

/// Begins the output to a path. A file there is untouched; `-` is the standard output.
///
/// # Errors
/// `Memory`; `Failed`, also if the path leads to a folder or a socket; `Exists` if each name of a new file is taken.
pub fn begin_output<F: Files>(
    alloc: Global,
    files: &mut F,
    path: &str,
) -> Result<Output<F::Writer>, FileError>
    ensures ready { IfOk result (λ output. AreReady output.names) }
    ensures begun { IfOk result (λ output. (F.view files.new).honest
        → IsBegunFor (F.view files.new) path.now output.names) }
    ensures empty { IfOk result (λ output. (F.view files.new).honest
        → F.Writer.contents output.writer ≡ Some []) }
    ensures changes { ChangesDrafts ((F.view files.old).place path.now) (F.view files.old)
        (F.view files.new) }
    ensures goes_on { GoesOn (F.view files.old) (F.view files.new) }
    ensures taken { (F.view files.new).honest → IsErrOf result Exists
        → HasDraft ((F.view files.old).place path.now) (F.view files.new) }
{
    match locate_output(files, path)? {
        Some(location) => {
            let Draft {
                target,
                own,
                writer,
            } = draft::begin(alloc, files, location)?;
            Ok(Output {
                names: Some(DraftNames { target, own }),
                writer,
            })
        }
        None => {
            let writer = files.open_stream(path)?;
            Ok(Output {
                names: None,
                writer,
            })
        }
    }
}

/// Ends the output to a path with what was written: puts a new file on the disk and in its place.
///
/// # Errors
/// `Failed`. A file that was there is untouched, unless the folder could not be synced: then the new one is in its place.
pub fn finish_output<F: Files>(
    files: &mut F,
    path: &str,
    output: Output<F::Writer>,
) -> Result<(), FileError>
    requires { (F.view files.old).honest → AreReady output.names }
    ensures saved { OnOk result ((text : List ℕ)
        → ((F.view files.new).honest → F.Writer.contents output.writer ≡ Some text)
        → ((F.view files.old).honest → IsBegunFor (F.view files.old) path.now output.names)
        → saved_in (F.sent files.new) (F.view files.old) (F.view files.new) path.now text) }
    ensures undone { OnErr result ((F.view files.new).honest
        → IsBegunFor (F.view files.old) path.now output.names → (text : List ℕ)
        → F.Writer.contents output.writer ≡ Some text
        → LeavesTarget path.now (F.view files.old) (F.view files.new)
        ⊎ (((F.view files.new).slots ((F.view files.old).place path.now)).now ≡ Kept text)) }
    ensures others { (F.view files.new).honest
        → IsBegunFor (F.view files.old) path.now output.names
        → LeavesOthers path.now (F.view files.old) (F.view files.new) }
    ensures goes_on { GoesOn (F.view files.old) (F.view files.new) }
{
    let Output { names, writer } = output;
    match names {
        Some(DraftNames { target, own }) => draft::finish(
            files,
            Draft {
                target,
                own,
                writer,
            },
        ),
        None => files.close_stream(path, writer),
    }
}

/// Gives the output to a path up. A file that was there is untouched.
pub fn discard_output<F: Files>(files: &mut F, path: &str, output: Output<F::Writer>)
    requires { (F.view files.old).honest → AreReady output.names }
    ensures others { (F.view files.new).honest
        → IsBegunFor (F.view files.old) path.now output.names
        → LeavesOthers path.now (F.view files.old) (F.view files.new) }
    ensures target { (F.view files.new).honest
        → IsBegunFor (F.view files.old) path.now output.names
        → LeavesTarget path.now (F.view files.old) (F.view files.new) }
    ensures goes_on { GoesOn (F.view files.old) (F.view files.new) }
{
    let Output { names, writer } = output;
    if let Some(DraftNames { target, own }) = names {
        draft::discard(
            files,
            Draft {
                target,
                own,
                writer,
            },
        );
    }
}

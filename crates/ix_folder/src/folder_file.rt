//! Writing a new file of a folder.

ghost use Rattle.std.specs.Prelude.{◌≡◌, ◌≢◌, ◌<◌, ◌+◌, ◌⊎◌, ℕ, List, [], Some, IfOk, IsErrOf, OnErr, OnOk};
ghost use Rattle.ix_files.specs.Changes.{ChangesOnly};
ghost use Rattle.ix_files.specs.Locations.{place_of};
ghost use Rattle.ix_files.specs.Slots.{Growing, Kept, Nothing};
ghost use Rattle.ix_files.specs.Views.{GoesOn, HasCause};
ghost use Rattle.ix_files.specs.declared.file_error.FileError.TheVariants.{Exists};

use ix_files::{FileError, Files, Location};

/// Begins a new file. One of its name is removed first if a program left it there that was killed.
///
/// # Errors
/// `Memory`; `Exists` if there is a file of that name that another program has locked; `Failed`.
pub fn begin_file<F: Files>(files: &mut F, at: &Location) -> Result<F::Writer, FileError>
    ensures growing { OnOk result ((F.view files.new).honest
        → ((F.view files.new).slots (place_of at.now)).now ≡ Growing) }
    ensures empty { IfOk result (λ writer. (F.view files.new).honest
        → F.Writer.contents writer ≡ Some []) }
    ensures changes { ChangesOnly (λ place. place ≡ place_of at.now) (F.view files.old)
        (F.view files.new) }
    ensures goes_on { GoesOn (F.view files.old) (F.view files.new) }
    ensures cause { HasCause (F.view files.old) (F.view files.new) result }
    ensures taken { (F.view files.new).honest → IsErrOf result Exists
        → ((F.view files.new).slots (place_of at.now)).now ≢ Nothing }
{
    let _removed = files.remove_unlocked(at);
    files.create(at)
}

/// Ends a new file: its bytes are on the disk. Its name need not be.
///
/// # Errors
/// `Failed`. The file is removed, if it can be.
pub fn end_file<F: Files>(files: &mut F, at: &Location, writer: F::Writer) -> Result<(), FileError>
    ensures done { OnOk result ((F.view files.new).honest → (text : List ℕ)
        → F.Writer.contents writer ≡ Some text
        → ((F.view files.new).slots (place_of at.now)).now ≡ Kept text) }
    ensures undone { OnErr result ((F.view files.new).honest
        → (((F.view files.new).slots (place_of at.now)).now ≡ Nothing)
        ⊎ ((F.view files.old).faults + 1 < (F.view files.new).faults)) }
    ensures changes { ChangesOnly (λ place. place ≡ place_of at.now) (F.view files.old)
        (F.view files.new) }
    ensures goes_on { GoesOn (F.view files.old) (F.view files.new) }
    ensures cause { OnErr result ((F.view files.new).honest
        → (F.view files.old).faults < (F.view files.new).faults) }
{
    match files.sync(at, writer) {
        Ok(_held) => Ok(()),
        Err(error) => {
            drop_file(files, at);
            Err(error)
        }
    }
}

/// Gives a new file up.
pub fn drop_file<F: Files>(files: &mut F, at: &Location)
    ensures gone { (F.view files.new).honest
        → (((F.view files.new).slots (place_of at.now)).now ≡ Nothing)
        ⊎ ((F.view files.old).faults < (F.view files.new).faults) }
    ensures changes { ChangesOnly (λ place. place ≡ place_of at.now) (F.view files.old)
        (F.view files.new) }
    ensures goes_on { GoesOn (F.view files.old) (F.view files.new) }
{
    let _removed = files.remove(at);
}

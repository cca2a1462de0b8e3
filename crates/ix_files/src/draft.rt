//! Replacing a file: the new one is written beside the old one, and takes its place once it is on the disk.

ghost use Rattle.std.specs.Prelude.{◌≡◌, ◌≢◌, ◌<◌, ◌≤◌, ◌⊎◌, ℕ, List, [], Some, IfOk, IsErrOf, OnErr, OnOk, length, string_bytes};
ghost use Rattle.std.specs.Io.{StartsWith};
ghost use Rattle.ix_files.specs.Changes.{IsOld};
ghost use Rattle.ix_files.specs.Drafts.{ChangesDrafts, HasDraft, IsDraftName, IsDraftPlace, IsFinished, IsOldOrNew, IsUnfinished, own_of, target_of};
ghost use Rattle.ix_files.specs.Locations.{place_of};
ghost use Rattle.ix_files.specs.Slots.{Growing, Nothing, Place};
ghost use Rattle.ix_files.specs.Views.{GoesOn, HasCause, LeavesOnly};
ghost use Rattle.ix_files.specs.declared.file_error.FileError.TheVariants.{Exists};

use crate::file_error::FileError;
use crate::files::Files;
use crate::location::Location;
use std::alloc::{AllocError, Global};

/// How many bytes a file's name has, at most.
const NAME_BYTES: usize = 255;

/// How many bytes of a name its draft's name has, at most, if the whole is too long for it. So no name is its draft's.
const FRONT_BYTES: usize = 200;

/// A new file that is to take the place of another. It is called `.NAME.ix-N`, in the same folder.
#[derive(Drop)]
pub struct Draft<W> {
    /// What it will replace.
    pub(crate) target: Location,
    /// Its own name.
    pub(crate) own: Location,
    /// Writes it.
    pub writer: W,
}

/// Begins a new file that is to take the place of the one at this name, with that one's owner and mode. Files that a program
/// left there which was killed are removed; one that another program writes is left alone.
///
/// # Errors
/// `Memory`; `Failed`; `Exists` if each name is taken. What is at the name is untouched.
pub fn begin<F: Files>(
    alloc: Global,
    files: &mut F,
    target: Location,
) -> Result<Draft<F::Writer>, FileError>
    ensures target { IfOk result (λ draft. target_of draft ≡ place_of target) }
    ensures own { IfOk result (λ draft. IsDraftPlace (target_of draft) (own_of draft)) }
    ensures growing { IfOk result (λ draft. (F.view files.new).honest
        → ((F.view files.new).slots (own_of draft)).now ≡ Growing) }
    ensures empty { IfOk result (λ draft. (F.view files.new).honest
        → F.Writer.contents draft.writer ≡ Some []) }
    ensures changes { ChangesDrafts (place_of target) (F.view files.old) (F.view files.new) }
    ensures goes_on { GoesOn (F.view files.old) (F.view files.new) }
    ensures cause { HasCause (F.view files.old) (F.view files.new) result }
    ensures taken { (F.view files.new).honest → IsErrOf result Exists
        → HasDraft (place_of target) (F.view files.new) }
{
    for number in 1..u32::MAX {
        let own = draft_of(alloc, &target, number)?;
        // What a killed program left there is not locked.
        let _removed = files.remove_unlocked(&own);
        remove_left(alloc, files, &target, number + 1)?;
        match files.create(&own) {
            Ok(writer) => {
                files.dress(&own, &target);
                return Ok(Draft {
                    target,
                    own,
                    writer,
                });
            }
            // Another program writes it.
            Err(FileError::Exists) => {}
            Err(error) => return Err(error),
        }
    }
    Err(FileError::Exists)
}

/// Removes the drafts that killed programs left, from this number to one of which there is none or that is locked.
fn remove_left<F: Files>(
    alloc: Global,
    files: &mut F,
    target: &Location,
    first: u32,
) -> Result<(), AllocError>
    requires { 0 < first }
    ensures changes { ChangesDrafts (place_of target.now) (F.view files.old) (F.view files.new) }
    ensures goes_on { GoesOn (F.view files.old) (F.view files.new) }
{
    for number in first..u32::MAX {
        let left = draft_of(alloc, target, number)?;
        if !files.remove_unlocked(&left) {
            break;
        }
    }
    Ok(())
}

/// Puts the new file on the disk and in the place of the old one. A stop at any moment leaves the old one, or the new one whole.
///
/// # Errors
/// `Failed`. The old one is untouched and the new one removed, if it can be; or, if the folder could not be synced, the new one is
/// in its place.
pub fn finish<F: Files>(files: &mut F, draft: Draft<F::Writer>) -> Result<(), FileError>
    requires { (F.view files.old).honest → IsDraftPlace (target_of draft) (own_of draft) }
    ensures done { OnOk result ((F.view files.new).honest → (text : List ℕ)
        → F.Writer.contents draft.writer ≡ Some text
        → IsFinished (target_of draft) (own_of draft) text (F.view files.new)) }
    ensures undone { OnErr result ((F.view files.new).honest
        → ((F.view files.old).slots (own_of draft)).now ≡ Growing
        → (text : List ℕ) → F.Writer.contents draft.writer ≡ Some text
        → IsUnfinished (target_of draft) (own_of draft) text (F.view files.old)
        (F.view files.new)) }
    ensures others { (F.view files.new).honest → (place : Place)
        → place ≢ target_of draft → place ≢ own_of draft
        → ((F.view files.new).slots place).now ≡ ((F.view files.old).slots place).now }
    ensures any_moment { (F.view files.new).honest → (text : List ℕ)
        → F.Writer.contents draft.writer ≡ Some text
        → LeavesOnly
        (IsOldOrNew (λ place. place ≡ own_of draft) (target_of draft) text (F.view files.old).slots)
        (F.view files.old) (F.view files.new) }
    ensures goes_on { GoesOn (F.view files.old) (F.view files.new) }
    ensures cause { OnErr result ((F.view files.new).honest
        → (F.view files.old).faults < (F.view files.new).faults) }
{
    let Draft {
        target,
        own,
        writer,
    } = draft;
    let held = match files.sync(&own, writer) {
        Ok(held) => held,
        Err(error) => {
            let _removed = files.remove(&own);
            return Err(error);
        }
    };
    if let Err(error) = files.rename(&own, &target) {
        let _removed = files.remove(&own);
        return Err(error);
    }
    files.sync_folder(target.folder())?;
    // The new file stays locked until it has its name.
    drop(held);
    Ok(())
}

/// Gives the new file up. The old one is untouched.
pub fn discard<F: Files>(files: &mut F, draft: Draft<F::Writer>)
    ensures gone { (F.view files.new).honest
        → ((F.view files.old).slots (own_of draft)).now ≡ Growing
        → (((F.view files.new).slots (own_of draft)).now ≡ Nothing)
        ⊎ ((F.view files.old).faults < (F.view files.new).faults) }
    ensures others { (F.view files.new).honest → (place : Place) → place ≢ own_of draft
        → (F.view files.new).slots place ≡ (F.view files.old).slots place }
    ensures any_moment { (F.view files.new).honest
        → LeavesOnly (IsOld (λ place. place ≡ own_of draft) (F.view files.old).slots)
        (F.view files.old) (F.view files.new) }
    ensures goes_on { GoesOn (F.view files.old) (F.view files.new) }
{
    let _removed = files.remove(&draft.own);
}

/// The draft of a file, by its number.
fn draft_of(alloc: Global, target: &Location, number: u32) -> Result<Location, AllocError>
    requires { 0 < number }
    ensures { IfOk result (λ draft. IsDraftPlace (place_of target.now) (place_of draft)) }
{
    let name = draft_name(alloc, target.name(), number)?;
    target.beside(alloc, name)
}

/// The name of a draft of a file, by its number.
fn draft_name(alloc: Global, name: &str, number: u32) -> Result<String, AllocError>
    requires { 0 < number }
    ensures spelled { IfOk result (λ draft. IsDraftName name.now (string_bytes draft)) }
    ensures another { IfOk result (λ draft. string_bytes draft ≢ name.now) }
{
    let end = format!(in alloc; ".ix-{number}")?;
    let mut draft = String::from_str(alloc, ".")?;
    draft.push_str(front_of(name, NAME_BYTES - 1 - end.len()))?;
    draft.push_str(end.as_str())?;
    Ok(draft)
}

/// A text, if it has at most `room` bytes; else the characters that its first `FRONT_BYTES` bytes hold whole.
fn front_of(text: &str, room: usize) -> &str
    requires { FRONT_BYTES ≤ room }
    ensures begins { StartsWith text.now result.now }
    ensures short { length result.now ≤ room }
    ensures whole { length text.now ≤ room → result.now ≡ text.now }
    ensures cut { room < length text.now → length result.now ≤ FRONT_BYTES }
{
    if text.len() <= room {
        text
    } else {
        &text[..text.floor_char_boundary(FRONT_BYTES)]
    }
}

//! How a manifest takes the place of the one before.

ghost use Rattle.std.specs.Prelude.{◌≡◌, ◌≢◌, ◌<◌, ◌⊎◌, ℕ, List, Option, Some, IfErr, IfOk, IsErrOf, OnErr, OnOk};
ghost use Rattle.ix_files.specs.Changes.{ChangesOnly, IsOld};
ghost use Rattle.ix_files.specs.Drafts.{IsOldOrNew};
ghost use Rattle.ix_files.specs.Locations.{place_of};
ghost use Rattle.ix_files.specs.Slots.{Kept, Place};
ghost use Rattle.ix_files.specs.Views.{GoesOn, LeavesOnly};
ghost use Rattle.ix_folder.specs.FolderNames.{draft_place, manifest_place};
ghost use Rattle.ix_folder.specs.PublishErrors.{IsBefore};
ghost use Rattle.ix_folder.specs.Publishing.{IsPrepared, IsReplaced, Rests};
ghost use Rattle.ix_folder.specs.Standings.{AreFileNames, AreKept, AreStops, IsEither, IsSettled, NamedFile, Standing, Stands, files_of};
ghost use Rattle.ix_folder.specs.declared.publish_error.PublishError.TheVariants.{NotKept};

use crate::folder_file::{begin_file, drop_file, end_file};
use crate::publish_error::PublishError;
use ix_files::{FileError, Files, Location};
use ix_output::put_all;
use std::alloc::{AllocError, Global};

/// The name of the manifest.
const MANIFEST: &str = "manifest";

/// The name of the manifest that will take its place.
const DRAFT: &str = "manifest.new";

/// Puts all names of a folder on the disk, by its path as it is located. The program that wrote there before may have been
/// killed: then what is there is what no crash may take away from now on, and nothing that was there before may come back.
///
/// # Errors
/// `Failed`.
pub fn settle<F: Files>(files: &mut F, folder: &str) -> Result<(), FileError>
    ensures settled { OnOk result ((F.view files.new).honest → (now : Option Standing)
        → Stands folder.now now (F.view files.old).slots → AreFileNames folder.now (files_of now)
        → IsSettled folder.now now (F.view files.new).slots) }
    ensures stays { (F.view files.new).honest → (place : Place)
        → ((F.view files.new).slots place).now ≡ ((F.view files.old).slots place).now }
    // A stop leaves what it could leave before.
    ensures any_moment { (F.view files.new).honest
        → LeavesOnly (AreStops (F.view files.old).slots) (F.view files.old) (F.view files.new) }
    ensures changes { ChangesOnly (λ place. place.folder ≡ folder.now) (F.view files.old)
        (F.view files.new) }
    ensures goes_on { GoesOn (F.view files.old) (F.view files.new) }
    ensures cause { OnErr result ((F.view files.new).honest
        → (F.view files.old).faults < (F.view files.new).faults) }
{
    files.sync_folder(folder)?;
    Ok(())
}

/// Puts a manifest in the place of the one before, in a folder by its path as it is located. The bytes of the files that it
/// names have to be on the disk; their names need not be.
///
/// # Errors
/// `Memory` and `Write`: the manifest before is in its place, and the new one is removed, if it can be. `NotKept`: the one
/// or the other is in its place.
pub fn publish<F: Files>(
    alloc: Global,
    files: &mut F,
    folder: &str,
    text: &[u8],
) -> Result<(), PublishError>
    // From now on each stop leaves the new manifest and its files.
    ensures done { OnOk result ((F.view files.new).honest → (named : List NamedFile)
        → AreFileNames folder.now named → AreKept named (F.view files.old).slots
        → IsSettled folder.now (Some (record { manifest = text.now; files = named }))
        (F.view files.new).slots) }
    ensures before { IfErr result (λ error. IsBefore error → (F.view files.new).honest
        → (now : Option Standing) → AreFileNames folder.now (files_of now)
        → IsSettled folder.now now (F.view files.old).slots
        → IsSettled folder.now now (F.view files.new).slots) }
    // A stop at any moment leaves what was there, or the new manifest and its files.
    ensures any_moment { (F.view files.new).honest → (now : Option Standing)
        → AreFileNames folder.now (files_of now)
        → IsSettled folder.now now (F.view files.old).slots → (named : List NamedFile)
        → AreFileNames folder.now named → AreKept named (F.view files.old).slots
        → LeavesOnly
        (IsEither folder.now now (Some (record { manifest = text.now; files = named })))
        (F.view files.old) (F.view files.new) }
    ensures changes { ChangesOnly (λ place. place.folder ≡ folder.now) (F.view files.old)
        (F.view files.new) }
    ensures goes_on { GoesOn (F.view files.old) (F.view files.new) }
    ensures cause { (F.view files.new).honest → IsErrOf result NotKept
        → (F.view files.old).faults < (F.view files.new).faults }
{
    let draft = locate(alloc, folder, DRAFT)?;
    let manifest = locate(alloc, folder, MANIFEST)?;
    prepare(files, &draft, text)?;
    match replace(files, &draft, &manifest) {
        Ok(()) => Ok(()),
        Err(_) => Err(PublishError::NotKept),
    }
}

/// The name in a folder.
fn locate(alloc: Global, folder: &str, name: &str) -> Result<Location, AllocError>
    ensures { IfOk result
        (λ location. place_of location ≡ record { folder = folder.now; name = name.now }) }
{
    let folder = String::from_str(alloc, folder)?;
    let name = String::from_str(alloc, name)?;
    let location = Location::new(alloc, folder, name)?;
    Ok(location)
}

/// Puts the new manifest on the disk, and the names in its folder.
fn prepare<F: Files>(files: &mut F, draft: &Location, text: &[u8]) -> Result<(), PublishError>
    ensures prepared { OnOk result ((F.view files.new).honest
        → IsPrepared (place_of draft.now) text.now (F.view files.old).slots
        (F.view files.new).slots) }
    ensures rests { (F.view files.new).honest
        → Rests (place_of draft.now) (F.view files.old).slots (F.view files.new).slots }
    ensures any_moment { (F.view files.new).honest
        → LeavesOnly (IsOld (λ place. place ≡ place_of draft.now) (F.view files.old).slots)
        (F.view files.old) (F.view files.new) }
    ensures changes { ChangesOnly (λ place. place.folder ≡ (place_of draft.now).folder)
        (F.view files.old) (F.view files.new) }
    ensures goes_on { GoesOn (F.view files.old) (F.view files.new) }
    ensures before { IfErr result IsBefore }
{
    write_draft(files, draft, text)?;
    // The names of the new files have to be on the disk before a manifest that names them is there.
    match files.sync_folder(draft.folder()) {
        Ok(()) => Ok(()),
        Err(_) => {
            let _removed = files.remove(draft);
            Err(PublishError::Write)
        }
    }
}

/// Writes the new manifest beside the one before.
fn write_draft<F: Files>(files: &mut F, draft: &Location, text: &[u8]) -> Result<(), PublishError>
    ensures written { OnOk result ((F.view files.new).honest
        → ((F.view files.new).slots (place_of draft.now)).now ≡ Kept text.now) }
    ensures changes { ChangesOnly (λ place. place ≡ place_of draft.now) (F.view files.old)
        (F.view files.new) }
    ensures goes_on { GoesOn (F.view files.old) (F.view files.new) }
    ensures before { IfErr result IsBefore }
{
    let mut writer = begin_file(files, draft)?;
    if put_all(&mut writer, text).is_err() {
        drop_file(files, draft);
        return Err(PublishError::Write);
    }
    end_file(files, draft, writer)?;
    Ok(())
}

/// Renames the new manifest to its place, and puts its name on the disk.
fn replace<F: Files>(files: &mut F, draft: &Location, manifest: &Location) -> Result<(), FileError>
    requires { place_of draft.now ≢ place_of manifest.now }
    ensures replaced { OnOk result ((F.view files.new).honest
        → IsReplaced (place_of draft.now) (place_of manifest.now) (F.view files.old).slots
        (F.view files.new).slots) }
    ensures any_moment { (F.view files.new).honest → (text : List ℕ)
        → ((F.view files.old).slots (place_of draft.now)).now ≡ Kept text
        → LeavesOnly (IsOldOrNew (λ place. place ≡ place_of draft.now) (place_of manifest.now) text
        (F.view files.old).slots) (F.view files.old) (F.view files.new) }
    ensures changes { ChangesOnly (λ place. (place.folder ≡ (place_of draft.now).folder)
        ⊎ (place.folder ≡ (place_of manifest.now).folder)) (F.view files.old) (F.view files.new) }
    ensures goes_on { GoesOn (F.view files.old) (F.view files.new) }
    ensures cause { OnErr result ((F.view files.new).honest
        → (F.view files.old).faults < (F.view files.new).faults) }
{
    files.rename(draft, manifest)?;
    // Nothing is acknowledged before the manifest's own name is on the disk.
    files.sync_folder(manifest.folder())?;
    Ok(())
}

//! Opening an archive's folder to change it.

ghost use Rattle.std.specs.Prelude.{◌≡◌, ◌+◌, ◌<◌, ◌^◌, ◌++◌, List, ℕ, All, Contains, Option, IfOk, IfSome, codes, decimal, map, option_map, string_bytes};
ghost use Rattle.ix_files.specs.Changes.{ChangesOnly};
ghost use Rattle.ix_files.specs.Views.{GoesOn, LeavesOnly};
ghost use Rattle.ix_folder.specs.FolderNames.{IsStray, lock_place, manifest_place};
ghost use Rattle.ix_folder.specs.Standings.{AreStops};
ghost use Rattle.ix_manifest.specs.ManifestText.{view_of};
ghost use Rattle.ix_archive.specs.Archives.{Archive};
ghost use Rattle.ix_archive.specs.Folders.{IsArchiveAt};
ghost use Rattle.ix_archive_writer.specs.Commits.{AreAllNames, IsFound, IsLeftArchive, LeavesAmong};
ghost use Rattle.ix_archive_writer.specs.Readings.{IsManifestOf};

use crate::ChangeError;
use crate::locations::lock_at;
use crate::reading::read_whole;
use ix_archive::{ArchiveError, manifest_at};
use ix_files::{FileError, Files};
use ix_folder::{is_own_name, settle, sweep};
use ix_manifest::{Manifest, ManifestError};
use std::alloc::{AllocError, Global};

/// Locks an archive's folder, by its path as it is located, and returns the manifest, if there is one. What killed programs
/// left is on the disk from now on, or removed.
pub(crate) fn open<F: Files>(
    alloc: Global,
    files: &mut F,
    folder: &str,
) -> Result<(F::Lock, Option<Manifest>), ChangeError>
    ensures room { IfOk result (λ opened.
        IfSome opened.1 (λ manifest. manifest.next + 1 < 2 ^ 64)) }
    ensures found { IfOk result (λ opened. (F.view files.new).honest → (now : Option Archive)
        → IsArchiveAt folder.now now (F.view files.old).slots
        → IsFound folder.now now (option_map view_of opened.1) (F.view files.new).slots) }
    ensures any_moment { (F.view files.new).honest
        → (among : List (Option Archive)) (now : Option Archive) → Contains among now
        → LeavesAmong folder.now among (F.view files.old).slots
        → IsArchiveAt folder.now now (F.view files.old).slots
        → LeavesOnly (IsLeftArchive folder.now among) (F.view files.old) (F.view files.new) }
    ensures changes { ChangesOnly (λ place. place.folder ≡ folder.now) (F.view files.old)
        (F.view files.new) }
    ensures goes_on { GoesOn (F.view files.old) (F.view files.new) }
{
    let lock = lock(alloc, files, folder)?;
    let manifest = settle_and_read(alloc, files, folder)?;
    let kept = kept_names(alloc, files, folder, &manifest)?;
    match sweep(alloc, files, folder, kept.as_slice()) {
        Ok(()) => Ok((lock, manifest)),
        Err(error) => Err(ChangeError::of_read(error)),
    }
}

/// Locks a folder's archive.
fn lock<F: Files>(alloc: Global, files: &mut F, folder: &str) -> Result<F::Lock, ChangeError>
    ensures changes { ChangesOnly (λ place. place ≡ lock_place folder.now)
        (F.view files.old) (F.view files.new) }
    ensures goes_on { GoesOn (F.view files.old) (F.view files.new) }
{
    let at = lock_at(alloc, folder)?;
    match files.lock(&at) {
        Ok(lock) => Ok(lock),
        Err(FileError::Locked) => Err(ChangeError::Archive(ArchiveError::Locked)),
        Err(error) => Err(ChangeError::from(error)),
    }
}

/// Puts what is in a folder on the disk, and reads the manifest.
fn settle_and_read<F: Files>(
    alloc: Global,
    files: &mut F,
    folder: &str,
) -> Result<Option<Manifest>, ChangeError>
    ensures room { IfOk result (λ found.
        IfSome found (λ manifest. manifest.next + 1 < 2 ^ 64)) }
    ensures found { IfOk result (λ found. (F.view files.new).honest → (now : Option Archive)
        → IsArchiveAt folder.now now (F.view files.old).slots
        → IsFound folder.now now (option_map view_of found) (F.view files.new).slots) }
    ensures any_moment { (F.view files.new).honest
        → LeavesOnly (AreStops (F.view files.old).slots) (F.view files.old) (F.view files.new) }
    ensures changes { ChangesOnly (λ place. place.folder ≡ folder.now) (F.view files.old)
        (F.view files.new) }
    ensures goes_on { GoesOn (F.view files.old) (F.view files.new) }
{
    settle(files, folder)?;
    let manifest = read_manifest(alloc, files, folder)?;
    if let Some(manifest) = &manifest {
        if manifest.next == u64::MAX {
            return Err(ChangeError::Archive(ArchiveError::TooLarge));
        }
    }
    Ok(manifest)
}

/// The manifest of a folder, if there is one.
fn read_manifest<F: Files>(
    alloc: Global,
    files: &F,
    folder: &str,
) -> Result<Option<Manifest>, ChangeError>
    ensures { IfOk result (λ found. (F.view files.now).honest
        → IsManifestOf ((F.view files.now).slots (manifest_place folder.now)).now
        (option_map view_of found)) }
{
    let at = manifest_at(alloc, folder)?;
    let text = match read_whole(alloc, files, &at) {
        Ok(text) => text,
        Err(error) => return Err(ChangeError::of_read(error)),
    };
    let Some(text) = text else {
        return Ok(None);
    };
    match ix_manifest::read(alloc, text.as_slice()) {
        Ok(manifest) => Ok(Some(manifest)),
        Err(ManifestError::Memory) => Err(ChangeError::Memory),
        Err(ManifestError::Line(line)) => Err(ChangeError::Archive(ArchiveError::Manifest(line))),
    }
}

/// The names of the files of a manifest. If there is none, the folder has to have no file but what a program leaves that was
/// killed before there was one.
fn kept_names<F: Files>(
    alloc: Global,
    files: &F,
    folder: &str,
    manifest: &Option<Manifest>,
) -> Result<Vec<String>, ChangeError>
    ensures { IfOk result (λ kept.
        AreAllNames (option_map view_of manifest.now) (map string_bytes kept.items)) }
{
    match manifest {
        Some(manifest) => Ok(names_of(alloc, manifest)?),
        None => {
            check_empty(files, folder)?;
            Ok(Vec::new(alloc))
        }
    }
}

/// Returns an error if a folder has a file that no program leaves before there is a manifest.
fn check_empty<F: Files>(files: &F, folder: &str) -> Result<(), ChangeError> {
    let names = match files.list(folder) {
        Ok(names) => names,
        Err(error) => return Err(ChangeError::of_read(error)),
    };
    for name in &names {
        if !is_own_name(name.as_str()) {
            return Err(ChangeError::Archive(ArchiveError::NoManifest));
        }
    }
    Ok(())
}

/// The names of the files that a manifest names.
fn names_of(alloc: Global, manifest: &Manifest) -> Result<Vec<String>, AllocError>
    ensures segments { IfOk result (λ names.
        All (λ segment. Contains (map string_bytes names.items)
        (codes "segment-" ++ decimal segment.file)) manifest.now.segments.items) }
    ensures removals { IfOk result (λ names. IfSome manifest.now.removals
        (λ line. Contains (map string_bytes names.items) (codes "removals-" ++ decimal line.file))) }
{
    let mut names = Vec::new(alloc);
    if let Some(removals) = &manifest.removals {
        let file = removals.file;
        names.push(format!(in alloc; "removals-{file}")?)?;
    }
    for segment in &manifest.segments {
        let file = segment.file;
        names.push(format!(in alloc; "segment-{file}")?)?;
    }
    Ok(names)
}

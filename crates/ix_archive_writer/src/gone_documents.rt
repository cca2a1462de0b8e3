//! Removing documents of an archive by their names.

ghost use Rattle.std.specs.Prelude.{◌≡◌, ◌+◌, ◌<◌, ◌^◌, ◌∷◌, [], List, Option, Some, Contains, IfOk};
ghost use Rattle.ix_files.specs.Changes.{ChangesOnly};
ghost use Rattle.ix_files.specs.Views.{GoesOn, LeavesOnly};
ghost use Rattle.ix_manifest.specs.ManifestText.{view_of};
ghost use Rattle.ix_archive.specs.Archives.{Archive};
ghost use Rattle.ix_archive.specs.Folders.{IsArchiveAt};
ghost use Rattle.ix_archive_writer.specs.Changes.{IsNewlyGone, texts_in};
ghost use Rattle.ix_archive_writer.specs.Commits.{IsFoundIn, IsLeftOrWithout, LeavesAmong, LeavesWithout};

use crate::ChangeError;
use crate::finding::find_taken;
use crate::opening::open;
use crate::removals::{put_removals, read_removals, removals_with, texts_of};
use ix_archive::ArchiveError;
use ix_files::Files;
use ix_manifest::Manifest;
use std::alloc::Global;

/// Removes the documents of these names that the archive in a folder has now, by one commit, and returns how many were there. A
/// document that is added later under one of the names is there. If none is there, nothing changes.
///
/// # Errors
/// `Memory`; `Read`; `Write`; `Archive`: `Locked`, `NoManifest` if there is no archive, `Manifest`, `Missing`, `Segment`, `Differs`,
/// and `TooLarge` if there is no number for a new file. After these the archive is as it was. `Archive` with `NotKept`: it is as
/// it was or without the documents.
pub fn remove<F: Files>(
    alloc: Global,
    files: &mut F,
    path: &str,
    names: &[&str],
) -> Result<u64, ChangeError>
    // From now on each stop leaves the archive without the documents.
    ensures done { IfOk result (λ count. (F.view files.new).honest → (archive : Archive)
        → IsArchiveAt ((F.view files.old).folder path.now) (Some archive) (F.view files.old).slots
        → IsNewlyGone (texts_in names.now) archive count
        × LeavesWithout ((F.view files.old).folder path.now) (texts_in names.now) archive
        (F.view files.new).slots) }
    // A stop at any moment leaves what it could leave before, or the archive without the documents.
    ensures any_moment { (F.view files.new).honest
        → (among : List (Option Archive)) (archive : Archive) → Contains among (Some archive)
        → LeavesAmong ((F.view files.old).folder path.now) among (F.view files.old).slots
        → IsArchiveAt ((F.view files.old).folder path.now) (Some archive) (F.view files.old).slots
        → LeavesOnly (IsLeftOrWithout ((F.view files.old).folder path.now) among
        (texts_in names.now) archive) (F.view files.old) (F.view files.new) }
    ensures changes { ChangesOnly (λ place. place.folder ≡ (F.view files.old).folder path.now)
        (F.view files.old) (F.view files.new) }
    ensures goes_on { GoesOn (F.view files.old) (F.view files.new) }
{
    let folder = match files.locate_folder(path) {
        Ok(folder) => folder,
        Err(error) => return Err(ChangeError::of_read(error)),
    };
    remove_in(alloc, files, folder.as_str(), names)
}

/// Removes documents of the archive in a folder, by its path as it is located.
fn remove_in<F: Files>(
    alloc: Global,
    files: &mut F,
    folder: &str,
    names: &[&str],
) -> Result<u64, ChangeError>
    ensures done { IfOk result (λ count. (F.view files.new).honest → (archive : Archive)
        → IsArchiveAt folder.now (Some archive) (F.view files.old).slots
        → IsNewlyGone (texts_in names.now) archive count
        × LeavesWithout folder.now (texts_in names.now) archive (F.view files.new).slots) }
    ensures any_moment { (F.view files.new).honest
        → (among : List (Option Archive)) (archive : Archive) → Contains among (Some archive)
        → LeavesAmong folder.now among (F.view files.old).slots
        → IsArchiveAt folder.now (Some archive) (F.view files.old).slots
        → LeavesOnly (IsLeftOrWithout folder.now among (texts_in names.now) archive)
        (F.view files.old) (F.view files.new) }
    ensures changes { ChangesOnly (λ place. place.folder ≡ folder.now) (F.view files.old)
        (F.view files.new) }
    ensures goes_on { GoesOn (F.view files.old) (F.view files.new) }
{
    let (lock, manifest) = open(alloc, files, folder)?;
    let Some(manifest) = manifest else {
        return Err(ChangeError::Archive(ArchiveError::NoManifest));
    };
    let result = remove_from(alloc, files, folder, manifest, names);
    drop(lock);
    result
}

/// Removes documents of an archive with this manifest.
fn remove_from<F: Files>(
    alloc: Global,
    files: &mut F,
    folder: &str,
    manifest: Manifest,
    names: &[&str],
) -> Result<u64, ChangeError>
    requires { manifest.next + 1 < 2 ^ 64 }
    ensures done { IfOk result (λ count. (F.view files.new).honest → (archive : Archive)
        → IsFoundIn folder.now archive (view_of manifest) (F.view files.old).slots
        → IsNewlyGone (texts_in names.now) archive count
        × LeavesWithout folder.now (texts_in names.now) archive (F.view files.new).slots) }
    ensures any_moment { (F.view files.new).honest → (archive : Archive)
        → IsFoundIn folder.now archive (view_of manifest) (F.view files.old).slots
        → LeavesOnly (IsLeftOrWithout folder.now (Some archive ∷ []) (texts_in names.now) archive)
        (F.view files.old) (F.view files.new) }
    ensures changes { ChangesOnly (λ place. place.folder ≡ folder.now) (F.view files.old)
        (F.view files.new) }
    ensures goes_on { GoesOn (F.view files.old) (F.view files.new) }
{
    let removed = read_removals(alloc, files, folder, &manifest)?;
    let (taken, total) = find_taken(alloc, files, folder, &manifest.segments, names, &removed)?;
    if taken.is_empty() {
        return Ok(0);
    }
    let taken_names = texts_of(alloc, &taken)?;
    let removals = removals_with(alloc, &removed, &taken_names, total.max(1))?;
    put_removals(alloc, files, folder, manifest, &removals)?;
    Ok(taken.len() as u64)
}

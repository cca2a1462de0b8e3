//! Adding documents to an archive.

ghost use Rattle.std.specs.Prelude.{◌≡◌, ◌+◌, ◌<◌, ◌^◌, ◌∷◌, [], List, ℕ, Contains, Option, Some, IfOk, IfSome, OnOk, option_map};
ghost use Rattle.ix_files.specs.Changes.{ChangesOnly};
ghost use Rattle.ix_files.specs.Views.{GoesOn, LeavesOnly};
ghost use Rattle.ix_manifest.specs.ManifestText.{view_of};
ghost use Rattle.ix_archive.specs.Archives.{Archive};
ghost use Rattle.ix_archive.specs.Folders.{IsArchiveAt};
ghost use Rattle.ix_archive_writer.specs.Changes.{after_adding, archive_or, stop_given};
ghost use Rattle.ix_archive_writer.specs.Commits.{IsFound, IsLeftArchive, IsReady, LeavesAmong};

use crate::ChangeError;
use crate::adding::add_segment;
use crate::documents::read_stop;
use crate::opening::open;
use ix_archive::{ArchiveError, segment_at};
use ix_build::{Plan, Watch};
use ix_files::{Files, Kind};
use ix_manifest::Manifest;
use ix_text::{Collection, StopList};
use std::alloc::{AllocError, Global};
use std::sync::Wait;
use std::thread::Threads;

/// Adds documents to the archive in a folder, behind its own, by one commit. If there is no archive, one is made with this stop
/// list, or with none; there may be no folder yet, or one in which a program was killed that made the first archive. The runs of
/// the blocks are kept in memory, whatever the plan says. No documents change nothing if there is an archive.
///
/// # Errors
/// `Memory`; `Read`; `Write`; `Build`; `Archive`: `Locked`, `NoManifest` if the folder has other files and no manifest,
/// `Manifest`, `Stop` if a stop list is given that is not the archive's, `Missing`, `Segment`, and `TooLarge` if there is no
/// number for a new file. After these the archive is as it was. `Archive` with `NotKept`: it is as it was or has the documents.
pub fn add<R: Threads + Wait + Sync, F: Files, V: Watch>(
    rt: &R,
    alloc: Global,
    files: &mut F,
    watch: &V,
    path: &str,
    stop: Option<&StopList>,
    documents: &Collection<'_>,
    plan: &Plan,
) -> Result<(), ChangeError>
    // From now on each stop leaves the archive with the documents.
    ensures done { OnOk result ((F.view files.new).honest → (now : Option Archive)
        → IsArchiveAt ((F.view files.old).folder path.now) now (F.view files.old).slots
        → LeavesAmong ((F.view files.old).folder path.now)
        (Some (after_adding now (stop_given stop.entry) documents.now) ∷ [])
        (F.view files.new).slots) }
    // A stop at any moment leaves what it could leave before, or the archive with the documents.
    ensures any_moment { (F.view files.new).honest
        → (among : List (Option Archive)) (now : Option Archive) → Contains among now
        → LeavesAmong ((F.view files.old).folder path.now) among (F.view files.old).slots
        → IsArchiveAt ((F.view files.old).folder path.now) now (F.view files.old).slots
        → LeavesOnly (IsLeftArchive ((F.view files.old).folder path.now)
        (Some (after_adding now (stop_given stop.entry) documents.now) ∷ among))
        (F.view files.old) (F.view files.new) }
    ensures changes { ChangesOnly (λ place. place.folder ≡ (F.view files.old).folder path.now)
        (F.view files.old) (F.view files.new) }
    ensures goes_on { GoesOn (F.view files.old) (F.view files.new) }
{
    make_folder(files, path)?;
    let folder = match files.locate_folder(path) {
        Ok(folder) => folder,
        Err(error) => return Err(ChangeError::of_read(error)),
    };
    add_in(
        rt,
        alloc,
        files,
        watch,
        folder.as_str(),
        stop,
        documents,
        plan,
    )
}

/// Makes a folder, if the path leads to nothing.
fn make_folder<F: Files>(files: &mut F, path: &str) -> Result<(), ChangeError>
    ensures changes { ChangesOnly (λ place. ⊥) (F.view files.old) (F.view files.new) }
    ensures goes_on { GoesOn (F.view files.old) (F.view files.new) }
{
    match files.kind(path) {
        Ok(Kind::Missing) => {}
        Ok(_) => return Ok(()),
        Err(error) => return Err(ChangeError::of_read(error)),
    }
    files.create_folder(path)?;
    Ok(())
}

/// Adds documents to the archive in a folder, by its path as it is located.
fn add_in<R: Threads + Wait + Sync, F: Files, V: Watch>(
    rt: &R,
    alloc: Global,
    files: &mut F,
    watch: &V,
    folder: &str,
    stop: Option<&StopList>,
    documents: &Collection<'_>,
    plan: &Plan,
) -> Result<(), ChangeError>
    ensures done { OnOk result ((F.view files.new).honest → (now : Option Archive)
        → IsArchiveAt folder.now now (F.view files.old).slots
        → LeavesAmong folder.now
        (Some (after_adding now (stop_given stop.entry) documents.now) ∷ [])
        (F.view files.new).slots) }
    ensures any_moment { (F.view files.new).honest
        → (among : List (Option Archive)) (now : Option Archive) → Contains among now
        → LeavesAmong folder.now among (F.view files.old).slots
        → IsArchiveAt folder.now now (F.view files.old).slots
        → LeavesOnly (IsLeftArchive folder.now
        (Some (after_adding now (stop_given stop.entry) documents.now) ∷ among))
        (F.view files.old) (F.view files.new) }
    ensures changes { ChangesOnly (λ place. place.folder ≡ folder.now) (F.view files.old)
        (F.view files.new) }
    ensures goes_on { GoesOn (F.view files.old) (F.view files.new) }
{
    let (lock, manifest) = open(alloc, files, folder)?;
    let result = add_to(
        rt, alloc, files, watch, folder, manifest, stop, documents, plan,
    );
    drop(lock);
    result
}

/// Adds documents to an archive with this manifest, or to a new one.
fn add_to<R: Threads + Wait + Sync, F: Files, V: Watch>(
    rt: &R,
    alloc: Global,
    files: &mut F,
    watch: &V,
    folder: &str,
    manifest: Option<Manifest>,
    stop: Option<&StopList>,
    documents: &Collection<'_>,
    plan: &Plan,
) -> Result<(), ChangeError>
    requires { IfSome manifest (λ manifest. manifest.next + 1 < 2 ^ 64) }
    ensures done { OnOk result ((F.view files.new).honest → (now : Option Archive)
        → IsFound folder.now now (option_map view_of manifest) (F.view files.old).slots
        → LeavesAmong folder.now
        (Some (after_adding now (stop_given stop.entry) documents.now) ∷ [])
        (F.view files.new).slots) }
    ensures any_moment { (F.view files.new).honest → (now : Option Archive)
        → IsFound folder.now now (option_map view_of manifest) (F.view files.old).slots
        → LeavesOnly (IsLeftArchive folder.now
        (Some (after_adding now (stop_given stop.entry) documents.now) ∷ now ∷ []))
        (F.view files.old) (F.view files.new) }
    ensures changes { ChangesOnly (λ place. place.folder ≡ folder.now) (F.view files.old)
        (F.view files.new) }
    ensures goes_on { GoesOn (F.view files.old) (F.view files.new) }
{
    let own = stop_of(alloc, files, folder, &manifest, stop)?;
    match manifest {
        Some(manifest) => {
            if documents.docs().is_empty() {
                return Ok(());
            }
            add_segment(
                rt, alloc, files, watch, folder, manifest, &own, documents, plan,
            )
        }
        None => {
            let manifest = Manifest {
                next: 1,
                segments: Vec::new(alloc),
                removals: None,
            };
            add_segment(
                rt, alloc, files, watch, folder, manifest, &own, documents, plan,
            )
        }
    }
}

/// The stop list of an archive with this manifest, which has to be the given one, if one is given; of a new archive the given one,
/// or none.
fn stop_of<F: Files>(
    alloc: Global,
    files: &F,
    folder: &str,
    manifest: &Option<Manifest>,
    given: Option<&StopList>,
) -> Result<StopList, ChangeError>
    ensures { IfOk result (λ stop. (F.view files.now).honest → (now : Option Archive)
        → IsFound folder.now now (option_map view_of manifest.now) (F.view files.now).slots
        → stop ≡ (archive_or now (stop_given given.entry)).stop) }
{
    let Some(manifest) = manifest else {
        return Ok(copy_given(alloc, given)?);
    };
    let Some(segment) = manifest.segments.first() else {
        return Err(ChangeError::Archive(ArchiveError::Manifest(3)));
    };
    let at = segment_at(alloc, folder, segment.file)?;
    let own = read_stop(alloc, files, &at, segment)?;
    if let Some(given) = given {
        if own.terms() != given.terms() {
            return Err(ChangeError::Archive(ArchiveError::Stop));
        }
    }
    Ok(own)
}

/// The given stop list, or none.
fn copy_given(alloc: Global, given: Option<&StopList>) -> Result<StopList, AllocError>
    ensures { IfOk result (λ stop. stop ≡ stop_given given.entry) }
{
    match given {
        Some(given) => given.copy(alloc),
        None => Ok(StopList::empty(alloc)),
    }
}

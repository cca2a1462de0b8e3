//! One segment more.

ghost use Rattle.std.specs.Prelude.{◌≡◌, ◌+◌, ◌<◌, ◌^◌, ◌∷◌, [], Option, Some, OnOk};
ghost use Rattle.ix_files.specs.Changes.{ChangesOnly};
ghost use Rattle.ix_files.specs.Views.{GoesOn, LeavesOnly};
ghost use Rattle.ix_manifest.specs.ManifestText.{view_of};
ghost use Rattle.ix_archive.specs.Archives.{Archive};
ghost use Rattle.ix_archive_writer.specs.Changes.{documents_under, with_documents};
ghost use Rattle.ix_archive_writer.specs.Commits.{IsLeftArchive, IsReady, LeavesAmong};

use crate::ChangeError;
use crate::committing::commit;
use crate::writing::{text_with_segment, write_blocks};
use ix_archive::segment_at;
use ix_build::{Plan, Watch, invert_all};
use ix_files::Files;
use ix_manifest::Manifest;
use ix_text::{Collection, StopList};
use std::alloc::Global;
use std::sync::Wait;
use std::thread::Threads;

/// Adds documents under a stop list as one segment more, by one commit.
pub(crate) fn add_segment<R: Threads + Wait + Sync, F: Files, V: Watch>(
    rt: &R,
    alloc: Global,
    files: &mut F,
    watch: &V,
    folder: &str,
    manifest: Manifest,
    stop: &StopList,
    documents: &Collection<'_>,
    plan: &Plan,
) -> Result<(), ChangeError>
    requires { manifest.next + 1 < 2 ^ 64 }
    ensures done { OnOk result ((F.view files.new).honest
        → (now : Option Archive) (base : Archive) → base.stop ≡ stop.now
        → IsReady folder.now now base (view_of manifest) (F.view files.old).slots
        → LeavesAmong folder.now
        (Some (with_documents base (documents_under stop.now documents.now)) ∷ [])
        (F.view files.new).slots) }
    ensures any_moment { (F.view files.new).honest
        → (now : Option Archive) (base : Archive) → base.stop ≡ stop.now
        → IsReady folder.now now base (view_of manifest) (F.view files.old).slots
        → LeavesOnly (IsLeftArchive folder.now
        (Some (with_documents base (documents_under stop.now documents.now)) ∷ now ∷ []))
        (F.view files.old) (F.view files.new) }
    ensures changes { ChangesOnly (λ place. place.folder ≡ folder.now) (F.view files.old)
        (F.view files.new) }
    ensures goes_on { GoesOn (F.view files.old) (F.view files.new) }
{
    let file = manifest.next;
    let at = segment_at(alloc, folder, file)?;
    let blocks = match invert_all(rt, alloc, documents, stop, plan, watch) {
        Ok(blocks) => blocks,
        Err(error) => return Err(ChangeError::Build(error)),
    };
    let count = documents.docs().len() as u32;
    let segment = write_blocks(alloc, files, &at, file, blocks, count)?;
    let text = text_with_segment(alloc, manifest, segment);
    commit(alloc, files, folder, &at, text)
}

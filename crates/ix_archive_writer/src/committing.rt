//! Commits: a manifest that names a new file takes the place of the one before.

ghost use Rattle.std.specs.Prelude.{◌≡◌, ◌∷◌, [], List, ℕ, Option, Some, IfOk, OnOk, string_bytes};
ghost use Rattle.ix_files.specs.Changes.{ChangesOnly};
ghost use Rattle.ix_files.specs.Locations.{place_of};
ghost use Rattle.ix_files.specs.Views.{GoesOn, LeavesOnly};
ghost use Rattle.ix_archive.specs.Archives.{Archive};
ghost use Rattle.ix_archive_writer.specs.Commits.{IsCommit, IsLeftArchive, LeavesAmong};

use crate::ChangeError;
use ix_files::{Files, Location};
use ix_folder::{PublishError, drop_file, publish};
use std::alloc::{AllocError, Global};

/// Publishes a manifest that names a new file, if there was memory for its text. After an error before the rename the new file
/// is removed.
pub(crate) fn commit<F: Files>(
    alloc: Global,
    files: &mut F,
    folder: &str,
    at: &Location,
    text: Result<String, AllocError>,
) -> Result<(), ChangeError>
    ensures done { OnOk result ((F.view files.new).honest
        → (now : Option Archive) (after : Archive) (bytes : List ℕ)
        → IfOk text (λ text. string_bytes text ≡ bytes)
        → IsCommit folder.now now after (place_of at.now) bytes (F.view files.old).slots
        → LeavesAmong folder.now (Some after ∷ []) (F.view files.new).slots) }
    ensures any_moment { (F.view files.new).honest
        → (now : Option Archive) (after : Archive) (bytes : List ℕ)
        → IfOk text (λ text. string_bytes text ≡ bytes)
        → IsCommit folder.now now after (place_of at.now) bytes (F.view files.old).slots
        → LeavesOnly (IsLeftArchive folder.now (Some after ∷ now ∷ []))
        (F.view files.old) (F.view files.new) }
    ensures changes { (place_of at.now).folder ≡ folder.now
        → ChangesOnly (λ place. place.folder ≡ folder.now) (F.view files.old)
        (F.view files.new) }
    ensures goes_on { GoesOn (F.view files.old) (F.view files.new) }
{
    let text = match text {
        Ok(text) => text,
        Err(error) => {
            drop_file(files, at);
            return Err(ChangeError::from(error));
        }
    };
    match publish(alloc, files, folder, text.as_bytes()) {
        Ok(()) => Ok(()),
        Err(error) => match error {
            PublishError::NotKept => Err(ChangeError::not_kept()),
            _ => {
                drop_file(files, at);
                Err(ChangeError::of_publish(error))
            }
        },
    }
}

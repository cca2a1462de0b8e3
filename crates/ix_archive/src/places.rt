//! The names of an archive's files in its folder.
ghost use Rattle.std.specs.Prelude.{◌≡◌, IfOk, string_bytes};
ghost use Rattle.ix_files.specs.Locations.{place_of};
ghost use Rattle.ix_folder.specs.FolderNames.{manifest_place};
ghost use Rattle.ix_archive.specs.Folders.{removals_place, segment_place};

use ix_files::Location;
use std::alloc::{AllocError, Global};

/// The file of a segment.
///
/// # Errors
/// Out of memory.
pub fn segment_at(alloc: Global, folder: &str, number: u64) -> Result<Location, AllocError>
    ensures { IfOk result (λ at. place_of at ≡ segment_place folder.now number) }
{
    let name = format!(in alloc; "segment-{number}")?;
    name_in(alloc, folder, name)
}

/// The file of the removals.
///
/// # Errors
/// Out of memory.
pub fn removals_at(alloc: Global, folder: &str, number: u64) -> Result<Location, AllocError>
    ensures { IfOk result (λ at. place_of at ≡ removals_place folder.now number) }
{
    let name = format!(in alloc; "removals-{number}")?;
    name_in(alloc, folder, name)
}

/// The manifest.
///
/// # Errors
/// Out of memory.
pub fn manifest_at(alloc: Global, folder: &str) -> Result<Location, AllocError>
    ensures { IfOk result (λ at. place_of at ≡ manifest_place folder.now) }
{
    let name = String::from_str(alloc, "manifest")?;
    name_in(alloc, folder, name)
}

/// A name in a folder.
fn name_in(alloc: Global, folder: &str, name: String) -> Result<Location, AllocError>
    ensures { IfOk result (λ at.
        place_of at ≡ record { folder = folder.now; name = string_bytes name }) }
{
    let folder = String::from_str(alloc, folder)?;
    Location::new(alloc, folder, name)
}

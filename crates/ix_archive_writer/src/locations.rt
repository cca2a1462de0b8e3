//! The name of an archive's lock.

ghost use Rattle.std.specs.Prelude.{◌≡◌, IfOk};
ghost use Rattle.ix_files.specs.Locations.{place_of};
ghost use Rattle.ix_folder.specs.FolderNames.{lock_place};

use ix_files::Location;
use std::alloc::{AllocError, Global};

/// The lock.
pub(crate) fn lock_at(alloc: Global, folder: &str) -> Result<Location, AllocError>
    ensures { IfOk result (λ at. place_of at ≡ lock_place folder.now) }
{
    let folder = String::from_str(alloc, folder)?;
    let name = String::from_str(alloc, "lock")?;
    let at = Location::new(alloc, folder, name)?;
    Ok(at)
}

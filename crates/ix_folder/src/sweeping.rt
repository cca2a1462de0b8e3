//! Removing what no manifest names.

ghost use Rattle.std.specs.Prelude.{◌≡◌, ◌<◌, ◌⊎◌, ◌↔◌, [], ◌∷◌, ◌++◌, Contains, map, IfErr, IfOk, IsTrue, OnOk};
ghost use Rattle.std.specs.String.{string_bytes};
ghost use Rattle.ix_files.specs.Changes.{ChangesOnly};
ghost use Rattle.ix_files.specs.Locations.{place_of};
ghost use Rattle.ix_files.specs.Opened.{IsReadError};
ghost use Rattle.ix_files.specs.Slots.{IsAmong, Nothing, Place};
ghost use Rattle.ix_files.specs.Views.{GoesOn};
ghost use Rattle.ix_folder.specs.FolderNames.{IsLeftName, IsStray};

use crate::own_names::is_left_name;
use ix_files::{FileError, Files, Location, remove_all};
use std::alloc::{AllocError, Global};

/// Removes the files that killed programs left in a folder, by its path as it is located: a new manifest, and each file by its
/// number that is not among those to keep, which the manifest names. One that cannot be removed stays.
///
/// # Errors
/// `Memory`; `Failed` if the folder is not listed. Nothing is removed then.
pub fn sweep<F: Files>(
    alloc: Global,
    files: &mut F,
    folder: &str,
    keep: &[String],
) -> Result<(), FileError>
    ensures swept { OnOk result ((F.view files.new).honest
        → ((place : Place) → IsStray folder.now (map string_bytes keep.now) place
        → ((F.view files.new).slots place).now ≡ Nothing)
        ⊎ ((F.view files.old).faults < (F.view files.new).faults)) }
    ensures changes { ChangesOnly (IsStray folder.now (map string_bytes keep.now))
        (F.view files.old) (F.view files.new) }
    ensures goes_on { GoesOn (F.view files.old) (F.view files.new) }
    ensures cause { IfErr result (IsReadError (Unit {0})) }
{
    let names = files.list(folder)?;
    let strays = strays_of(alloc, folder, &names, keep)?;
    remove_all(files, &strays);
    Ok(())
}

/// The names of these that no manifest names.
fn strays_of(
    alloc: Global,
    folder: &str,
    names: &[String],
    keep: &[String],
) -> Result<Vec<Location>, AllocError>
    ensures only { IfOk result (λ strays. (place : Place)
        → IsAmong (map place_of strays.items) place
        → IsStray folder.now (map string_bytes keep.now) place) }
    ensures all { IfOk result (λ strays. (place : Place)
        → Contains (map string_bytes names.now) place.name
        → IsStray folder.now (map string_bytes keep.now) place
        → IsAmong (map place_of strays.items) place) }
{
    let mut strays = Vec::new(alloc);
    for name in names {
        if is_stray(name.as_str(), keep) {
            add(alloc, &mut strays, folder, name.as_str())?;
        }
    }
    Ok(strays)
}

/// Adds a name in a folder.
fn add(
    alloc: Global,
    places: &mut Vec<Location>,
    folder: &str,
    name: &str,
) -> Result<(), AllocError>
    ensures { OnOk result (map place_of places.new.items
        ≡ map place_of places.old.items
        ++ record { folder = folder.now; name = name.now } ∷ []) }
{
    let folder = String::from_str(alloc, folder)?;
    let name = String::from_str(alloc, name)?;
    places.push(Location::new(alloc, folder, name)?)?;
    Ok(())
}

/// Whether a file of this name was left there, if these are to be kept.
fn is_stray(name: &str, keep: &[String]) -> bool
    ensures { IsTrue result
        ↔ (IsLeftName name.now × ¬ (Contains (map string_bytes keep.now) name.now)) }
{
    is_left_name(name) && !is_among(keep, name)
}

/// Whether a name is among these.
fn is_among(names: &[String], name: &str) -> bool
    ensures { IsTrue result ↔ Contains (map string_bytes names.now) name.now }
{
    for kept in names {
        if kept.as_str() == name {
            return true;
        }
    }
    false
}

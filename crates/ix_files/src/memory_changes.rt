//! What was done to files in memory.

ghost use Rattle.std.specs.Prelude.{◌≡◌, ◌≢◌, ◌⊎◌, ℕ, Contains, List, IfOk, MatchOption, OnOk, map, if◌then◌else◌};
ghost use Rattle.std.specs.String.{string_bytes};
ghost use Rattle.ix_files.specs.Locations.{place_of};
ghost use Rattle.ix_files.specs.MemoryChanges.{after_change, after_changes, entry_of, entry_or, is_place};
ghost use Rattle.ix_files.specs.Opened.{AreNamesIn};
ghost use Rattle.ix_files.specs.Slots.{Nothing, Place, Slots};

use crate::location::Location;
use std::alloc::{AllocError, Global};

/// What was done to files in memory.
#[derive(Drop)]
pub(crate) enum Change {
    /// A file was created.
    Created(Location),
    /// These bytes of a file were put on the disk.
    Synced(Location, Vec<u8>),
    /// A file with these bytes was given another name.
    Renamed(Location, Location, Vec<u8>),
    /// A file was removed.
    Removed(Location),
    /// The names of a folder were put on the disk.
    Settled(String),
}

/// What is at a name.
#[derive(Clone, Copy)]
pub(crate) enum Found<'c> {
    /// No file.
    Nothing,
    /// A file that is being written.
    Growing,
    /// A file with these bytes.
    Kept(&'c [u8]),
}

/// This, if it is the name of the folder.
fn if_at<'c>(at: &Location, folder: &str, name: &str, found: Found<'c>) -> Option<Found<'c>>
    ensures { result
        ≡ (if is_place (place_of at.now) (record { folder = folder.now; name = name.now })
        then Some found.entry else None) }
{
    if at.folder() == folder && at.name() == name {
        Some(found)
    } else {
        None
    }
}

/// What a change left at a name, if it is one of those that it changed.
fn left_by<'c>(change: &'c Change, folder: &str, name: &str) -> Option<Found<'c>>
    ensures { (slots : Slots)
        → let place : Place = record { folder = folder.now; name = name.now } in
        (after_change change.now slots place).now ≡ entry_or result (slots place).now }
{
    match change {
        Change::Created(at) => if_at(at, folder, name, Found::Growing),
        Change::Synced(at, bytes) => if_at(at, folder, name, Found::Kept(bytes)),
        Change::Renamed(from, to, bytes) => match if_at(from, folder, name, Found::Nothing) {
            Some(found) => Some(found),
            None => if_at(to, folder, name, Found::Kept(bytes)),
        },
        Change::Removed(at) => if_at(at, folder, name, Found::Nothing),
        Change::Settled(_) => None,
    }
}

/// What is at a name after these changes, of which the latest is the first.
pub(crate) fn found_at<'c>(changes: &'c [Change], folder: &str, name: &str) -> Found<'c>
    ensures { entry_of result
        ≡ (after_changes changes.now (record { folder = folder.now; name = name.now })).now }
{
    let Some((last, earlier)) = changes.split_first() else {
        return Found::Nothing;
    };
    match left_by(last, folder, name) {
        Some(found) => found,
        None => found_at(earlier, folder, name),
    }
}

/// The name at which a change left a file, if it did.
fn filled_by(change: &Change) -> Option<&Location>
    ensures { (slots : Slots) (place : Place) → (after_change change.now slots place).now ≢ Nothing
        → ((slots place).now ≢ Nothing)
        ⊎ MatchOption result ⊥ (λ at. place_of at.now ≡ place) }
{
    match change {
        Change::Created(at) => Some(at),
        Change::Synced(at, _) => Some(at),
        Change::Renamed(_, to, _) => Some(to),
        Change::Removed(_) | Change::Settled(_) => None,
    }
}

/// Adds a name in the folder to its names, if there is a file after these changes.
fn add_name(
    alloc: Global,
    names: &mut Vec<String>,
    changes: &[Change],
    folder: &str,
    at: &Location,
) -> Result<(), AllocError>
    ensures keeps { OnOk result ((name : List ℕ)
        → Contains (map string_bytes names.old.items) name
        → Contains (map string_bytes names.new.items) name) }
    ensures adds { OnOk result ((place_of at.now).folder ≡ folder.now
        → (after_changes changes.now (place_of at.now)).now ≢ Nothing
        → Contains (map string_bytes names.new.items) (place_of at.now).name) }
{
    if at.folder() != folder {
        return Ok(());
    }
    if let Found::Nothing = found_at(changes, at.folder(), at.name()) {
        return Ok(());
    }
    names.push(String::from_str(alloc, at.name())?)?;
    Ok(())
}

/// The names of the files that are in a folder after these changes. A name may be there twice.
pub(crate) fn names_in(
    alloc: Global,
    changes: &[Change],
    folder: &str,
) -> Result<Vec<String>, AllocError>
    ensures { IfOk result (λ names.
        AreNamesIn folder.now (map string_bytes names.items) (after_changes changes.now)) }
{
    let mut names = Vec::new(alloc);
    for change in changes {
        if let Some(at) = filled_by(change) {
            add_name(alloc, &mut names, changes, folder, at)?;
        }
    }
    Ok(names)
}

/// The same name of the same folder.
pub(crate) fn again(alloc: Global, at: &Location) -> Result<Location, AllocError>
    ensures { IfOk result (λ again. place_of again ≡ place_of at.now) }
{
    let name = String::from_str(alloc, at.name())?;
    let again = at.beside(alloc, name)?;
    Ok(again)
}

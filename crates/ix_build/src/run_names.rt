//! The names of the files in which runs are kept until they are merged: `run-` and the block's place in ten digits.
ghost use Rattle.std.specs.Prelude.{◌≡◌, ◌≢◌, ℕ, List, None, Some, false, map, true, vec_len, IfErr, IfOk, IsFalse, IsTrue, OnOk};
ghost use Rattle.std.specs.String.{string_bytes};
ghost use Rattle.ix_files.specs.Locations.{place_of};
ghost use Rattle.ix_files.specs.Slots.{IsAmong};
ghost use Rattle.ix_build.specs.Blocks.{IsBlockPlace};
ghost use Rattle.ix_build.specs.BuildErrors.{IsFolderRefusal};
ghost use Rattle.ix_build.specs.RunNames.{AreRunNames, AreRunNamesOf, IsRunOf, run_name};

use crate::blocks::{block_count, bounds_of};
use crate::build_error::BuildError;
use crate::plan::Plan;
use ix_files::{Files, Location};
use ix_text::{Collection, Memory};
use std::alloc::Global;

/// The name of the file of the run of a place.
fn run_name(alloc: Global, place: usize) -> Result<String, Memory>
    ensures { IfOk result (λ name. string_bytes name ≡ run_name place) }
{
    let name = format!(in alloc; "run-{place:010}")?;
    Ok(name)
}

/// The names in this folder of the files of the runs of the places below `count`.
pub(crate) fn run_names(alloc: Global, folder: &str, count: usize) -> Result<Vec<Location>, Memory>
    ensures named { IfOk result (λ names. AreRunNames folder.now (map place_of names.items)) }
    ensures as_many { IfOk result (λ names. vec_len names ≡ count) }
{
    let mut names = Vec::with_capacity(alloc, count)?;
    for place in 0..count {
        let folder = String::from_str(alloc, folder)?;
        let name = run_name(alloc, place)?;
        names.push_reserved(Location::new(alloc, folder, name)?);
    }
    Ok(names)
}

/// The names of the files of the runs of all blocks, in the plan's folder.
pub(crate) fn names_of_runs<F: Files>(
    alloc: Global,
    files: &F,
    folder: &str,
    collection: &Collection<'_>,
    plan: &Plan,
) -> Result<Vec<Location>, BuildError>
    requires { plan.now.folder ≡ Some folder.now }
    ensures named { IfOk result (λ names. (at : List ℕ)
        × AreRunNames at (map place_of names.items)) }
    ensures runs { IfOk result (λ names. (F.view files.now).honest
        → AreRunNamesOf plan.now collection.now (F.view files.now) (map place_of names.items)) }
    ensures some { OnOk result (IsBlockPlace plan.now.cut collection.now 0) }
    ensures spilled { IfErr result (IsFolderRefusal plan.now collection.now) }
{
    let Ok(bounds) = bounds_of(alloc, collection.docs(), plan.cut()) else {
        return Err(BuildError::Memory);
    };
    let count = block_count(bounds.as_slice());
    match files.locate_folder(folder) {
        Ok(folder) => match run_names(alloc, folder.as_str(), count) {
            Ok(names) => Ok(names),
            Err(_) => Err(BuildError::Memory),
        },
        Err(error) => Err(BuildError::of_folder(error)),
    }
}

/// Whether a path leads to the file of a run of this collection, or to where that will be if the collection is built by this
/// plan: never if the plan keeps runs in memory.
///
/// # Errors
/// `Memory` if out of memory; `Spill` with the place 0 if the path or the plan's folder cannot be looked at.
pub fn is_run_of<F: Files>(
    alloc: Global,
    files: &F,
    collection: &Collection<'_>,
    plan: &Plan,
    path: &str,
) -> Result<bool, BuildError>
    ensures is { IfOk result (λ is. (F.view files.now).honest → is ≡ true
        → IsRunOf plan.now collection.now (F.view files.now) ((F.view files.now).place path.now)) }
    ensures is_not { IfOk result (λ is. (F.view files.now).honest → is ≡ false
        → ¬ (IsRunOf plan.now collection.now (F.view files.now)
        ((F.view files.now).place path.now))) }
    ensures refused { IfErr result (λ error. IsFolderRefusal plan.now collection.now error
        × (plan.now.folder ≢ None)) }
{
    let Some(folder) = plan.folder() else {
        return Ok(false);
    };
    let names = names_of_runs(alloc, files, folder, collection, plan)?;
    match files.locate(path) {
        Ok(location) => Ok(is_among(names.as_slice(), &location)),
        Err(error) => Err(BuildError::of_folder(error)),
    }
}

/// Whether two names are the same, in the same folder.
fn is_same(one: &Location, other: &Location) -> bool
    ensures same { IsTrue result → place_of one.now ≡ place_of other.now }
    ensures other { IsFalse result → place_of one.now ≢ place_of other.now }
{
    one.name() == other.name() && one.folder() == other.folder()
}

/// Whether it is one of these names.
fn is_among(names: &[Location], at: &Location) -> bool
    ensures is { IsTrue result → IsAmong (map place_of names.now) (place_of at.now) }
    ensures is_not { IsFalse result → ¬ (IsAmong (map place_of names.now) (place_of at.now)) }
{
    for index in 0..names.len() {
        if is_same(&names[index], at) {
            return true;
        }
    }
    false
}

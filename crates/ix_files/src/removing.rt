//! Removing several files.

ghost use Rattle.std.specs.Prelude.{◌≡◌, ◌<◌, ◌⊎◌, map};
ghost use Rattle.ix_files.specs.Changes.{AreGone, ChangesOnly};
ghost use Rattle.ix_files.specs.Locations.{place_of};
ghost use Rattle.ix_files.specs.Slots.{IsAmong};
ghost use Rattle.ix_files.specs.Views.{GoesOn};

use crate::files::Files;
use crate::location::Location;

/// Removes the files of these names. One that cannot be removed stays.
pub fn remove_all<F: Files>(files: &mut F, names: &[Location])
    ensures gone { (F.view files.new).honest
        → AreGone (map place_of names.now) (F.view files.new).slots
        ⊎ ((F.view files.old).faults < (F.view files.new).faults) }
    ensures changes { ChangesOnly (IsAmong (map place_of names.now)) (F.view files.old)
        (F.view files.new) }
    ensures goes_on { GoesOn (F.view files.old) (F.view files.new) }
{
    for index in 0..names.len() {
        let _removed = files.remove(&names[index]);
    }
}

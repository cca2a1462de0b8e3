//! Which documents a removal by names takes.

ghost use Rattle.std.specs.Prelude.{◌≡◌, ◌+◌, ◌^◌, ◌<◌, ◌++◌, ℕ, List, length, map, OnOk, string_bytes};
ghost use Rattle.ix_file.specs.Opened.{names_of};
ghost use Rattle.ix_archive_writer.specs.Takings.{AreTaken};

use ix_file::Index;
use ix_removals::Removals;
use std::alloc::{AllocError, Global};

/// Appends the names of the documents of an index that are asked for and not removed yet. The documents have the numbers from
/// `first` on.
///
/// # Errors
/// Out of memory.
pub fn take_names(
    alloc: Global,
    index: &Index<'_>,
    first: u64,
    asked: &Removals,
    removed: &Removals,
    taken: &mut Vec<String>,
) -> Result<(), AllocError>
    requires { first + length index.now.parts.rows < 2 ^ 64 }
    ensures { (before : List (List ℕ)) → length before ≡ first
        → AreTaken asked.now removed.now before (map string_bytes taken.old.items)
        → OnOk result (AreTaken asked.now removed.now
        (before ++ names_of index.now.parts.rows) (map string_bytes taken.new.items)) }
{
    for document in 0..index.doc_count() {
        let name = index.name(document);
        let number = first + u64::from(document);
        if asked.is_removed(name, number) && !removed.is_removed(name, number) {
            taken.push(String::from_str(alloc, name)?)?;
        }
    }
    Ok(())
}

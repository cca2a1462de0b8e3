//! The names of documents that lie in segments.
ghost use Rattle.std.specs.Prelude.{◌≡◌, ◌<◌, ◌+◌, Some, All, length, map, IfOk, MatchOption, MatchResult};
ghost use Rattle.std.specs.String.{string_bytes};
ghost use Rattle.ix_live.specs.NameErrors.{RefusesNames};
ghost use Rattle.ix_live.specs.Names.{name_in_rows};
ghost use Rattle.ix_live.specs.Segments.{rows_at, rows_in};
ghost use Rattle.ix_live.specs.declared.name_error.NameError.TheVariants.{Memory, Number};

use crate::segment::Slot;
use ix_text::Memory;
use std::alloc::Global;

/// The place of the first number that is no document's, of `count` documents.
pub fn find_unknown(numbers: &[u32], count: u32) -> Option<usize>
    ensures { MatchOption result (RefusesNames count numbers.now Memory)
        (λ place. RefusesNames count numbers.now (Number place)) }
{
    numbers.iter().position(|number| *number >= count)
}

/// The names of the documents of these numbers, one each. `Memory` if out of memory.
pub fn find_names(alloc: Global, segments: &[Slot], numbers: &[u32]) -> Result<Vec<String>, Memory>
    requires { All (λ number. number < length (rows_in segments.now)) numbers.now }
    ensures { IfOk result (λ names. map (λ name. Some (string_bytes name)) names.items
        ≡ map (name_in_rows (rows_in segments.now)) numbers.now) }
{
    let mut names = Vec::with_capacity(alloc, numbers.len())?;
    for number in numbers {
        let name = find_name(segments, *number);
        names.push_reserved(String::from_str(alloc, name)?);
    }
    Ok(names)
}

/// The name of the document of a number.
fn find_name(segments: &[Slot], number: u32) -> &str
    requires { number < length (rows_in segments.now) }
    ensures { name_in_rows (rows_in segments.now) number ≡ Some result.now }
{
    let mut left = number;
    for slot in segments {
        match name_at(slot, left) {
            Ok(name) => return name,
            Err(rest) => left = rest,
        }
    }
    unreachable!()
}

/// The name of the document of a number, counted from the segment's first, or what is left of the
/// number behind the segment.
fn name_at(slot: &Slot, number: u32) -> Result<&str, u32>
    ensures { MatchResult result (λ name. name_in_rows (rows_at slot.now) number ≡ Some name.now)
        (λ left. number ≡ length (rows_at slot.now) + left) }
{
    let Some(segment) = slot.segment() else {
        return Err(number);
    };
    let index = segment.volume.index();
    if number < index.doc_count() {
        return Ok(index.name(number));
    }
    Err(number - index.doc_count())
}

//! Merging run texts that lie one behind another into one index text.
ghost use Rattle.std.specs.Prelude.{◌≡◌, ◌≤◌, ◌⊎◌, IfErr, IfOk, map};
ghost use Rattle.ix_c.specs.Merging.{AreCutFrom, AreOff, IsMerged, IsMergeUnder, IsUnmerged};
ghost use Rattle.ix_c.specs.Merging.{RefusesMerging};
ghost use Rattle.ix_c.specs.Telling.{IsRefused, IsZero};

use crate::found::{Found, answer, tell, tell_sizes};
use ix_ask::{EngineRefusal, merge_alone};
use std::alloc::Global;

/// Why run texts were not merged.
#[derive(Drop)]
pub(crate) enum Unmerged {
    /// Their sizes do not sum to the size of the bytes.
    Sizes,
    /// The engine returned an error.
    Refused(EngineRefusal),
}

/// The index text, version 2, of the collection whose parts' run texts lie one behind another, in any order, with the
/// size of each.
///
/// Returns 0 with the index text in `out`, as many of its bytes as it has room for; 1 with the error line
/// there; 4 if the sizes do not sum to that of the bytes, with `out` as it was. `ix_merge` of `include/ix.h`.
#[unsafe(no_mangle)]
pub extern "C" fn ix_merge(
    alloc: Global,
    runs: &[u8],
    sizes: &[usize],
    out: &mut [u8],
    found: &mut Found,
) -> u32
    ensures status { (result ≤ 1) ⊎ (result ≡ 4) }
    ensures merged { result ≡ 0 → IsMerged runs.now sizes.now out.old out.new found.new }
    ensures refused { result ≡ 1 →
        IsRefused (RefusesMerging runs.now sizes.now) out.old out.new found.new }
    ensures off { result ≡ 4 →
        (out.new ≡ out.old) × IsZero found.new × AreOff runs.now sizes.now }
{
    match merge_under(alloc, runs, sizes) {
        Ok(index) => answer(0, &index, out, found),
        Err(Unmerged::Sizes) => tell_sizes(found),
        Err(Unmerged::Refused(refusal)) => tell(&refusal, out, found),
    }
}

/// The index text of the run texts of these sizes.
fn merge_under(alloc: Global, runs: &[u8], sizes: &[usize]) -> Result<Vec<u8>, Unmerged>
    ensures merged { IfOk result (λ index. IsMergeUnder runs.now sizes.now index.items) }
    ensures refused { IfErr result (IsUnmerged runs.now sizes.now) }
{
    let texts = cut(alloc, runs, sizes)?;
    match merge_alone(alloc, &texts) {
        Ok(index) => Ok(index),
        Err(error) => Err(Unmerged::Refused(EngineRefusal::Merge(error))),
    }
}

/// The texts that lie one behind another in these bytes, by the size of each.
fn cut<'a>(alloc: Global, bytes: &'a [u8], sizes: &[usize]) -> Result<Vec<&'a [u8]>, Unmerged>
    ensures cut { IfOk result (λ texts. AreCutFrom bytes.entry.now sizes.now
        (map (λ text. text.now) texts.items)) }
    ensures refused { IfErr result (IsUnmerged bytes.entry.now sizes.now) }
{
    let mut texts = Vec::new(alloc);
    let mut rest = bytes;
    for &size in sizes {
        if size > rest.len() {
            return Err(Unmerged::Sizes);
        }
        let (text, after) = rest.split_at(size);
        if texts.push(text).is_err() {
            return Err(Unmerged::Refused(EngineRefusal::Memory));
        }
        rest = after;
    }
    if rest.is_empty() {
        Ok(texts)
    } else {
        Err(Unmerged::Sizes)
    }
}

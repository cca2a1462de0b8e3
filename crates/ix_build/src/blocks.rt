//! The blocks of a cut: where each begins.

ghost use Rattle.std.specs.Prelude.{◌≡◌, ◌+◌, ◌<◌, ◌≤◌, length, map, slice_get, Some, IfNone, IfOk, IfSome};
ghost use Rattle.ix_text.specs.Docs.{named_text};
ghost use Rattle.ix_build.specs.Blocks.{AreBounds, AscendUpTo, cut_number, weight_of};

use crate::plan::Cut;
use ix_text::{Doc, Memory};
use std::alloc::Global;

/// By how much a document fills its block.
fn weight(cut: Cut, doc: &Doc<'_>) -> usize
    ensures { result ≡ weight_of cut (named_text doc.now) }
{
    match cut {
        Cut::Docs(_) => 1,
        Cut::Bytes(_) => doc.text.len(),
    }
}

/// The bounds of the blocks of a cut, whose number is at least 1: block k has the documents from bound k up to bound
/// k + 1, so there is one bound more than blocks. Returns an error if out of memory.
pub(crate) fn bounds_of(alloc: Global, docs: &[Doc<'_>], cut: Cut) -> Result<Vec<usize>, Memory>
    requires { 0 < cut_number cut }
    ensures bounds { IfOk result (λ bounds. AreBounds cut (map named_text docs.now) bounds.items) }
    ensures ascending { IfOk result (λ bounds. AscendUpTo (length docs.now) bounds.items) }
{
    let mut bounds = Vec::new(alloc);
    bounds.push(0)?;
    let mut left = cut.number() as usize;
    for (number, doc) in docs.iter().enumerate() {
        // A full block ends when a further document comes, so that the last block is not empty.
        if left == 0 {
            bounds.push(number)?;
            left = cut.number() as usize;
        }
        left = left.saturating_sub(weight(cut, doc));
    }
    bounds.push(docs.len())?;
    Ok(bounds)
}

/// How many blocks there are between the bounds.
pub(crate) fn block_count(bounds: &[usize]) -> usize
    requires { 0 < length bounds.now }
    ensures { result + 1 ≡ length bounds.now }
{
    bounds.len() - 1
}

/// The bound of a place and the next one, or none if the place has no block.
pub(crate) fn block_at(bounds: &[usize], place: usize) -> Option<(usize, usize)>
    ensures some { IfSome result (λ block. (slice_get bounds.now place ≡ Some block.0)
        × (slice_get bounds.now (place + 1) ≡ Some block.1)) }
    ensures none { IfNone result (length bounds.now ≤ place + 1) }
{
    if place >= bounds.len().saturating_sub(1) {
        return None;
    }
    Some((bounds[place], bounds[place + 1]))
}

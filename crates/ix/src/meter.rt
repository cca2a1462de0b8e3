//! How far a build has come, shown to a person who waits for it.
ghost use Rattle.std.specs.Prelude.{◌≡◌, ◌≤◌, ◌*◌, ◌/◌, ◌-◌, ◌^◌, min, max};

use ix_build::Watch;
use std::sync::atomic::{AtomicUsize, Ordering};

/// Shows the share of the blocks that are inverted, in one line of the error output that is written over and over: `ix: 40 %`.
/// The line has no end, so that whatever is told next stands in its place.
#[derive(Drop)]
pub(crate) struct Meter<'r, R> {
    rt: &'r R,
    // whether a person sees the error output
    seen: bool,
    done: AtomicUsize,
}

impl<'r, R: Eprint> Meter<'r, R> {
    /// No block is inverted yet. Where nobody sees the error output, nothing is ever shown.
    pub(crate) fn new(rt: &'r R, seen: bool) -> Meter<'r, R> {
        Meter {
            rt,
            seen,
            done: AtomicUsize::new(0),
        }
    }

    /// Empties the line.
    pub(crate) fn clear(&self) {
        if self.seen && self.done.load(Ordering::SeqCst) > 0 {
            // Who cannot be shown anything misses nothing else.
            let _shown = eprint!(self.rt; "           \r");
        }
    }
}

impl<R: Eprint + Sync> Watch for Meter<'_, R> {
    fn inverted(&self, blocks: usize) {
        if !self.seen {
            return;
        }
        let before = self.done.fetch_add(1, Ordering::SeqCst);
        let share = share_of(before.saturating_add(1), blocks);
        if share > share_of(before, blocks) {
            let _shown = eprint!(self.rt; "ix: {share} %\r");
        }
    }
}

/// How many of a hundred parts the blocks that are done make, rounded down. A product that 64 bits do not hold is cut off.
fn share_of(done: usize, blocks: usize) -> usize
    ensures exact { result ≡ min (min done blocks * 100) (2 ^ 64 - 1) / max blocks 1 }
    ensures most { result ≤ 100 }
{
    done.min(blocks).saturating_mul(100) / blocks.max(1)
}

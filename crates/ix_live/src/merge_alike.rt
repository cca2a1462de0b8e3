//! Tables of segments by logarithmic merging (IIR 4.5).
ghost use Rattle.std.specs.Prelude.{◌≡◌, ◌^◌, ◌<◌, ◌≤◌, ◌+◌, ◌++◌, ◌∷◌, [], Some, length, take, IfOk};
ghost use Rattle.ix_live.specs.Pieces.{piece_at, pieces_in, with_piece};
ghost use Rattle.ix_live.specs.Segments.{rows_in};
ghost use Rattle.ix_live.specs.Tables.{AreIndexed, Merges};

use crate::segment::{Segment, Slot};
use crate::volumes::merge_volumes;
use ix_text::Memory;
use std::alloc::Global;

/// Merges a new segment with the last one of a table while the two have one generation: they become
/// one of the next generation. Returns how many segments of the table are left before the new one,
/// and the new one.
pub fn merge_alike(
    alloc: Global,
    table: &[Slot],
    mut segment: Segment,
) -> Result<(usize, Segment), Memory>
    requires few { length (rows_in table.now) + length segment.volume.parts.rows ≤ 2 ^ 28 }
    requires low { segment.generation + length table.now < 2 ^ 32 }
    requires indexed { AreIndexed table.now segment.volume }
    ensures left { IfOk result (λ r. r.0 ≤ length table.now) }
    ensures pieces { IfOk result (λ r. take r.0 (pieces_in table.now) ++ piece_at (Some r.1) ∷ []
        ≡ with_piece (pieces_in table.now) (piece_at (Some segment))) }
    ensures merges { IfOk result (λ r. Merges table.now r.0 segment.volume r.1.volume) }
{
    let Some((last, earlier)) = table.split_last() else {
        return Ok((0, segment));
    };
    let Some(last) = last.segment() else {
        // A slot of a table of segments is not empty.
        unreachable!()
    };
    if last.generation != segment.generation {
        return Ok((table.len(), segment));
    }
    let volume = merge_volumes(alloc, &last.volume, &segment.volume)?;
    segment = Segment {
        generation: segment.generation + 1,
        volume,
    };
    merge_alike(alloc, earlier, segment)
}

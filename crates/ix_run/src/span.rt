//! Which document of a block has a token.

ghost use Rattle.std.specs.Prelude.{◌≡◌, ◌/◌, ◌^◌, ◌<◌, ◌≤◌, IfOk, get_or, length};
ghost use Rattle.ix_run.specs.DocumentEnds.{AreMarks, AreSpans, IsSpan, last_end};

use ix_text::Memory;
use std::alloc::Global;

/// How many places a stretch has, about as many as a verse has words. A binary search would mispredict ten branches a
/// token.
const STRETCH: usize = 32;

/// The range of a document's tokens among those of its block.
#[derive(Clone, Copy)]
pub(crate) struct Span {
    /// The document, from 0.
    pub(crate) document: u32,
    /// The place of its first token.
    pub(crate) start: u32,
    /// The place behind its last token.
    pub(crate) end: u32,
}

/// The marks of documents that end there: of each stretch of 32 places, the first document that ends behind its beginning.
pub(crate) fn mark_stretches(alloc: Global, ends: &[u32]) -> Result<Vec<u32>, Memory>
    requires { length ends.now ≤ 2 ^ 28 }
    ensures { IfOk result (λ marks. AreMarks 32 ends.now marks.items) }
{
    let places = ends.last().map_or(0, |end| *end as usize);
    let mut marks = Vec::with_capacity(alloc, places.div_ceil(STRETCH))?;
    for (document, end) in ends.iter().enumerate() {
        let stretches = (*end as usize).div_ceil(STRETCH);
        if marks.len() < stretches {
            marks.resize(stretches, document as u32)?;
        }
    }
    Ok(marks)
}

/// The span of the document that has the token at a place. From the mark of its stretch it is a few documents away.
pub(crate) fn find_span(ends: &[u32], marks: &[u32], place: u32) -> Span
    requires spans { AreSpans ends.now }
    requires marks { AreMarks 32 ends.now marks.now }
    requires within { place < last_end 0 ends.now }
    ensures from { result.start ≤ place }
    ensures to { place < result.end }
    ensures low { result.document < 2 ^ 28 }
    ensures span { IsSpan ends.now result.document result.start result.end }
{
    let mut document = mark_of(marks, place);
    while ends[document] <= place {
        document += 1;
    }
    let start = if document == 0 { 0 } else { ends[document - 1] };
    Span {
        document: document as u32,
        start,
        end: ends[document],
    }
}

/// The mark of the stretch that a place is in.
#[inline]
fn mark_of(marks: &[u32], place: u32) -> usize
    ensures { result ≡ get_or marks.now (place / 32) 0 }
{
    marks
        .get(place as usize / STRETCH)
        .map_or(0, |mark| *mark as usize)
}

//! Which of several streams leads.

ghost use Rattle.std.specs.Prelude.{◌<◌, length};

use crate::answers::doc_stream::DocStream;
use crate::answers::reader::Reader;

/// A stream that estimates how many numbers it has left.
pub(crate) trait Counted {
    /// About how many numbers are left, the current one included, without a walk: for a phrase and a NEAR, how many
    /// documents one of its terms has left. It is a hint, on which the order of work rests, and no clause.
    fn estimate(&self) -> usize;
}

impl<'a> Counted for Reader<'a> {
    #[inline]
    fn estimate(&self) -> usize {
        self.len()
    }
}

impl<'a> Counted for DocStream<'a> {
    #[inline]
    fn estimate(&self) -> usize {
        match self {
            DocStream::Word(word) => word.len(),
            DocStream::Near(near) => near.first.len().min(near.second.len()),
            DocStream::Phrase(phrase) => phrase.first.len(),
            DocStream::DocList(list) => list.len(),
            DocStream::DocRange(range) => range.len(),
        }
    }
}

/// The place of the stream that leads, so that the others are read only at its numbers: the first of those with the lowest
/// estimate. Its clause says no more than that it is one of the streams.
pub(crate) fn fewest<N: Counted>(lists: &[N]) -> usize
    requires { 0 < length lists.now }
    ensures { result < length lists.now }
{
    let mut lead = 0;
    for place in 1..lists.len() {
        if lists[place].estimate() < lists[lead].estimate() {
            lead = place;
        }
    }
    lead
}

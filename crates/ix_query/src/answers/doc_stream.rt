//! What a part of a query finds, as a stream.

use crate::answers::doc_list::{DocList, DocRange};
use crate::answers::near::Near;
use crate::answers::numbers::Numbers;
use crate::answers::phrase::Phrase;
use crate::answers::word::Word;

/// The documents that a part of a query finds: by cursors on coded lists, or found before.
#[derive(Drop)]
pub(crate) enum DocStream<'a> {
    /// Those of a term.
    Word(Word<'a>),
    /// Those in which two terms are near.
    Near(Near<'a>),
    /// Those of a phrase.
    Phrase(Phrase<'a>),
    /// Those in a list.
    DocList(DocList),
    /// Those from one on and below another.
    DocRange(DocRange),
}

impl<'a> Numbers for DocStream<'a> {
    ghost use Rattle.ix_query.specs.DocStreams.{HasNumber};

    ghost has = { HasNumber };

    #[inline]
    fn seek(&mut self, low: u32) -> Option<u32> {
        match self {
            DocStream::Word(word) => word.seek(low),
            DocStream::Near(near) => near.seek(low),
            DocStream::Phrase(phrase) => phrase.seek(low),
            DocStream::DocList(list) => list.seek(low),
            DocStream::DocRange(range) => range.seek(low),
        }
    }
}

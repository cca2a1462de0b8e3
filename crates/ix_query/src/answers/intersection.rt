//! The documents that several parts of a query find, and others do not.

ghost use Rattle.ix_query.specs.DocStreams.{IsInIntersection};
ghost use Rattle.ix_query.specs.Streams.{Reaches};

use crate::answers::common::{common, is_in_one};
use crate::answers::doc_stream::DocStream;
use crate::answers::numbers::Numbers;

/// The documents that the first part and each other present one find, and no absent one.
#[derive(Drop)]
pub(crate) struct Intersection<'a> {
    pub(crate) first: DocStream<'a>,
    pub(crate) others: Vec<DocStream<'a>>,
    pub(crate) absent: Vec<DocStream<'a>>,
}

impl<'a> Numbers for Intersection<'a> {
    ghost has = { λ intersection number place.
        IsInIntersection intersection.first intersection.others.items intersection.absent.items number };

    #[inline]
    fn seek(&mut self, low: u32) -> Option<u32> {
        first_document(
            &mut self.first,
            self.others.as_mut_slice(),
            self.absent.as_mut_slice(),
            low,
        )
    }
}

/// The first document not below `low` that the present parts find and no absent one.
#[inline]
fn first_document<'a>(
    first: &mut DocStream<'a>,
    others: &mut [DocStream<'a>],
    absent: &mut [DocStream<'a>],
    low: u32,
) -> Option<u32>
    ensures { Reaches
        (λ number place. IsInIntersection first.old others.old absent.old number)
        (λ number place. IsInIntersection first.new others.new absent.new number)
        low result }
{
    let mut least = low;
    loop {
        let Some(document) = common(first, others, least) else {
            return None;
        };
        if !is_in_one(absent, document) {
            return Some(document);
        }
        least = document + 1;
    }
}

//! What terms, phrases and NEARs find in an index.

ghost use Rattle.std.specs.Prelude.{◌≡◌, ◌∷◌, [], ℕ, List, Option, Some, ◌↔◌, length, IfOk, IfSome, MatchOption};
ghost use Rattle.ix_query_text.specs.declared.tree.Tree.TheVariants as asks;
ghost use Rattle.ix_query.specs.Finding.{AreFound, AreOfTerm, ArePlaced, AreEvery, AnswersNothing, IsBeyond, IsNowhere};
ghost use Rattle.ix_query.specs.DocStreams.{HasNumber};
ghost use Rattle.ix_query.specs.Meetings.{HasNear};
ghost use Rattle.ix_query.specs.Streams.{Have};

use crate::answers::doc_list::DocRange;
use crate::answers::doc_stream::DocStream;
use crate::answers::near::Near;
use crate::answers::order::fewest;
use crate::answers::phrase::Phrase;
use crate::answers::reader::Reader;
use crate::answers::start::Start;
use crate::answers::word::Word;
use ix_file::{Index, Postings};
use ix_query_text::Term;
use ix_text::Memory;
use std::alloc::Global;

/// The postings of a term, or none if no document has it.
pub(crate) fn postings_of<'a>(index: &'a Index<'_>, term: &Term) -> Option<Postings<'a>>
    ensures { MatchOption result
        (IsNowhere index.now.parts term.now)
        (AreOfTerm index.now.parts term.now) }
{
    match index.find(term.as_str()) {
        Some(postings) => {
            let _count = postings.len();
            Some(postings)
        }
        None => None,
    }
}

/// No document.
pub(crate) fn nothing<'a>() -> DocStream<'a>
    ensures { (n : ℕ) → ¬ (Have (HasNumber result) n) }
{
    DocStream::DocRange(DocRange { next: 0, end: 0 })
}

/// Every document of the index.
pub(crate) fn every_document<'a>(index: &'a Index<'_>) -> DocStream<'a>
    ensures { AreEvery index.now.parts (Have (HasNumber result)) }
{
    DocStream::DocRange(DocRange {
        next: 0,
        end: index.doc_count(),
    })
}

/// The documents in which two terms are near, or none if a term is in no document.
pub(crate) fn find_near<'a>(
    index: &'a Index<'_>,
    first: &Term,
    second: &Term,
    distance: u32,
) -> Option<Near<'a>>
    ensures { MatchOption result
        (AnswersNothing index.now.parts (asks.Near first.now second.now distance))
        (λ near. AreFound index.now.parts (asks.Near first.now second.now distance)
        (HasNear near.first near.second near.distance)) }
{
    let Some(first) = postings_of(index, first) else {
        return None;
    };
    let Some(second) = postings_of(index, second) else {
        return None;
    };
    Some(order_near(Reader::new(first), Reader::new(second), distance))
}

/// The documents in which two terms are near: the rarer one leads.
fn order_near<'a>(first: Reader<'a>, second: Reader<'a>, distance: u32) -> Near<'a>
    ensures { (n : ℕ) → HasNear result.first result.second result.distance n
        ↔ HasNear first.entry second.entry distance n }
{
    if second.len() < first.len() {
        Near {
            first: second,
            second: first,
            distance,
        }
    } else {
        Near {
            first,
            second,
            distance,
        }
    }
}

/// The documents of a term.
pub(crate) fn find_word<'a>(index: &'a Index<'_>, term: &Term) -> DocStream<'a>
    ensures { AreFound index.now.parts (asks.Phrase (Some term.now ∷ []))
        (Have (HasNumber result)) }
{
    match postings_of(index, term) {
        Some(postings) => DocStream::Word(Word::new(postings)),
        None => nothing(),
    }
}

/// The term of a phrase that has nothing else.
pub(crate) fn only_term(parts: &[Option<Term>]) -> Option<&Term>
    ensures { IfSome result (λ term. parts.now ≡ Some term.now ∷ []) }
{
    match parts {
        [Some(term)] => Some(term),
        _ => None,
    }
}

/// The terms of a phrase: the postings of each, and its place in the phrase.
#[derive(Drop)]
pub(crate) struct Placed<'a> {
    pub(crate) lists: Vec<Reader<'a>>,
    pub(crate) places: Vec<u32>,
    pub(crate) starts: Vec<Start<'a>>,
    ghost each_placed: { length places.items ≡ length lists.items },
    ghost each_started: { length starts.items ≡ length lists.items },
}

/// The documents of a phrase. `Memory` if out of memory for its parts.
pub(crate) fn find_phrase<'a>(
    alloc: Global,
    index: &'a Index<'_>,
    parts: &[Option<Term>],
) -> Result<DocStream<'a>, Memory>
    ensures { IfOk result (λ stream.
        AreFound index.now.parts (asks.Phrase parts.now) (Have (HasNumber stream))) }
{
    if let Some(term) = only_term(parts) {
        return Ok(find_word(index, term));
    }
    match place_terms(alloc, index, parts)? {
        Some(placed) => Ok(join_terms(index, placed)),
        None => Ok(nothing()),
    }
}

/// The terms of a phrase with their places, or none if a term is in no document, or its place is higher than any
/// position.
fn place_terms<'a>(
    alloc: Global,
    index: &'a Index<'_>,
    parts: &[Option<Term>],
) -> Result<Option<Placed<'a>>, Memory>
    ensures { IfOk result (λ found. MatchOption found
        (AnswersNothing index.now.parts (asks.Phrase parts.now))
        (λ placed. ArePlaced index.now.parts parts.now (length parts.now)
        placed.lists.items placed.places.items)) }
{
    let mut lists = Vec::with_capacity(alloc, parts.len())?;
    let mut places = Vec::with_capacity(alloc, parts.len())?;
    let mut starts = Vec::with_capacity(alloc, parts.len())?;
    for (place, part) in parts.iter().enumerate() {
        let Some(term) = part else {
            continue;
        };
        let Some((list, place, start)) = place_term(index, term, place) else {
            return Ok(None);
        };
        lists.push(list)?;
        places.push(place)?;
        starts.push(start)?;
    }
    Ok(Some(Placed {
        lists,
        places,
        starts,
    }))
}

/// The postings of a term of a phrase, its place, and room for the starts that it allows. None if no document has the
/// term at a position as high as its place.
fn place_term<'a>(
    index: &'a Index<'_>,
    term: &Term,
    place: usize,
) -> Option<(Reader<'a>, u32, Start<'a>)>
    ensures { MatchOption result
        (IsBeyond index.now.parts term.now place)
        (λ found. AreOfTerm index.now.parts term.now found.0 × (found.1 ≡ place)) }
{
    let Some(postings) = postings_of(index, term) else {
        return None;
    };
    let Ok(place) = u32::try_from(place) else {
        return None;
    };
    let list = Reader::new(postings);
    let Some(start) = Start::at(&list, place) else {
        return None;
    };
    Some((list, place, start))
}

/// The documents that have the terms at their places: all documents if the phrase has no term.
fn join_terms<'a>(index: &'a Index<'_>, placed: Placed<'a>) -> DocStream<'a>
    ensures { (entries : List (Option (List ℕ)))
        → ArePlaced index.now.parts entries (length entries)
        placed.entry.lists.items placed.entry.places.items
        → AreFound index.now.parts (asks.Phrase entries) (Have (HasNumber result)) }
{
    let Placed {
        mut lists,
        mut places,
        mut starts,
    } = placed;
    let _room = starts.pop();
    if lists.is_empty() {
        return every_document(index);
    }
    let lead = fewest(lists.as_slice());
    let first = lists.swap_remove(lead);
    let offset = places.swap_remove(lead);
    DocStream::Phrase(Phrase {
        first,
        offset,
        others: lists,
        offsets: places,
        starts,
    })
}

//! What a query finds in an index, part by part.

ghost use Rattle.std.specs.Prelude.{◌≡◌, ◌<◌, ◌↔◌, ◌-◌, ◌^◌, ℕ, ◌∷◌, [], Some, length, Contains, IfOk, IsOk};
ghost use Rattle.ix_text.specs.Collections.{Collection};
ghost use Rattle.ix_text.specs.Parts.{ArePartsOf};
ghost use Rattle.ix_file.specs.Gaps.{Ascends};
ghost use Rattle.ix_query_text.specs.declared.tree.Tree.TheVariants as asks;
ghost use Rattle.ix_query.specs.Finding.{AreFound, AreNumbersOf};
ghost use Rattle.ix_query.specs.DocStreams.{IsInIntersection, HasNumber};
ghost use Rattle.ix_query.specs.Scans.{SatisfiesAt};
ghost use Rattle.ix_query.specs.Streams.{HasOne, Have, HaveAll};

use crate::answers::collect::{collect, documents, mark};
use crate::answers::doc_list::DocList;
use crate::answers::doc_stream::DocStream;
use crate::answers::intersection::Intersection;
use crate::answers::marks::Marks;
use crate::answers::matches::find_matches;
use crate::answers::order::fewest;
use crate::answers::terms::{
    every_document, find_near, find_phrase, nothing, only_term, postings_of,
};
use ix_file::Index;
use ix_query_text::{Term, Tree};
use ix_text::Memory;
use std::alloc::Global;

/// The numbers of the documents that a query finds.
pub(crate) fn find_numbers(
    alloc: Global,
    index: &Index<'_>,
    query: &Tree,
) -> Result<Vec<u32>, Memory>
    ensures { IfOk result (λ numbers. AreNumbersOf index.now.parts query.now numbers.items) }
{
    match query {
        Tree::Phrase(parts) => phrase_numbers(alloc, index, parts.as_slice()),
        Tree::Near {
            first,
            second,
            distance,
        } => near_numbers(alloc, index, first, second, *distance),
        Tree::Pattern(pattern) => find_matches(alloc, index, pattern),
        Tree::And(parts) => find_each(alloc, index, parts.as_slice()),
        Tree::Or(parts) => find_one(alloc, index, parts.as_slice()),
        Tree::Not(part) => find_others(alloc, index, part.get()),
    }
}

/// The numbers of the documents in which two terms are near. Allocates nothing if there are none.
pub(crate) fn near_numbers(
    alloc: Global,
    index: &Index<'_>,
    first: &Term,
    second: &Term,
    distance: u32,
) -> Result<Vec<u32>, Memory>
    ensures numbers { IfOk result (λ numbers.
        AreNumbersOf index.now.parts (asks.Near first.now second.now distance) numbers.items) }
    ensures none { (collection : Collection) → ArePartsOf collection index.now.parts
        → ((n : ℕ) → ¬ (SatisfiesAt collection (asks.Near first.now second.now distance) n))
        → IsOk result }
{
    match find_near(index, first, second, distance) {
        Some(near) => {
            let mut near = near;
            collect(alloc, &mut near)
        }
        None => Ok(Vec::new(alloc)),
    }
}

/// The numbers of the documents of a phrase.
fn phrase_numbers(
    alloc: Global,
    index: &Index<'_>,
    parts: &[Option<Term>],
) -> Result<Vec<u32>, Memory>
    ensures { IfOk result (λ numbers.
        AreNumbersOf index.now.parts (asks.Phrase parts.now) numbers.items) }
{
    if let Some(term) = only_term(parts) {
        return word_numbers(alloc, index, term);
    }
    let mut phrase = find_phrase(alloc, index, parts)?;
    collect(alloc, &mut phrase)
}

/// The numbers of the documents of a term.
fn word_numbers(alloc: Global, index: &Index<'_>, term: &Term) -> Result<Vec<u32>, Memory>
    ensures { IfOk result (λ numbers.
        AreNumbersOf index.now.parts (asks.Phrase (Some term.now ∷ [])) numbers.items) }
{
    match postings_of(index, term) {
        Some(postings) => documents(alloc, postings),
        None => Ok(Vec::new(alloc)),
    }
}

/// The documents that a part of a query finds, as a stream: those of a term, a phrase or a NEAR without a list of them.
#[cycle(find)]
fn find<'a>(alloc: Global, index: &'a Index<'_>, query: &Tree) -> Result<DocStream<'a>, Memory>
    ensures { IfOk result (λ stream. AreFound index.now.parts query.now (Have (HasNumber stream))) }
{
    match query {
        Tree::Phrase(parts) => find_phrase(alloc, index, parts.as_slice()),
        Tree::Near {
            first,
            second,
            distance,
        } => Ok(near_or_nothing(index, first, second, *distance)),
        Tree::Pattern(pattern) => Ok(list_found(find_matches(alloc, index, pattern)?)),
        Tree::And(parts) => Ok(list_found(find_each(alloc, index, parts.as_slice())?)),
        Tree::Or(parts) => Ok(list_found(find_one(alloc, index, parts.as_slice())?)),
        Tree::Not(part) => Ok(list_found(find_others(alloc, index, part.get())?)),
    }
}

/// The documents that each of the parts finds: a part that is a NOT is one that must not find them.
#[cycle(find)]
fn find_each(alloc: Global, index: &Index<'_>, parts: &[Tree]) -> Result<Vec<u32>, Memory>
    ensures { IfOk result (λ numbers.
        AreNumbersOf index.now.parts (asks.And parts.now) numbers.items) }
{
    let mut present = Vec::with_capacity(alloc, parts.len())?;
    let mut absent = Vec::new(alloc);
    for part in parts {
        if let Tree::Not(denied) = part {
            absent.push(find(alloc, index, denied.get())?)?;
        } else {
            present.push(find(alloc, index, part)?)?;
        }
    }
    collect(alloc, &mut intersect(index, present, absent))
}

/// The documents that one of the parts finds.
#[cycle(find)]
fn find_one(alloc: Global, index: &Index<'_>, parts: &[Tree]) -> Result<Vec<u32>, Memory>
    ensures { IfOk result (λ numbers.
        AreNumbersOf index.now.parts (asks.Or parts.now) numbers.items) }
{
    let mut marks = Marks::new(alloc, index.doc_count())?;
    for part in parts {
        let mut found = find(alloc, index, part)?;
        mark(&mut found, &mut marks);
    }
    marks.numbers(alloc)
}

/// The documents that a part does not find.
#[cycle(find)]
fn find_others(alloc: Global, index: &Index<'_>, part: &Tree) -> Result<Vec<u32>, Memory>
    ensures { IfOk result (λ numbers.
        AreNumbersOf index.now.parts (asks.Not part.now) numbers.items) }
{
    let mut absent = Vec::new(alloc);
    absent.push(find(alloc, index, part)?)?;
    collect(alloc, &mut intersect(index, Vec::new(alloc), absent))
}

/// The documents that each present part finds and no absent one. If there is no present part, they are among all.
fn intersect<'a>(
    index: &'a Index<'_>,
    present: Vec<DocStream<'a>>,
    absent: Vec<DocStream<'a>>,
) -> Intersection<'a>
    ensures { (n : ℕ) → IsInIntersection result.first result.others.items result.absent.items n
        ↔ (HaveAll HasNumber present.entry.items n
        × (present.entry.items ≡ [] → n < length index.now.parts.rows)
        × ¬ (HasOne HasNumber absent.entry.items n)) }
{
    let mut others = present;
    if others.is_empty() {
        return Intersection {
            first: every_document(index),
            others,
            absent,
        };
    }
    let lead = fewest(others.as_slice());
    let first = others.swap_remove(lead);
    Intersection {
        first,
        others,
        absent,
    }
}

/// The documents in which two terms are near.
fn near_or_nothing<'a>(
    index: &'a Index<'_>,
    first: &Term,
    second: &Term,
    distance: u32,
) -> DocStream<'a>
    ensures { AreFound index.now.parts (asks.Near first.now second.now distance)
        (Have (HasNumber result)) }
{
    match find_near(index, first, second, distance) {
        Some(near) => DocStream::Near(near),
        None => nothing(),
    }
}

/// Numbers that were found, as a stream.
fn list_found<'a>(numbers: Vec<u32>) -> DocStream<'a>
    requires { Ascends 0 (2 ^ 32 - 1) numbers.items }
    ensures { (n : ℕ) → Have (HasNumber result) n ↔ Contains numbers.items n }
{
    DocStream::DocList(DocList::new(numbers))
}

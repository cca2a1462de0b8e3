//! A question to a collection, from its bytes to the names that are written. An index of the
//! collection is built in memory, and asked.
ghost use Rattle.std.specs.Prelude.{◌≡◌, ◌<◌, length, All, IfOk, IfErr};
ghost use Rattle.ix_text.specs.Collections.{collection_of};
ghost use Rattle.ix_file.specs.IndexText.{IsIndexText};
ghost use Rattle.ix_file.specs.Sections.{FrontCoded};
ghost use Rattle.ix_ask.specs.Asking.{IsAnswer, IsAnswered, Leaves, Refuses, RefusesIndex};
ghost use Rattle.ix_query.specs.Scans.{IsScan};

use crate::ask_error::AskError;
use crate::names::name_lines_of;
use crate::output::{Lines, write_whole};
use ix_build::{Plan, build_in_memory};
use ix_file::Index;
use ix_output::WriteError;
use ix_query::{Query, answer};
use ix_text::{Collection, StopList};
use std::alloc::Global;
use std::io::Write;
use std::sync::Wait;
use std::thread::Threads;

/// Writes the name of each document of the collection text that satisfies the query, with LF, in
/// the order of the documents, flushes, and returns how many.
///
/// An index of the collection is built in memory by the plan, and asked; the names are the same
/// whatever the plan. The stop list takes the words out of the documents and makes holes in the
/// phrases of the query. Nothing is written but after `Ok` or `Write`; after `Write` a prefix of
/// the names may be out.
pub fn ask<W: Write, R: Threads + Wait + Sync>(
    rt: &R,
    alloc: Global,
    collection: &[u8],
    stop: &StopList,
    plan: &Plan,
    query: &str,
    out: &mut W,
) -> Result<usize, AskError>
    ensures answered { IfOk result
        (IsAnswered collection.now stop.now query.now (W.contents out.old) (W.contents out.new)) }
    ensures refused { IfErr result (Leaves plan.now.workers collection.now stop.now query.now
        (W.contents out.old) (W.contents out.new)) }
{
    let names = find_names(rt, alloc, collection, stop, plan, query)?;
    match write_whole(out, &names.bytes) {
        Ok(()) => Ok(names.count),
        Err(WriteError::Write) => Err(AskError::Write),
    }
}

/// What the query finds in the collection text.
fn find_names<R: Threads + Wait + Sync>(
    rt: &R,
    alloc: Global,
    collection: &[u8],
    stop: &StopList,
    plan: &Plan,
    query: &str,
) -> Result<Lines, AskError>
    ensures found { IfOk result
        (λ names. IsAnswer collection.now stop.now query.now names.bytes.items names.count) }
    ensures refused { IfErr result
        (Refuses plan.now.workers collection.now stop.now query.now) }
{
    let documents = match Collection::read(alloc, collection) {
        Ok(documents) => documents,
        Err(error) => return Err(AskError::Collection(error)),
    };
    let tree = match Query::parse(alloc, query, stop) {
        Ok(tree) => tree,
        Err(error) => return Err(AskError::Query(error)),
    };
    let numbers = numbers_through_index(rt, alloc, &documents, stop, plan, &tree)?;
    let bytes = name_lines_of(alloc, documents.docs(), &numbers)?;
    let count = numbers.len();
    Ok(Lines { bytes, count })
}

/// The numbers of the documents that satisfy the tree, from an index of them.
fn numbers_through_index<R: Threads + Wait + Sync>(
    rt: &R,
    alloc: Global,
    documents: &Collection<'_>,
    stop: &StopList,
    plan: &Plan,
    tree: &Query,
) -> Result<Vec<u32>, AskError>
    ensures scanned { IfOk result
        (λ numbers. IsScan (collection_of stop.now documents.now) tree.now numbers.items) }
    ensures below { IfOk result
        (λ numbers. All (λ number. number < length documents.now) numbers.items) }
    ensures refused { IfErr result (RefusesIndex plan.now.workers) }
{
    let text = index_text(rt, alloc, documents, stop, plan)?;
    let index = match Index::open(alloc, &text) {
        Ok(index) => index,
        Err(error) => return Err(AskError::Open(error)),
    };
    let numbers = answer(alloc, &index, tree)?;
    Ok(numbers)
}

/// The index text of the documents.
fn index_text<R: Threads + Wait + Sync>(
    rt: &R,
    alloc: Global,
    documents: &Collection<'_>,
    stop: &StopList,
    plan: &Plan,
) -> Result<Vec<u8>, AskError>
    ensures text { IfOk result (λ text.
        IsIndexText FrontCoded (collection_of stop.now documents.now) text.items) }
    ensures refused { IfErr result (RefusesIndex plan.now.workers) }
{
    let mut text = Vec::new(alloc);
    build_in_memory(rt, alloc, documents, stop, plan, &mut text)?;
    Ok(text)
}

//! Asking and indexing by the calling thread alone: no call starts a thread, or needs a handle of the platform.
ghost use Rattle.std.specs.Prelude.{◌^◌, ◌≤◌, IfErr, IfOk, length, map};
ghost use Rattle.ix_text.specs.Collections.{collection_of};
ghost use Rattle.ix_text.specs.Docs.{named_text};
ghost use Rattle.ix_file.specs.IndexText.{IsIndexText};
ghost use Rattle.ix_file.specs.Sections.{FrontCoded};
ghost use Rattle.ix_ask.specs.Alone.{AreNamed, IsIndexOfText, RefusesIndexing, RefusesQuestion};
ghost use Rattle.ix_ask.specs.Asking.{IsAnswer};

use crate::names::name_lines_of;
use crate::output::Lines;
use crate::refusal::EngineRefusal;
use ix_merge::merge;
use ix_query::{Query, scan};
use ix_run::invert;
use ix_text::{Collection, Doc, StopList};
use std::alloc::{AllocError, Global};

/// The name of each document of the collection text that satisfies the query, with LF, in the order of the documents.
///
/// No index is built on the way: each document is looked at. `Collection` if the bytes are no collection text, and
/// `Query` if the text is no query, or each if memory ran out in reading it; else `Memory`.
pub fn ask_alone(
    alloc: Global,
    collection: &[u8],
    stop: &StopList,
    query: &str,
) -> Result<Lines, EngineRefusal>
    ensures answered { IfOk result (λ names.
        IsAnswer collection.now stop.now query.now names.bytes.items names.count) }
    ensures refused { IfErr result (RefusesQuestion collection.now stop.now query.now) }
{
    let documents = match Collection::read(alloc, collection) {
        Ok(documents) => documents,
        Err(error) => return Err(EngineRefusal::Collection(error)),
    };
    let query = match Query::parse(alloc, query, stop) {
        Ok(query) => query,
        Err(error) => return Err(EngineRefusal::Query(error)),
    };
    match scan_names(alloc, documents.docs(), stop, &query) {
        Ok(names) => Ok(names),
        Err(_) => Err(EngineRefusal::Memory),
    }
}

/// The names of the documents that satisfy the query, by a scan of them.
fn scan_names(
    alloc: Global,
    documents: &[Doc<'_>],
    stop: &StopList,
    query: &Query,
) -> Result<Lines, AllocError>
    requires { length documents.now ≤ 2 ^ 28 }
    ensures { IfOk result (λ names. AreNamed stop.now query.now (map named_text documents.now)
        names.bytes.items names.count) }
{
    let numbers = scan(alloc, documents, stop, query)?;
    let bytes = name_lines_of(alloc, documents, &numbers)?;
    let count = numbers.len();
    Ok(Lines { bytes, count })
}

/// The index text, version 2, of the collection of a collection text, without the terms of the stop list.
///
/// The whole is inverted as one run, which is merged alone. `Collection` if the bytes are no collection text, or
/// if memory ran out in reading them; else `Memory`.
pub fn index_alone(
    alloc: Global,
    collection: &[u8],
    stop: &StopList,
) -> Result<Vec<u8>, EngineRefusal>
    ensures indexed { IfOk result (λ text. IsIndexOfText collection.now stop.now text.items) }
    ensures refused { IfErr result (RefusesIndexing collection.now) }
{
    let documents = match Collection::read(alloc, collection) {
        Ok(documents) => documents,
        Err(error) => return Err(EngineRefusal::Collection(error)),
    };
    match index_documents(alloc, documents.docs(), stop) {
        Ok(text) => Ok(text),
        Err(_) => Err(EngineRefusal::Memory),
    }
}

/// The index text of documents, by one run of all of them.
///
/// A collection text has too few documents and tokens for `TooLarge` of the run or of the merge, one run that begins
/// at 0 has no gap, and a write into memory fails only if it cannot grow: each error is out of memory.
fn index_documents(
    alloc: Global,
    documents: &[Doc<'_>],
    stop: &StopList,
) -> Result<Vec<u8>, AllocError>
    ensures { IfOk result (λ text. IsIndexText FrontCoded
        (collection_of stop.now (map named_text documents.now)) text.items) }
{
    let Ok(run) = invert(alloc, documents, stop, 0) else {
        return Err(AllocError);
    };
    let mut sources = Vec::new(alloc);
    sources.push(run.source())?;
    let mut text = Vec::new(alloc);
    match merge(alloc, sources, &mut text) {
        Ok(()) => Ok(text),
        Err(_) => Err(AllocError),
    }
}

//! Inverting a block of documents (IIR 4.2): its tokens are numbered by term, and coded once the terms are sorted.

ghost use Rattle.std.specs.Prelude.{◌≡◌, ◌+◌, ◌^◌, ◌<◌, ◌≤◌, [], All, map, length, OnOk, IfOk, IfErr, IsErr, Err};
ghost use Rattle.ix_text.specs.Collections.{collection_of};
ghost use Rattle.ix_text.specs.Docs.{named_text};
ghost use Rattle.ix_text.specs.Parts.{row_of};
ghost use Rattle.ix_run.specs.Dictionaries.{HoldsTokens, tokens_in};
ghost use Rattle.ix_run.specs.DocumentEnds.{ends_of};
ghost use Rattle.ix_run_text.specs.Heads.{row_of_doc};
ghost use Rattle.ix_run.specs.Inverted.{IsLawfulDocument, documents_of, tokens_of};
ghost use Rattle.ix_run.specs.Runs.{IsRunOf, IsTooLarge};

use crate::coding::code_terms;
use crate::dictionary::Dictionary;
use crate::errors::RunError;
use crate::run::Run;
use crate::seen_words::no_words;
use ix_run_text::{RunDoc, RunHead};
use ix_text::{Doc, MAX_DOCUMENTS, Memory, StopList};
use std::alloc::Global;

/// Inverts a block of documents, the first of which has this number in the whole collection (IIR 4.3).
///
/// Each document's token list is made once, and one is kept at a time. `TooLarge` where the numbers of the documents
/// go beyond 2^28, which is tested first, or there are more than 2^28 tokens; or `Memory`.
pub fn invert(alloc: Global, docs: &[Doc<'_>], stop: &StopList, first: u32) -> Result<Run, RunError>
    ensures run { IfOk result (λ run.
        IsRunOf run first (collection_of stop.now (map named_text docs.now))) }
    ensures too_large { result ≡ Err RunError.TooLarge
        → IsTooLarge first (collection_of stop.now (map named_text docs.now)) }
    ensures refused { IsTooLarge first (collection_of stop.now (map named_text docs.now))
        → IsErr result }
    ensures numbers { 2 ^ 28 < first + length docs.now → result ≡ Err RunError.TooLarge }
{
    let most = MAX_DOCUMENTS as usize;
    if docs.len() > most || first as usize > most - docs.len() {
        return Err(RunError::TooLarge);
    }
    let stop_terms = stop.copy(alloc)?;
    let mut dictionary = Dictionary::with_room(alloc, byte_total(docs))?;
    let rows = add_documents(alloc, &mut dictionary, docs, stop)?;
    let terms = code_terms(alloc, dictionary)?;
    let head = RunHead {
        first,
        stop: stop_terms,
        docs: rows,
    };
    Ok(Run::new(head, terms))
}

/// Inverts documents into a dictionary that is empty yet, and gives their rows.
fn add_documents(
    alloc: Global,
    dictionary: &mut Dictionary,
    docs: &[Doc<'_>],
    stop: &StopList,
) -> Result<Vec<RunDoc>, RunError>
    requires few { length docs.now ≤ 2 ^ 28 }
    requires empty { HoldsTokens dictionary.old.numbers dictionary.old.tokens.items [] }
    requires ends { dictionary.old.ends.items ≡ [] }
    ensures rows { IfOk result (λ rows. map row_of_doc rows.items
        ≡ map row_of (documents_of stop.now (map named_text docs.now))) }
    ensures held { OnOk result (HoldsTokens dictionary.new.numbers dictionary.new.tokens.items
        (tokens_in (documents_of stop.now (map named_text docs.now)))) }
    ensures ends { OnOk result (dictionary.new.ends.items
        ≡ ends_of 0 (documents_of stop.now (map named_text docs.now))) }
    ensures few { OnOk result (tokens_of (documents_of stop.now (map named_text docs.now))
        ≤ 2 ^ 28) }
    ensures lawful { OnOk result (All (IsLawfulDocument stop.now)
        (documents_of stop.now (map named_text docs.now))) }
    ensures many { IfErr result (λ error. error ≡ RunError.TooLarge
        → 2 ^ 28 < tokens_of (documents_of stop.now (map named_text docs.now))) }
{
    let mut rows = Vec::new(alloc);
    let mut term = String::new(alloc);
    let mut places = no_words(alloc, byte_total(docs))?;
    let words = places.as_mut_slice();
    for doc in docs {
        let tokens = dictionary.add_text(alloc, &mut term, words, doc.text, stop)?;
        rows.push(make_row(alloc, doc, tokens)?)?;
    }
    Ok(rows)
}

/// How many bytes the texts of documents have together. It decides about memory alone.
fn byte_total(docs: &[Doc<'_>]) -> usize {
    let mut bytes = 0usize;
    for doc in docs {
        bytes = bytes.saturating_add(doc.text.len());
    }
    bytes
}

/// The row of a document that has so many tokens.
fn make_row(alloc: Global, doc: &Doc<'_>, tokens: u32) -> Result<RunDoc, Memory>
    ensures { IfOk result (λ row. row_of_doc row
        ≡ record { name = doc.now.name.now; tokens = tokens }) }
{
    Ok(RunDoc {
        name: String::from_str(alloc, doc.name)?,
        tokens,
    })
}

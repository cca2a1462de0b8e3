//! The plain program: it makes each document's token list and looks whether the query asks for it.

ghost use Rattle.std.specs.Prelude.{◌≡◌, ◌^◌, ◌≤◌, ℕ, List, map, length, IfOk};
ghost use Rattle.ix_text.specs.Collections.{Collection, collection_of};
ghost use Rattle.ix_text.specs.Docs.{named_text};
ghost use Rattle.ix_query_text.specs.declared.tree.Tree.{Tree};
ghost use Rattle.ix_query.specs.Scans.{IsScan};

use crate::satisfaction::satisfies;
use ix_query_text::Query;
use ix_text::{Doc, Memory, StopList, write_tokens};
use std::alloc::Global;

/// The numbers of the documents that satisfy the query, from 0, ascending (IIR 1.3).
///
/// Each token list is made once, and over the one before. Every faster answer is compared with
/// this one.
pub fn scan(
    alloc: Global,
    documents: &[Doc<'_>],
    stop: &StopList,
    query: &Query,
) -> Result<Vec<u32>, Memory>
    requires { length documents.now ≤ 2 ^ 32 }
    ensures { IfOk result (λ numbers.
        IsScan (collection_of stop.now (map named_text documents.now)) query.now numbers.items) }
{
    let mut found = Vec::new(alloc);
    let mut list = Vec::new(alloc);
    for (number, document) in documents.iter().enumerate() {
        let count = write_tokens(alloc, &mut list, document.text, stop)?;
        if satisfies(&list[..count], query.tree()) {
            found.push(number as u32)?;
        }
    }
    Ok(found)
}

/// A law: a collection has one scan for a query.
pub fn a_query_has_one_scan()
    ensures { (collection : Collection) (query : Tree) (numbers others : List ℕ) →
        IsScan collection query numbers → IsScan collection query others → numbers ≡ others }
{}

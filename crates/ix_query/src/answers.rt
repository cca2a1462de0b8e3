//! Answers from an index: cursors on the bytes of its postings lists find the documents that satisfy a query, and no
//! list of postings is decoded into memory.

ghost use Rattle.std.specs.Prelude.{◌≡◌, ◌<◌, ℕ, List, length, All, IfOk, IsOk};
ghost use Rattle.ix_text.specs.Collections.{Collection};
ghost use Rattle.ix_file.specs.Opened.{IsIndexOf, Opened};
ghost use Rattle.ix_file.specs.Sections.{Version};
ghost use Rattle.ix_query_text.specs.declared.tree.Tree.{Tree as SeenTree};
ghost use Rattle.ix_query_text.specs.declared.tree.Tree.TheVariants as asks;
ghost use Rattle.ix_query.specs.Scans.{IsScan, SatisfiesAt};

mod collect;
mod common;
mod doc_list;
mod doc_stream;
mod find;
mod intersection;
mod marks;
mod matches;
mod near;
mod numbers;
mod order;
mod phrase;
mod reader;
mod start;
mod terms;
mod word;

use find::{find_numbers, near_numbers};
use ix_file::Index;
use ix_query_text::{Query, Tree};
use ix_text::Memory;
use std::alloc::Global;

/// The numbers of the documents of an index that satisfy a query, ascending (IIR 1.3 and 2.4.2): those that
/// [`scan`](crate::scan) finds in its collection.
///
/// # Errors
/// `Memory` if out of memory. A query that is one NEAR which no document satisfies allocates nothing.
pub fn answer(alloc: Global, index: &Index<'_>, query: &Query) -> Result<Vec<u32>, Memory>
    ensures scan { IfOk result (λ numbers. (version : Version) (collection : Collection)
        → IsIndexOf index.now version collection → IsScan collection query.now numbers.items) }
    ensures below { IfOk result (λ numbers.
        All (λ number. number < length index.now.parts.rows) numbers.items) }
    ensures none { (first second : List ℕ) (distance : ℕ)
        → (version : Version) (collection : Collection)
        → query.now ≡ asks.Near first second distance → IsIndexOf index.now version collection
        → ((number : ℕ) → ¬ (SatisfiesAt collection query.now number)) → IsOk result }
{
    let _documents = index.doc_count();
    let tree = query.tree();
    match tree {
        Tree::Near {
            first,
            second,
            distance,
        } => near_numbers(alloc, index, first, second, *distance),
        _ => find_numbers(alloc, index, tree),
    }
}

/// A law: of one collection, what [`scan`](crate::scan) finds and what [`answer`] finds in an index of it are one list,
/// and so are the answers from two indexes of it, whatever their versions.
pub fn answers_are_scans()
    ensures scan { (opened : Opened) (version : Version) (collection : Collection)
        → (query : SeenTree) (scanned answered : List ℕ)
        → IsIndexOf opened version collection → IsScan collection query scanned
        → ((v : Version) (c : Collection) → IsIndexOf opened v c → IsScan c query answered)
        → scanned ≡ answered }
    ensures versions { (one other : Opened) (version older : Version) (collection : Collection)
        → (query : SeenTree) (numbers others : List ℕ)
        → IsIndexOf one version collection → IsIndexOf other older collection
        → ((v : Version) (c : Collection) → IsIndexOf one v c → IsScan c query numbers)
        → ((v : Version) (c : Collection) → IsIndexOf other v c → IsScan c query others)
        → numbers ≡ others }
{}

//! The documents of a pattern.

ghost use Rattle.std.specs.Prelude.{◌<◌, ◌↔◌, ◌⊎◌, ◌≡◌, ℕ, Contains, IfOk};
ghost use Rattle.ix_file.specs.Postings.{documents_of};
ghost use Rattle.ix_query_text.specs.declared.tree.Tree.TheVariants as asks;
ghost use Rattle.ix_query.specs.Finding.{AreNumbersOf};
ghost use Rattle.ix_query.specs.Marked.{IsMarked};

use crate::answers::marks::Marks;
use ix_file::{Index, Postings};
use ix_gram::{Pattern, expand};
use ix_text::Memory;
use std::alloc::Global;

/// The documents that have a term which matches the pattern. The work is linear in the postings of these terms.
pub(crate) fn find_matches(
    alloc: Global,
    index: &Index<'_>,
    pattern: &Pattern,
) -> Result<Vec<u32>, Memory>
    ensures { IfOk result (λ numbers.
        AreNumbersOf index.now.parts (asks.Pattern pattern.now) numbers.items) }
{
    let numbers = expand(alloc, index, pattern)?;
    let mut marks = Marks::new(alloc, index.doc_count())?;
    for number in &numbers {
        mark_documents(index.list(*number), &mut marks);
    }
    marks.numbers(alloc)
}

/// Marks the documents of postings that are below the marks' count.
fn mark_documents(postings: Postings<'_>, marks: &mut Marks)
    ensures marked { (n : ℕ) → IsMarked marks.new n
        ↔ (IsMarked marks.old n
        ⊎ (Contains (documents_of postings.entry) n × (n < marks.old.count))) }
    ensures count { marks.new.count ≡ marks.old.count }
{
    for posting in postings {
        marks.mark(posting.document);
    }
}

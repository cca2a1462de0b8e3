//! Streams read to their end.

ghost use Rattle.std.specs.Prelude.{◌≡◌, ◌<◌, ◌↔◌, ◌⊎◌, ℕ, IfOk, IsOk};
ghost use Rattle.ix_file.specs.Postings.{documents_of};
ghost use Rattle.ix_query.specs.Marked.{IsMarked};
ghost use Rattle.ix_query.specs.Streams.{AreAll, Have};

use crate::answers::marks::Marks;
use crate::answers::numbers::Numbers;
use ix_file::Postings;
use ix_text::Memory;
use std::alloc::Global;

/// All numbers of a stream, in memory. `Memory` if out of memory; a stream without numbers allocates nothing.
pub(crate) fn collect<N: Numbers>(alloc: Global, list: &mut N) -> Result<Vec<u32>, Memory>
    ensures all { IfOk result (λ numbers. AreAll (Have (N.has list.old)) numbers.items) }
    ensures none { ((n place : ℕ) → ¬ (N.has list.old n place)) → IsOk result }
{
    let mut found = Vec::new(alloc);
    let mut low = 0;
    while let Some(number) = list.seek(low) {
        found.push(number)?;
        low = number + 1;
    }
    Ok(found)
}

/// The documents of a term, in one allocation. `Memory` if out of memory.
pub(crate) fn documents(alloc: Global, postings: Postings<'_>) -> Result<Vec<u32>, Memory>
    ensures { IfOk result (λ numbers. numbers.items ≡ documents_of postings.entry) }
{
    let mut found = Vec::with_capacity(alloc, postings.len())?;
    for posting in postings {
        found.push(posting.document)?;
    }
    Ok(found)
}

/// Marks all numbers of a stream that are below the marks' count.
pub(crate) fn mark<N: Numbers>(list: &mut N, marks: &mut Marks)
    ensures marked { (n : ℕ) → IsMarked marks.new n
        ↔ (IsMarked marks.old n ⊎ (Have (N.has list.old) n × (n < marks.old.count))) }
    ensures count { marks.new.count ≡ marks.old.count }
{
    let mut low = 0;
    while let Some(number) = list.seek(low) {
        marks.mark(number);
        low = number + 1;
    }
}

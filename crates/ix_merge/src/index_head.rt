//! What an opened index holds before its terms, in the form of a source's head.
ghost use Rattle.std.specs.Prelude.{◌≡◌, IfOk, map};
ghost use Rattle.ix_text.specs.PartsLaws.{AreLawful};
ghost use Rattle.ix_run.specs.Heads.{row_of_doc};
ghost use Rattle.ix_run.specs.RunSources.{EndsAt};

use ix_file::{Index, Postings};
use ix_run::RunDoc;
use ix_text::Memory;
use std::alloc::Global;

/// The names and the numbers of tokens of an index's documents.
pub(crate) fn documents(alloc: Global, index: &Index<'_>) -> Result<Vec<RunDoc>, Memory>
    ensures rows { IfOk result (λ docs. map row_of_doc docs.items ≡ index.now.parts.rows) }
    ensures lawful { AreLawful index.now.parts }
{
    let mut docs = Vec::new(alloc);
    for document in 0..index.doc_count() {
        let name = String::from_str(alloc, index.name(document))?;
        let tokens = index.token_count(document);
        docs.push(RunDoc { name, tokens })?;
    }
    Ok(docs)
}

/// The document of the last posting, or 0 if there is none. Skips positions.
pub(crate) fn last_document(postings: Postings<'_>) -> u32
    ensures { EndsAt result postings.entry }
{
    let mut left = postings;
    let mut last = 0;
    while let Some(posting) = left.next() {
        last = posting.document;
    }
    last
}

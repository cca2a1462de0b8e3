//! The tokens of a run's documents, counted.
ghost use Rattle.std.specs.Prelude.{◌≤◌, ◌^◌, map, sum_by, IfOk};
ghost use Rattle.ix_postings.specs.TokenTables.{HasTokens};
ghost use Rattle.ix_run_text.specs.Heads.{row_of_doc};

use crate::RunDoc;
use ix_postings::TokenTable;
use std::alloc::{AllocError, Global};

/// The table of the documents' tokens.
pub(crate) fn table_of(alloc: Global, docs: &[RunDoc]) -> Result<TokenTable, AllocError>
    requires { sum_by (λ row. row.tokens) (map row_of_doc docs.now) ≤ 2 ^ 28 }
    ensures { IfOk result (λ table. HasTokens table (map row_of_doc docs.now)) }
{
    let mut table = TokenTable::new(alloc)?;
    for doc in docs {
        table.push(doc.tokens)?;
    }
    Ok(table)
}

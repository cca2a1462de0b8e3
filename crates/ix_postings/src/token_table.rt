//! The tokens of a collection's documents, counted.
ghost use Rattle.std.specs.List.Sorted.{IsNonDecreasing};

use std::alloc::{AllocError, Global};

/// How many tokens stand before each document of a collection, and how many each has. Documents are counted from 0, and
/// so are tokens, over all documents.
#[derive(Drop)]
pub struct TokenTable {
    // the tokens before each document, and then those of all
    starts: Vec<u32>,
    ghost rising: { IsNonDecreasing starts.items },
}

impl TokenTable {
    ghost use Rattle.std.specs.Prelude.{◌≡◌, ◌≤◌, ◌++◌, ◌∷◌, [], List, length, sum_by, IfOk, OnOk, OnErr, MatchOption};
    ghost use Rattle.ix_text.specs.Parts.{DocumentRow};
    ghost use Rattle.ix_postings.specs.TokenTables.{HasRoomFor, HasTokens, IsSpan};

    /// The table of no documents. Fails where memory is refused.
    pub fn new(alloc: Global) -> Result<TokenTable, AllocError>
        ensures { IfOk result (λ table. HasTokens table []) }
    {
        Ok(TokenTable {
            starts: vec![in alloc; 0]?,
        })
    }

    /// Adds a document with as many tokens, where all documents together have at most 2^28 then. Fails where memory is
    /// refused, and then nothing has changed.
    pub fn push(&mut self, tokens: u32) -> Result<(), AllocError>
        requires { HasRoomFor self.old tokens }
        ensures ok { (rows : List DocumentRow) (row : DocumentRow)
            → HasTokens self.old rows → row.tokens ≡ tokens
            → OnOk result (HasTokens self.new (rows ++ row ∷ [])) }
        ensures refused { (rows : List DocumentRow) → HasTokens self.old rows
            → OnErr result (HasTokens self.new rows) }
    {
        let before = self.total();
        self.starts.push(before + tokens)?;
        Ok(())
    }

    /// How many tokens the documents have together.
    pub fn total(&self) -> u32
        ensures { (rows : List DocumentRow) → HasTokens self.now rows
            → result ≡ sum_by (λ row. row.tokens) rows }
    {
        self.starts.last().copied().unwrap_or(0)
    }

    /// The number of the first token of the document of this number, and how many tokens the document has. None where
    /// there is no such document.
    #[inline]
    pub fn span(&self, document: u32) -> Option<(u32, u32)>
        ensures { (rows : List DocumentRow) → HasTokens self.now rows
            → MatchOption result (length rows ≤ document) (IsSpan rows document) }
    {
        let place = document as usize;
        let first = *self.starts.get(place)?;
        let next = *self.starts.get(place + 1)?;
        Some((first, next - first))
    }
}

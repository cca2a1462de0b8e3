//! Reading the documents of a run text.
ghost use Rattle.std.specs.Prelude.{◌≡◌, ◌≤◌, ◌+◌, ◌^◌, ◌++◌, List, ℕ, length, flat_map, map, string_bytes, Some, IfOk, IfErr, MatchResult};
ghost use Rattle.std.specs.Io.KnownBytes.{Consumes};
ghost use Rattle.ix_vbyte.specs.Code.{code_of};
ghost use Rattle.ix_text.specs.Collections.{IsName};
ghost use Rattle.ix_text.specs.Parts.{DocumentRow, row_bytes};
ghost use Rattle.ix_run_text.specs.Heads.{row_of_doc};
ghost use Rattle.ix_run_text.specs.Inputs.{known_left};
ghost use Rattle.ix_run_text.specs.Pieces.{ArePiecesRead, EachFits, RowFits};
ghost use Rattle.ix_run_text.specs.RunTextErrors.{IsRefusal};

use crate::heading::{CODE_LIMIT, read_counted_text};
use crate::input::Input;
use crate::{RunDoc, RunTextError};
use ix_text::{MAX_TOKENS, is_unbroken};
use std::alloc::Global;
use std::io::Read;

/// Takes so many documents, of at most 2^28 tokens together.
pub(crate) fn read_rows<R: Read>(
    alloc: Global,
    input: &mut Input<R>,
    count: u32,
) -> Result<Vec<RunDoc>, RunTextError>
    ensures read { IfOk result (λ docs.
        ArePiecesRead (row_bytes code_of) RowFits (known_left R.remaining input.old)
        (known_left R.remaining input.new) (map row_of_doc docs.items) count) }
    ensures all { IfOk result (λ docs. length docs.items ≡ count) }
    ensures refused { IfErr result (λ error. (rows : List DocumentRow) (rest : List ℕ)
        → length rows ≡ count → EachFits RowFits rows
        → known_left R.remaining input.old ≡ Some (flat_map (row_bytes code_of) rows ++ rest)
        → IsRefusal error) }
{
    let mut docs = Vec::new(alloc);
    let mut tokens = 0;
    for _ in 0..count {
        let doc = read_row(alloc, input, tokens)?;
        tokens += doc.tokens;
        docs.push(doc)?;
    }
    Ok(docs)
}

/// Takes a document where those before it have so many tokens.
///
/// `Name` where its name has not 1 to 255 bytes, or holds a TAB or an LF; `TooLarge` where its tokens are too many.
fn read_row<R: Read>(
    alloc: Global,
    input: &mut Input<R>,
    before: u32,
) -> Result<RunDoc, RunTextError>
    requires { before ≤ 2 ^ 28 }
    ensures taken { IfOk result (λ doc.
        Consumes (known_left R.remaining input.old) (known_left R.remaining input.new)
        (row_bytes code_of (row_of_doc doc))) }
    ensures name { IfOk result (λ doc. IsName (string_bytes doc.name)) }
    ensures few { IfOk result (λ doc. before + doc.tokens ≤ 2 ^ 28) }
    ensures accepted { (row : DocumentRow) (rest : List ℕ) → IsName row.name
        → before + row.tokens ≤ 2 ^ 28
        → known_left R.remaining input.old ≡ Some (row_bytes code_of row ++ rest)
        → MatchResult result (λ doc. (row_of_doc doc ≡ row)
        × (known_left R.remaining input.new ≡ Some rest)) IsRefusal }
{
    let name = read_counted_text(alloc, input, RunTextError::Name)?;
    if !is_unbroken(name.as_str()) {
        return Err(RunTextError::Name);
    }
    let (tokens, _) = input.code(CODE_LIMIT)?;
    if tokens > MAX_TOKENS - before {
        return Err(RunTextError::TooLarge);
    }
    Ok(RunDoc { name, tokens })
}

//! Reading the list of a term.
ghost use Rattle.std.specs.Prelude.{◌≡◌, ◌≤◌, ◌++◌, ◌↔◌, List, ℕ, Some, IfOk, IfErr, OnOk, length};
ghost use Rattle.std.specs.Io.KnownBytes.{Keeps};
ghost use Rattle.ix_text.specs.Parts.{DocumentRow, Posting};
ghost use Rattle.ix_text.specs.TokenNumbers.{AreDistinct, numbers_of_postings};
ghost use Rattle.ix_postings.specs.CheckedLists.{SeesList};
ghost use Rattle.ix_postings.specs.NextPostings.{HaveRoom, PostingsFit};
ghost use Rattle.ix_postings.specs.TokenMarks.{HoldsNumbers, room};
ghost use Rattle.ix_postings.specs.TokenTables.{HasTokens};
ghost use Rattle.ix_vbyte.specs.Postings.{list_bytes};
ghost use Rattle.ix_run_text.specs.Inputs.{bytes_held, known_left};
ghost use Rattle.ix_run_text.specs.RunTextErrors.{IsRefusal};

use crate::RunTextError;
use crate::input::Input;
use crate::term::TermCounts;
use ix_postings::{ListFault, TokenMarks, TokenTable, check_list};
use ix_vbyte::VbError;
use std::io::Read;

/// Buffers the list of a term, checks it and marks its tokens. Returns one above its last document. The list is not taken. After
/// an error any tokens may be marked.
///
/// # Errors
/// In the order of the bytes: those of `check_list`, but `ListLength` if the list ends inside a posting; `Number(Cut)` if the
/// input ends inside the list, `Read` or `Memory` if no more of it can be read, each after the faults of the bytes that came.
pub(crate) fn read_list<R: Read>(
    input: &mut Input<R>,
    counts: TermCounts,
    tokens: &TokenTable,
    marks: &mut TokenMarks,
) -> Result<u32, RunTextError>
    requires { HaveRoom tokens.now (λ top. top ≤ room marks.old) }
    ensures kept { OnOk result (Keeps (known_left R.remaining input.old)
        (known_left R.remaining input.new)) }
    ensures held { OnOk result (counts.bytes ≤ length (bytes_held input.new)) }
    ensures read { IfOk result (λ after. (rows : List DocumentRow) → HasTokens tokens.now rows
        → SeesList AreDistinct (HoldsNumbers marks.old) (HoldsNumbers marks.new) rows
        (bytes_held input.new) counts.bytes counts.documents after) }
    ensures room { (top : ℕ) → (top ≤ room marks.old) ↔ (top ≤ room marks.new) }
    ensures accepted { (rows : List DocumentRow) (numbers : List ℕ) (postings : List Posting)
        (rest : List ℕ) → HasTokens tokens.now rows → HoldsNumbers marks.old numbers
        → PostingsFit rows 0 postings → AreDistinct (numbers ++ numbers_of_postings rows postings)
        → length postings ≡ counts.documents → length (list_bytes postings) ≡ counts.bytes
        → known_left R.remaining input.old ≡ Some (list_bytes postings ++ rest)
        → IfErr result IsRefusal }
{
    let size = counts.bytes as usize;
    let filled = input.fill(size);
    let bytes = input.held();
    match check_list(
        bytes,
        size.min(bytes.len()),
        counts.documents,
        tokens,
        marks,
    ) {
        Ok(after) if filled.is_ok() => Ok(after),
        Ok(_) => Err(RunTextError::ListLength),
        Err(fault) => match fault {
            ListFault::Number(number) => match number {
                VbError::Cut => {
                    filled?;
                    Err(RunTextError::ListLength)
                }
                _ => Err(RunTextError::Number(number)),
            },
            _ => Err(RunTextError::from(fault)),
        },
    }
}

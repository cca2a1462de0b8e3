//! Reading the stop terms of a run text.
ghost use Rattle.std.specs.Prelude.{◌≡◌, ◌↔◌, ◌++◌, List, ℕ, length, flat_map, map, string_bytes, Some, IsTrue, IfOk, IfErr, MatchResult};
ghost use Rattle.std.specs.Io.KnownBytes.{Consumes};
ghost use Rattle.ix_text.specs.StopSets.{IsStopSet};
ghost use Rattle.ix_vbyte.specs.Texts.{counted};
ghost use Rattle.ix_run_text.specs.Inputs.{known_left};
ghost use Rattle.ix_run_text.specs.Orders.{StandsAbove};
ghost use Rattle.ix_run_text.specs.Pieces.{ArePiecesRead, EachFits, StopTermFits};
ghost use Rattle.ix_run_text.specs.RunText.{stop_bytes};
ghost use Rattle.ix_run_text.specs.RunTextErrors.{IsRefusal};

use crate::RunTextError;
use crate::heading::{CODE_LIMIT, read_counted_text};
use crate::input::Input;
use ix_text::{MAX_STOP_TERMS, StopList};
use std::alloc::Global;
use std::io::Read;

/// Takes the number of stop terms and the terms.
///
/// `TooLarge` where the number is above 2^28; of each term `TermSize`, `Text` and `StopOrder`.
pub(crate) fn read_stop_list<R: Read>(
    alloc: Global,
    input: &mut Input<R>,
) -> Result<StopList, RunTextError>
    ensures taken { IfOk result (λ stop.
        Consumes (known_left R.remaining input.old) (known_left R.remaining input.new)
        (stop_bytes stop)) }
    ensures lawful { IfOk result (λ stop. IsStopSet stop) }
    ensures accepted { (stop : List (List ℕ)) (rest : List ℕ) → IsStopSet stop
        → known_left R.remaining input.old ≡ Some (stop_bytes stop ++ rest)
        → MatchResult result (λ read. (read ≡ stop)
        × (known_left R.remaining input.new ≡ Some rest)) IsRefusal }
{
    let (count, _) = input.code(CODE_LIMIT)?;
    if count > MAX_STOP_TERMS {
        return Err(RunTextError::TooLarge);
    }
    let terms = read_stop_terms(alloc, input, count)?;
    Ok(StopList::from_sorted(terms))
}

/// Takes so many stop terms.
fn read_stop_terms<R: Read>(
    alloc: Global,
    input: &mut Input<R>,
    count: u32,
) -> Result<Vec<String>, RunTextError>
    ensures read { IfOk result (λ terms.
        ArePiecesRead counted StopTermFits (known_left R.remaining input.old)
        (known_left R.remaining input.new) (map string_bytes terms.items) count) }
    ensures all { IfOk result (λ terms. length terms.items ≡ count) }
    ensures refused { IfErr result (λ error. (terms : List (List ℕ)) (rest : List ℕ)
        → length terms ≡ count → EachFits StopTermFits terms
        → known_left R.remaining input.old ≡ Some (flat_map counted terms ++ rest)
        → IsRefusal error) }
{
    let mut terms = Vec::new(alloc);
    for _ in 0..count {
        let term = stop_term(alloc, input, &terms)?;
        terms.push(term)?;
    }
    Ok(terms)
}

/// Takes a stop term, which stands above those before it: `StopOrder` where it does not.
fn stop_term<R: Read>(
    alloc: Global,
    input: &mut Input<R>,
    before: &[String],
) -> Result<String, RunTextError>
    ensures taken { IfOk result (λ text.
        Consumes (known_left R.remaining input.old) (known_left R.remaining input.new)
        (counted (string_bytes text))) }
    ensures fits { IfOk result (λ text.
        StopTermFits (map string_bytes before.now) (string_bytes text)) }
    ensures accepted { (text rest : List ℕ) → StopTermFits (map string_bytes before.now) text
        → known_left R.remaining input.old ≡ Some (counted text ++ rest)
        → MatchResult result (λ read. (string_bytes read ≡ text)
        × (known_left R.remaining input.new ≡ Some rest)) IsRefusal }
{
    let term = read_counted_text(alloc, input, RunTextError::TermSize)?;
    if !stands_above(before, term.as_str()) {
        return Err(RunTextError::StopOrder);
    }
    Ok(term)
}

/// Whether the text stands above the last of the texts, if there is one.
fn stands_above(texts: &[String], text: &str) -> bool
    ensures { IsTrue result ↔ StandsAbove (map string_bytes texts.now) text.now }
{
    match texts.last() {
        None => true,
        Some(last) => last.as_str() < text,
    }
}

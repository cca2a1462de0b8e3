//! Reading a script.

ghost use Rattle.std.specs.Prelude.{◌≡◌, ◌≢◌, ◌<◌, ◌++◌, ◌⊎◌, [], length, map};
ghost use Rattle.std.specs.Prelude.{IfOk, IfErr, OnOk, MatchOption};
ghost use Rattle.ix_script.specs.Steps.{AddsLine, AsksQuery, IsLineOf, IsNoNumber, IsNumber, IsScript};
ghost use Rattle.ix_script.specs.Steps.{Removes, RemovesNone, Text, step_of};
ghost use Rattle.ix_script.specs.ScriptFaults.{IsLineFault, IsNoQuery, IsScriptFault};
ghost use Rattle.ix_script.specs.declared.script_error.ScriptError.TheVariants.{Memory};

use crate::script_error::ScriptError;
use crate::step::Step;
use ix_query::{Query, QueryError};
use ix_text::{MAX_DOCUMENTS, StopList};
use std::alloc::{AllocError, Global};

/// One more than the greatest number that a document may have.
const NUMBERS: u32 = MAX_DOCUMENTS;

/// Reads a script: the text is cut at every LF, and each line that is not empty is `add PATH`,
/// `publish`, `ask QUERY` or `remove D`, with one space and a rest that is not empty. D is a
/// decimal number from 0 to 268435455 without leading zeros; a query is read under the stop list.
///
/// # Errors
/// The fault of the first line that has one: `Line` if it is none of these, and else `Query` if its
/// query is none. `Memory` comes in place of any answer.
pub fn read_script<'t>(
    alloc: Global,
    text: &'t str,
    stop: &StopList,
) -> Result<Vec<Step<'t>>, ScriptError>
    ensures read { IfOk result
        (λ steps. IsScript stop.now text.entry.now (map step_of steps.items)) }
    ensures fault { IfErr result
        (λ error. (error ≡ Memory) ⊎ IsScriptFault stop.now text.entry.now error) }
{
    let mut steps = Vec::new(alloc);
    let mut number = 1;
    let mut left = text;
    while let Some((line, next)) = left.split_once('\n') {
        read_line(alloc, &mut steps, line, number, stop)?;
        number += 1;
        left = next;
    }
    read_line(alloc, &mut steps, left, number, stop)?;
    Ok(steps)
}

/// Adds the step of a line, if the line is not empty. The line has this number.
fn read_line<'t>(
    alloc: Global,
    steps: &mut Vec<Step<'t>>,
    line: &'t str,
    number: usize,
    stop: &StopList,
) -> Result<(), ScriptError>
    ensures step { OnOk result (AddsLine stop.now line.entry.now
        (map step_of steps.old.items) (map step_of steps.new.items)) }
    ensures fault { IfErr result
        (λ error. (error ≡ Memory) ⊎ IsLineFault stop.now line.entry.now number error) }
{
    if line.is_empty() {
        return Ok(());
    }
    let step = read_step(alloc, line, number, stop)?;
    steps.push(step)?;
    Ok(())
}

/// The step of a line that is not empty.
fn read_step<'t>(
    alloc: Global,
    line: &'t str,
    number: usize,
    stop: &StopList,
) -> Result<Step<'t>, ScriptError>
    requires { 0 < length line.now }
    ensures step { IfOk result (λ step. IsLineOf stop.now line.entry.now (step_of step)) }
    ensures fault { IfErr result
        (λ error. (error ≡ Memory) ⊎ IsLineFault stop.now line.entry.now number error) }
{
    if line == "publish" {
        return Ok(Step::Publish);
    }
    if let Some(path) = rest_behind(line, "add ") {
        return Ok(Step::Add(path));
    }
    if let Some(query) = rest_behind(line, "ask ") {
        return read_query(alloc, query, number, stop);
    }
    let removed = read_removal(alloc, line)?;
    match removed {
        Some(document) => Ok(Step::Remove(document)),
        None => Err(ScriptError::Line(number)),
    }
}

/// The step of a line that asks for the answer to a query.
fn read_query<'t>(
    alloc: Global,
    query: &'t str,
    number: usize,
    stop: &StopList,
) -> Result<Step<'t>, ScriptError>
    ensures step { IfOk result (λ step. AsksQuery stop.now query.entry.now (step_of step)) }
    ensures fault { IfErr result
        (λ error. (error ≡ Memory) ⊎ IsNoQuery stop.now query.entry.now number error) }
{
    match Query::parse(alloc, query, stop) {
        Ok(tree) => Ok(Step::Ask(query, tree)),
        Err(QueryError::Memory) => Err(ScriptError::Memory),
        Err(error) => Err(ScriptError::Query(number, error)),
    }
}

/// What is behind a word at the front of a line, if it is not empty.
fn rest_behind<'t>(line: &'t str, word: &str) -> Option<&'t str>
    ensures { MatchOption result
        ((rest : Text) → rest ≢ [] → line.entry.now ≢ word.now ++ rest)
        (λ rest. (rest.now ≢ []) × (line.entry.now ≡ word.now ++ rest.now)) }
{
    let rest = line.strip_prefix(word)?;
    if rest.is_empty() { None } else { Some(rest) }
}

/// The number of the document that a line removes.
fn read_removal(alloc: Global, line: &str) -> Result<Option<u32>, AllocError>
    ensures { IfOk result
        (λ found. MatchOption found (RemovesNone line.now) (Removes line.now)) }
{
    let Some(digits) = rest_behind(line, "remove ") else {
        return Ok(None);
    };
    let number = read_number(alloc, digits)?;
    Ok(number)
}

/// The number of a document, which is written as it is printed.
fn read_number(alloc: Global, digits: &str) -> Result<Option<u32>, AllocError>
    ensures { IfOk result
        (λ found. MatchOption found (IsNoNumber digits.now) (IsNumber digits.now)) }
{
    let Ok(number) = digits.parse::<u32>() else {
        return Ok(None);
    };
    if number >= NUMBERS {
        return Ok(None);
    }
    let shown = format!(in alloc; "{number}")?;
    if shown.as_str() != digits {
        return Ok(None);
    }
    Ok(Some(number))
}

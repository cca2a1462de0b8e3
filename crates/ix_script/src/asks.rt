//! The asks of a group: their queries, and their answers as they are printed.
ghost use Rattle.std.specs.Prelude.{◌≡◌, ◌++◌, IfOk, OnOk, length, map, string_bytes};
ghost use Rattle.ix_script.specs.Answers.{names_in};
ghost use Rattle.ix_script.specs.PrintedAnswers.{answer_lines, answered_with, asked_in, lines_of};
ghost use Rattle.ix_script.specs.Runs.{is_some_name, some_found};
ghost use Rattle.ix_script.specs.Steps.{step_of};

use crate::step::Step;
use ix_query::Query;
use std::alloc::{AllocError, Global};

/// The queries that steps ask, in order.
pub fn queries_of<'s, 't>(
    alloc: Global,
    steps: &'s [Step<'t>],
) -> Result<Vec<&'s Query>, AllocError>
    ensures { IfOk result (λ queries. map (λ query. query.now) queries.items
        ≡ asked_in (map step_of steps.entry.now)) }
{
    let mut queries = Vec::new(alloc);
    for step in steps {
        if let Step::Ask(_, query) = step {
            queries.push(query)?;
        }
    }
    Ok(queries)
}

/// How many queries steps ask.
pub fn count_asks(steps: &[Step<'_>]) -> usize
    ensures { result ≡ length (asked_in (map step_of steps.now)) }
{
    let mut count = 0;
    for step in steps {
        if let Step::Ask(_, _) = step {
            count += 1;
        }
    }
    count
}

/// The lines of the answers to the asks among steps, and whether a name is among them. The answers
/// are lists of names, one for each ask, in order.
pub fn lines_of(
    alloc: Global,
    steps: &[Step<'_>],
    answers: &[Vec<String>],
) -> Result<(String, bool), AllocError>
    requires { length answers.now ≡ length (asked_in (map step_of steps.now)) }
    ensures lines { IfOk result (λ r. string_bytes r.0
        ≡ lines_of (answered_with (map step_of steps.now) (map names_in answers.now))) }
    ensures found { IfOk result (λ r. r.1
        ≡ some_found (answered_with (map step_of steps.now) (map names_in answers.now))) }
{
    let mut lines = String::new(alloc);
    let mut found = false;
    let mut place = 0;
    for step in steps {
        if let Step::Ask(query, _) = step {
            let names = &answers[place];
            push_answer(&mut lines, query, names)?;
            found = found | has_name(names);
            place += 1;
        }
    }
    Ok((lines, found))
}

/// Whether there is a name.
fn has_name(names: &[String]) -> bool
    ensures { result ≡ is_some_name (map string_bytes names.now) }
{
    !names.is_empty()
}

/// Adds the lines of an answer: how many names there are, a TAB, the query, LF, and each name with
/// LF.
fn push_answer(lines: &mut String, query: &str, names: &[String]) -> Result<(), AllocError>
    ensures { OnOk result (string_bytes lines.new ≡ string_bytes lines.old
        ++ answer_lines (record { query = query.now; names = map string_bytes names.now })) }
{
    let count = names.len();
    write!(lines, "{count}\t{query}\n")?;
    for name in names {
        lines.push_str(name)?;
        lines.push('\n')?;
    }
    Ok(())
}

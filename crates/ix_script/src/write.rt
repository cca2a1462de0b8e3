//! Writing the answers of a group.
ghost use Rattle.std.specs.Prelude.{◌≡◌, IfErr, IfOk, length, map};
ghost use Rattle.std.specs.Io.KnownBytes.{Appends};
ghost use Rattle.ix_script.specs.Answers.{names_in};
ghost use Rattle.ix_script.specs.PrintedAnswers.{answered_with, asked_in, lines_of};
ghost use Rattle.ix_script.specs.Runs.{some_found};
ghost use Rattle.ix_script.specs.Steps.{step_of};
ghost use Rattle.ix_script.specs.Stops.{IsUnprinted};

use crate::asks::lines_of;
use crate::run_error::RunError;
use crate::step::Step;
use ix_output::{flush, put_all};
use std::alloc::Global;
use std::io::Write;

/// Writes the answers to the asks of a group, flushes, and returns whether a name is among them.
/// The answers are lists of names, one for each ask, in order.
///
/// After `Write` a prefix of them may be out, and after `Memory` nothing is.
pub fn write_answers<'e, W: Write>(
    alloc: Global,
    group: &[Step<'_>],
    answers: &[Vec<String>],
    out: &mut W,
) -> Result<bool, RunError<'e>>
    requires { length answers.now ≡ length (asked_in (map step_of group.now)) }
    ensures printed { IfOk result (λ found. Appends (W.contents out.old) (W.contents out.new)
        (lines_of (answered_with (map step_of group.now) (map names_in answers.now)))) }
    ensures found { IfOk result (λ found. found
        ≡ some_found (answered_with (map step_of group.now) (map names_in answers.now))) }
    ensures refused { IfErr result (IsUnprinted
        (lines_of (answered_with (map step_of group.now) (map names_in answers.now)))
        (W.contents out.old) (W.contents out.new)) }
{
    let (lines, found) = lines_of(alloc, group, answers)?;
    put_all(out, lines.as_bytes())?;
    flush(out)?;
    Ok(found)
}

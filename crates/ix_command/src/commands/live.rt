//! `ix live`: carries out a script on a live index.

ghost use Rattle.std.specs.Prelude.{◌≡◌, List, ℕ, IfOk, IfErr, map};
ghost use Rattle.ix_files.specs.Reading.{held_in};
ghost use Rattle.ix_script.specs.Steps.{IsScript, step_of};
ghost use Rattle.ix_command.specs.LiveScripts.{IsCarriedOutTold, IsLiveRefused, IsLived, IsNoScript};
ghost use Rattle.ix_command.specs.LiveScripts.{IsStoppedTold};

use crate::commands::ask::{read_stop_list, read_text};
use crate::refusal::Refusal;
use ix_ask::EngineRefusal;
use ix_build::Plan;
use ix_files::Files;
use ix_line::Searchers;
use ix_script::{ScriptError, Step, read_script, run_steps};
use ix_text::StopList;
use std::alloc::Global;
use std::io::Write;
use std::str;
use std::sync::Wait;
use std::thread::Threads;

/// Something was found.
const FOUND: usize = 1;

/// Nothing was found.
const NOTHING: usize = 0;

/// Carries out the steps of a script file on a new live index, writes the answers to its queries,
/// and answers 1 where a name was found, and else 0. The words of the stop file, where one is named,
/// are left out.
///
/// The script is read whole before a step is carried out. One of more than 2^28 bytes cannot be
/// read.
pub fn run<'a, R: Threads + Wait + Sync, F: Files, W: Write>(
    rt: &R,
    alloc: Global,
    files: &F,
    stop: Option<&'a str>,
    plan: &Plan,
    searchers: &Searchers,
    script: &'a str,
    out: &mut W,
) -> Result<usize, Refusal<'a>>
    ensures lived { IfOk result (IsLived (held_in (F.view files.now)) stop.entry script.entry.now
        (W.contents out.old) (W.contents out.new)) }
    ensures refused { IfErr result (IsLiveRefused (held_in (F.view files.now))
        stop.entry plan.now.workers
        script.entry.now (W.contents out.old) (W.contents out.new)) }
{
    let stop = read_stop_list(alloc, files, stop)?;
    let text = read_text(alloc, files, script)?;
    let steps = steps_of(alloc, script, &text, &stop)?;
    carry_out(rt, alloc, files, plan, searchers, stop, &steps, out)
}

/// The steps of what a script file holds.
fn steps_of<'t, 'a>(
    alloc: Global,
    path: &'a str,
    bytes: &'t [u8],
    stop: &StopList,
) -> Result<Vec<Step<'t>>, Refusal<'a>>
    ensures read { IfOk result
        (λ steps. IsScript stop.now bytes.entry.now (map step_of steps.items)) }
    ensures refused { IfErr result (IsNoScript stop.now path.entry.now bytes.entry.now) }
{
    let Ok(text) = str::from_utf8(bytes) else {
        return Err(Refusal::NotUtf8(path));
    };
    match read_script(alloc, text, stop) {
        Ok(steps) => Ok(steps),
        Err(ScriptError::Memory) => Err(Refusal::Engine(EngineRefusal::Memory)),
        Err(error) => Err(Refusal::Script(error)),
    }
}

/// Carries out steps on a new live index.
fn carry_out<'a, R: Threads + Wait + Sync, F: Files, W: Write>(
    rt: &R,
    alloc: Global,
    files: &F,
    plan: &Plan,
    searchers: &Searchers,
    stop: StopList,
    steps: &[Step<'_>],
    out: &mut W,
) -> Result<usize, Refusal<'a>>
    ensures done { IfOk result (IsCarriedOutTold (held_in (F.view files.now)) stop
        (map step_of steps.now) (W.contents out.old) (W.contents out.new)) }
    ensures refused { IfErr result (IsStoppedTold (held_in (F.view files.now)) plan.now.workers stop
        (map step_of steps.now) (W.contents out.old) (W.contents out.new)) }
{
    match run_steps(rt, alloc, files, plan, stop, searchers.count(), steps, out) {
        Ok(found) => Ok(if found { FOUND } else { NOTHING }),
        Err(error) => Err(Refusal::stopped(alloc, error)),
    }
}

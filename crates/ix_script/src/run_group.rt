//! A group of a script: its asks are answered while its additions and removals are carried out.
ghost use Rattle.std.specs.Prelude.{◌≡◌, ◌<◌, Ok, IfErr, IfOk, OnOk, length, map};
ghost use Rattle.ix_files.specs.Reading.{held_in};
ghost use Rattle.ix_live.specs.Histories.{operations_in};
ghost use Rattle.ix_script.specs.Answers.{AreAnswers, names_in};
ghost use Rattle.ix_script.specs.Groups.{IsGroup};
ghost use Rattle.ix_script.specs.PrintedAnswers.{answered_with, asked_in};
ghost use Rattle.ix_script.specs.Runs.{Changes, Runs};
ghost use Rattle.ix_script.specs.Steps.{step_of};
ghost use Rattle.ix_script.specs.Stops.{IsFirstError, IsTeamOf, KeepsPublished, RefusesChanges};
ghost use Rattle.ix_script.specs.Stops.{RefusesGroup, progress_of};

use crate::asks::{count_asks, queries_of};
use crate::change::{Stopped, change_all};
use crate::run_error::RunError;
use crate::step::Step;
use crate::team::Team;
use ix_build::Plan;
use ix_files::Files;
use ix_live::Indexer;
use std::alloc::{AllocError, Global};
use std::sync::Wait;
use std::thread::{Threads, join_mut};

/// Carries out a group: its additions and removals, and meanwhile its asks, which are answered
/// after just what is published. The answers are lists of names, one for each ask, in order.
///
/// If steps fail, the error is that of the first of them.
pub fn run_group<'t, R: Threads + Wait + Sync, F: Files>(
    rt: &R,
    alloc: Global,
    files: &F,
    plan: &Plan,
    indexer: &mut Indexer,
    team: &Team,
    group: &[Step<'t>],
) -> Result<Vec<Vec<String>>, RunError<'t>>
    requires group { IsGroup (map step_of group.now) }
    requires team { IsTeamOf indexer.old team.now }
    ensures same { KeepsPublished indexer.old indexer.new }
    ensures ran { IfOk result (λ answers. Runs (held_in (F.view files.now)) indexer.old.stop
        (map step_of group.now) (progress_of indexer.old) (progress_of indexer.new)
        (answered_with (map step_of group.now) (map names_in answers.items))) }
    ensures count { IfOk result (λ answers. length (map names_in answers.items)
        ≡ length (asked_in (map step_of group.now))) }
    ensures refused { IfErr result (RefusesGroup (held_in (F.view files.now)) plan.now.workers
        indexer.old.stop (map step_of group.now) (progress_of indexer.old)) }
{
    answer_and_change(rt, alloc, files, plan, indexer, team, group)
}

/// Carries out the additions and removals of a group, and meanwhile answers its asks after just
/// what is published.
fn answer_and_change<'t, R: Threads + Wait + Sync, F: Files>(
    rt: &R,
    alloc: Global,
    files: &F,
    plan: &Plan,
    indexer: &mut Indexer,
    team: &Team,
    group: &[Step<'t>],
) -> Result<Vec<Vec<String>>, RunError<'t>>
    requires group { IsGroup (map step_of group.now) }
    requires team { IsTeamOf indexer.old team.now }
    ensures same { KeepsPublished indexer.old indexer.new }
    ensures changed { IfOk result (λ answers. Changes (held_in (F.view files.now))
        indexer.old.stop (map step_of group.now) (progress_of indexer.old)
        (progress_of indexer.new)) }
    ensures answers { IfOk result (λ answers. AreAnswers indexer.old.stop
        (progress_of indexer.old).published
        (asked_in (map step_of group.now)) (map names_in answers.items)) }
    ensures refused { IfErr result (RefusesGroup (held_in (F.view files.now)) plan.now.workers
        indexer.old.stop (map step_of group.now) (progress_of indexer.old)) }
{
    let queries = match queries_of(alloc, group) {
        Ok(queries) => queries,
        Err(AllocError) => return Err(RunError::Memory),
    };
    let mut asks = || -> Result<Vec<Vec<String>>, usize>
        ensures { IfOk result (λ answers. AreAnswers team.entry.now.stop
            (operations_in team.entry.now.history)
            (map (λ query. query.now) queries.entry.items) (map names_in answers.items)) }
    { team.answer(rt, alloc, &queries) };
    let mut changes = || -> Result<(), Stopped<'_>>
        requires { IsGroup (map step_of group.now) }
        ensures same { KeepsPublished indexer.entry.now indexer.exit.now }
        ensures changed { OnOk result (Changes (held_in (F.view files.entry.now))
            indexer.entry.now.stop (map step_of group.entry.now) (progress_of indexer.entry.now)
            (progress_of indexer.exit.now)) }
        ensures place { IfErr result (λ stopped. stopped.place < length group.entry.now) }
        ensures refused { IfErr result (λ stopped. RefusesChanges (held_in (F.view files.entry.now))
            plan.entry.now.workers indexer.entry.now.stop (map step_of group.entry.now)
            (progress_of indexer.entry.now) stopped.error) }
    { change_all(rt, alloc, files, plan, indexer, group) };
    let (asked, changed) = join_mut(rt, &mut asks, &mut changes);
    both(group, asked, changed)
}

/// What a group comes to, of what its asks came to, by the place of the first that failed among
/// them, and its additions and removals.
fn both<'t>(
    group: &[Step<'t>],
    asked: Result<Vec<Vec<String>>, usize>,
    changed: Result<(), Stopped<'t>>,
) -> Result<Vec<Vec<String>>, RunError<'t>>
    requires { IfErr changed (λ stopped. stopped.place < length group.now) }
    ensures asked { IfOk result (λ answers. asked ≡ Ok answers) }
    ensures changed { IfOk result (λ answers. changed.entry ≡ Ok tt) }
    ensures refused { IfErr result (IsFirstError group.now asked changed.entry) }
{
    match (asked, changed) {
        (Ok(answers), Ok(())) => Ok(answers),
        (Err(_), Ok(())) => Err(RunError::Memory),
        (Ok(_), Err(stopped)) => Err(stopped.error),
        (Err(query), Err(stopped)) => {
            // An ask failed too, and it was out of memory.
            if query < count_asks(&group[..stopped.place]) {
                Err(RunError::Memory)
            } else {
                Err(stopped.error)
            }
        }
    }
}

//! Carrying out the steps of a script, group by group.
ghost use Rattle.std.specs.Prelude.{◌≡◌, ◌<◌, ◌≤◌, ◌⊎◌, IfErr, IfOk, OnOk, length, map, take};
ghost use Rattle.ix_files.specs.Reading.{held_in};
ghost use Rattle.ix_live.specs.declared.live_error.LiveError.TheVariants as live_error;
ghost use Rattle.ix_script.specs.Groups.{IsGroup};
ghost use Rattle.ix_script.specs.Runs.{published};
ghost use Rattle.ix_script.specs.Scripts.{ArePublished, IsCarriedOut, IsStopped, nothing_yet};
ghost use Rattle.ix_script.specs.Steps.{step_of};
ghost use Rattle.ix_script.specs.Stops.{IsTeamOf, KeepsPublished, progress_of};
ghost use Rattle.ix_script.specs.Stretches.{CarriesOut, Stops};
ghost use Rattle.ix_script.specs.declared.run_error.RunError.TheVariants.{Live};

use crate::first_group::first_group;
use crate::run_error::RunError;
use crate::run_group::run_group;
use crate::step::Step;
use crate::team::Team;
use crate::write::write_answers;
use ix_build::Plan;
use ix_files::Files;
use ix_live::{Indexer, live};
use ix_text::StopList;
use std::alloc::Global;
use std::io::Write;
use std::sync::Wait;
use std::thread::Threads;

/// Carries out the steps of a script on a new live index, and returns whether a name was found. At
/// most `searchers` threads answer its asks, while this thread adds and removes. The answers to the
/// asks of a group are written to `out` once the whole group was carried out, and then it is
/// published. What is pending at the end is dropped.
///
/// The first step that fails ends the script. Nothing is written of its group, unless the output
/// itself failed: then a prefix of its answers may be out.
pub fn run_steps<'t, R: Threads + Wait + Sync, F: Files, W: Write>(
    rt: &R,
    alloc: Global,
    files: &F,
    plan: &Plan,
    stop: StopList,
    searchers: usize,
    steps: &[Step<'t>],
    out: &mut W,
) -> Result<bool, RunError<'t>>
    requires { 0 < searchers }
    ensures ran { IfOk result (IsCarriedOut (held_in (F.view files.now)) stop
        (map step_of steps.now) (W.contents out.old) (W.contents out.new)) }
    ensures refused { IfErr result (IsStopped (held_in (F.view files.now)) plan.now.workers stop
        (map step_of steps.now) (W.contents out.old) (W.contents out.new)) }
{
    // A team answers after news, and no searcher.
    let Ok((mut indexer, _searchers)) = live(rt, alloc, stop, 1) else {
        return Err(RunError::Memory);
    };
    let done = run_new(rt, alloc, files, plan, &mut indexer, searchers, steps, out);
    indexer.close(rt);
    done
}

/// Carries out the steps of a script on a live index to which nothing was done.
fn run_new<'t, R: Threads + Wait + Sync, F: Files, W: Write>(
    rt: &R,
    alloc: Global,
    files: &F,
    plan: &Plan,
    indexer: &mut Indexer,
    searchers: usize,
    steps: &[Step<'t>],
    out: &mut W,
) -> Result<bool, RunError<'t>>
    requires new { progress_of indexer.old ≡ nothing_yet }
    requires some { 0 < searchers }
    ensures ran { IfOk result (CarriesOut (held_in (F.view files.now)) indexer.old.stop
        (map step_of steps.now) nothing_yet (progress_of indexer.new)
        (W.contents out.old) (W.contents out.new)) }
    ensures refused { IfErr result (Stops (held_in (F.view files.now)) plan.now.workers
        indexer.old.stop (map step_of steps.now) nothing_yet
        (W.contents out.old) (W.contents out.new)) }
{
    // A team answers after news, so nothing is published first.
    let Ok(news) = indexer.publish(rt) else {
        return Err(RunError::Memory);
    };
    run_on(
        rt,
        alloc,
        files,
        plan,
        indexer,
        Team::new(searchers, news),
        steps,
        out,
    )
}

/// Carries out the steps of a script, group by group.
fn run_on<'t, R: Threads + Wait + Sync, F: Files, W: Write>(
    rt: &R,
    alloc: Global,
    files: &F,
    plan: &Plan,
    indexer: &mut Indexer,
    team: Team,
    steps: &[Step<'t>],
    out: &mut W,
) -> Result<bool, RunError<'t>>
    requires team { IsTeamOf indexer.old team }
    ensures ran { IfOk result (CarriesOut (held_in (F.view files.now)) indexer.old.stop
        (map step_of steps.now) (progress_of indexer.old) (progress_of indexer.new)
        (W.contents out.old) (W.contents out.new)) }
    ensures refused { IfErr result (Stops (held_in (F.view files.now)) plan.now.workers
        indexer.old.stop (map step_of steps.now) (progress_of indexer.old)
        (W.contents out.old) (W.contents out.new)) }
{
    let mut team = team;
    let mut found = false;
    let mut place = 0;
    while place < steps.len() {
        let round = run_round(
            rt,
            alloc,
            files,
            plan,
            indexer,
            &mut team,
            &steps[place..],
            out,
        )?;
        found = found | round.found;
        place += round.count;
    }
    Ok(found)
}

/// What came of the first group of steps.
#[derive(Drop)]
struct Round {
    /// Whether a name was found.
    found: bool,
    /// How many steps were carried out, the publish behind the group included.
    count: usize,
}

/// Carries out the steps up to the first publish, and publishes; or all steps, if none publishes.
fn run_round<'t, R: Threads + Wait + Sync, F: Files, W: Write>(
    rt: &R,
    alloc: Global,
    files: &F,
    plan: &Plan,
    indexer: &mut Indexer,
    team: &mut Team,
    steps: &[Step<'t>],
    out: &mut W,
) -> Result<Round, RunError<'t>>
    requires some { 0 < length steps.now }
    requires team { IsTeamOf indexer.old team.old }
    ensures same { indexer.new.stop ≡ indexer.old.stop }
    ensures team { OnOk result (IsTeamOf indexer.new team.new) }
    ensures count { IfOk result (λ round. (0 < round.count)
        × (round.count ≤ length steps.now)) }
    ensures published { IfOk result (λ round.
        ArePublished (map step_of (take round.count steps.now))
        ⊎ (round.count ≡ length steps.now)) }
    ensures ran { IfOk result (λ round. CarriesOut (held_in (F.view files.now)) indexer.old.stop
        (map step_of (take round.count steps.now)) (progress_of indexer.old)
        (progress_of indexer.new) (W.contents out.old) (W.contents out.new) round.found) }
    ensures refused { IfErr result (Stops (held_in (F.view files.now)) plan.now.workers
        indexer.old.stop (map step_of steps.now) (progress_of indexer.old)
        (W.contents out.old) (W.contents out.new)) }
{
    let (group, rest) = first_group(steps);
    let found = answer_group(rt, alloc, files, plan, indexer, team, group, out)?;
    let Some(rest) = rest else {
        return Ok(Round {
            found,
            count: steps.len(),
        });
    };
    publish(rt, indexer, team)?;
    Ok(Round {
        found,
        count: steps.len() - rest.len(),
    })
}

/// Carries out a group, writes the answers to its asks, and returns whether a name is among them.
fn answer_group<'t, R: Threads + Wait + Sync, F: Files, W: Write>(
    rt: &R,
    alloc: Global,
    files: &F,
    plan: &Plan,
    indexer: &mut Indexer,
    team: &Team,
    group: &[Step<'t>],
    out: &mut W,
) -> Result<bool, RunError<'t>>
    requires group { IsGroup (map step_of group.now) }
    requires team { IsTeamOf indexer.old team.now }
    ensures same { KeepsPublished indexer.old indexer.new }
    ensures ran { IfOk result (CarriesOut (held_in (F.view files.now)) indexer.old.stop
        (map step_of group.now) (progress_of indexer.old) (progress_of indexer.new)
        (W.contents out.old) (W.contents out.new)) }
    ensures refused { IfErr result (Stops (held_in (F.view files.now)) plan.now.workers
        indexer.old.stop (map step_of group.now) (progress_of indexer.old)
        (W.contents out.old) (W.contents out.new)) }
{
    let answers = run_group(rt, alloc, files, plan, indexer, team, group)?;
    write_answers(alloc, group, &answers, out)
}

/// Publishes what is pending, and the team learns of it.
fn publish<'e, R: Wait>(rt: &R, indexer: &mut Indexer, team: &mut Team) -> Result<(), RunError<'e>>
    requires { IsTeamOf indexer.old team.old }
    ensures same { (indexer.new.stop ≡ indexer.old.stop)
        × (indexer.new.book ≡ indexer.old.book) }
    ensures team { OnOk result (IsTeamOf indexer.new team.new) }
    ensures published { OnOk result
        (progress_of indexer.new ≡ published (progress_of indexer.old)) }
    ensures refused { IfErr result (λ error. (error ≡ Live live_error.Memory)
        × (progress_of indexer.new ≡ progress_of indexer.old)) }
{
    team.learn(indexer.publish(rt)?);
    Ok(())
}

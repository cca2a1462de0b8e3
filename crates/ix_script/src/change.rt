//! The additions and removals of a script.
ghost use Rattle.std.specs.Prelude.{◌≡◌, ◌<◌, [], ◌∷◌, false, IfErr, IfOk, OnOk, length, map};
ghost use Rattle.ix_files.specs.Reading.{held_in};
ghost use Rattle.ix_text.specs.CollectionText.{IsCollectionText};
ghost use Rattle.ix_script.specs.Groups.{IsGroup, is_publish};
ghost use Rattle.ix_script.specs.Runs.{Changes};
ghost use Rattle.ix_script.specs.Steps.{Add, step_of};
ghost use Rattle.ix_script.specs.Stops.{IsNoCollection, IsReadError, IsUnread, KeepsPublished, RefusesChanges};
ghost use Rattle.ix_script.specs.Stops.{RefusesStep, progress_of};

use crate::run_error::RunError;
use crate::step::Step;
use ix_build::Plan;
use ix_files::{FileError, Files, read_front};
use ix_live::Indexer;
use ix_text::{Collection, CollectionError, MAX_TEXT_BYTES};
use std::alloc::Global;
use std::sync::Wait;
use std::thread::Threads;

/// One byte more than a collection text may have, so that no more of a longer one is read.
const ROOM: usize = MAX_TEXT_BYTES + 1;

/// Why the additions and removals among steps were not all carried out: the step at this place
/// failed.
#[derive(Drop)]
pub struct Stopped<'t> {
    /// The place of the step, from 0.
    pub place: usize,
    /// Why it failed.
    pub error: RunError<'t>,
}

/// Carries out the additions and removals of a group, up to the first that fails. What they change
/// is pending until it is published.
pub fn change_all<'t, R: Threads + Wait + Sync, F: Files>(
    rt: &R,
    alloc: Global,
    files: &F,
    plan: &Plan,
    indexer: &mut Indexer,
    group: &[Step<'t>],
) -> Result<(), Stopped<'t>>
    requires { IsGroup (map step_of group.now) }
    ensures same { KeepsPublished indexer.old indexer.new }
    ensures changed { OnOk result (Changes (held_in (F.view files.now)) indexer.old.stop
        (map step_of group.now) (progress_of indexer.old) (progress_of indexer.new)) }
    ensures place { IfErr result (λ stopped. stopped.place < length group.now) }
    ensures refused { IfErr result (λ stopped. RefusesChanges (held_in (F.view files.now))
        plan.now.workers indexer.old.stop (map step_of group.now) (progress_of indexer.old)
        stopped.error) }
{
    let mut place = 0;
    while place < group.len() {
        match change(rt, alloc, files, plan, indexer, &group[place]) {
            Ok(()) => place += 1,
            Err(error) => return Err(Stopped { place, error }),
        }
    }
    Ok(())
}

/// Carries out an addition or a removal; an ask or a publish is left out.
fn change<'t, R: Threads + Wait + Sync, F: Files>(
    rt: &R,
    alloc: Global,
    files: &F,
    plan: &Plan,
    indexer: &mut Indexer,
    step: &Step<'t>,
) -> Result<(), RunError<'t>>
    ensures same { KeepsPublished indexer.old indexer.new }
    ensures changed { is_publish (step_of step.now) ≡ false
        → OnOk result (Changes (held_in (F.view files.now)) indexer.old.stop
        (step_of step.now ∷ []) (progress_of indexer.old) (progress_of indexer.new)) }
    ensures refused { IfErr result (RefusesStep (held_in (F.view files.now)) plan.now.workers
        indexer.old.stop (step_of step.now) (progress_of indexer.old)) }
{
    match step {
        Step::Add(path) => add(rt, alloc, files, plan, indexer, path),
        Step::Remove(number) => Ok(indexer.remove(*number)?),
        Step::Ask(_, _) | Step::Publish => Ok(()),
    }
}

/// Adds the documents of a collection file.
fn add<'t, R: Threads + Wait + Sync, F: Files>(
    rt: &R,
    alloc: Global,
    files: &F,
    plan: &Plan,
    indexer: &mut Indexer,
    path: &'t str,
) -> Result<(), RunError<'t>>
    ensures same { KeepsPublished indexer.old indexer.new }
    ensures changed { OnOk result (Changes (held_in (F.view files.now)) indexer.old.stop
        (Add path.entry.now ∷ []) (progress_of indexer.old) (progress_of indexer.new)) }
    ensures refused { IfErr result (RefusesStep (held_in (F.view files.now)) plan.now.workers
        indexer.old.stop (Add path.entry.now) (progress_of indexer.old)) }
{
    let text = read(alloc, files, path)?;
    let documents = documents_of(alloc, &text)?;
    Ok(indexer.add(rt, &documents, plan)?)
}

/// The bytes of a collection file.
fn read<'t, F: Files>(alloc: Global, files: &F, path: &'t str) -> Result<Vec<u8>, RunError<'t>>
    ensures held { IfOk result (λ bytes. held_in (F.view files.now) path.entry.now bytes.items) }
    ensures refused { IfErr result
        (IsUnread (held_in (F.view files.now) path.entry.now) path.entry.now) }
{
    match read_front(alloc, files, path, ROOM) {
        Ok(bytes) => {
            if bytes.len() == ROOM {
                return Err(RunError::Collection(CollectionError::TooLarge));
            }
            Ok(bytes)
        }
        Err(error) => Err(read_error(error, path)),
    }
}

/// The error of reading the file of a path.
fn read_error<'t>(error: FileError, path: &'t str) -> RunError<'t>
    ensures { IsReadError error path.entry.now result }
{
    match error {
        FileError::Memory => RunError::Memory,
        FileError::Failed | FileError::Exists | FileError::Locked => RunError::Unread(path),
    }
}

/// The documents of a collection text.
fn documents_of<'t, 'e>(alloc: Global, text: &'t [u8]) -> Result<Collection<'t>, RunError<'e>>
    ensures read { IfOk result (IsCollectionText text.now) }
    ensures refused { IfErr result (IsNoCollection text.now) }
{
    Ok(Collection::read(alloc, text)?)
}

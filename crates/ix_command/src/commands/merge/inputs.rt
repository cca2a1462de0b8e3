//! The files that are merged, opened, and the numbers at which the documents of indexes begin.

ghost use Rattle.std.specs.Prelude.{◌≡◌, ◌≤◌, ◌^◌, ◌∷◌, [], ◌++◌, IfOk, IfErr, OnOk, length};
ghost use Rattle.ix_files.specs.Reading.{held_in};
ghost use Rattle.ix_line.specs.Lines.{texts_of};
ghost use Rattle.ix_command.specs.MergedRuns.{RefusesHead, RefusesInput, RefusesInputs};
ghost use Rattle.ix_command.specs.MergedRuns.{end_of as end_of_heading};
ghost use Rattle.ix_command.specs.declared.refusal.Refusal.TheVariants as refusal;
ghost use Rattle.ix_ask.specs.declared.refusal.EngineRefusal.TheVariants as engine;
ghost use Rattle.ix_merge.specs.declared.merge_error.MergeError.TheVariants as merge_error;
ghost use Rattle.ix_run.specs.Heads.{heading_of};
ghost use Rattle.ix_run.specs.RunReaders.{heading_read};
ghost use Rattle.ix_command.specs.declared.commands.merge.inputs.Input.TheVariants as opened;
ghost use Rattle.ix_command.specs.declared.commands.merge.inputs.Part.TheVariants as part;
ghost use Rattle.ix_command.specs.MergeInputs.{Adds, AreOpened, IsInput, IsNear, RefusesIndex};
ghost use Rattle.ix_command.specs.MergeInputs.{RefusesMore};
ghost use Rattle.ix_run.specs.RunTextError.TheVariants.{Magic};

use crate::index_file::open_index;
use crate::refusal::Refusal;
use ix_ask::EngineRefusal;
use ix_file::{OpenError, Volume};
use ix_files::Files;
use ix_merge::MergeError;
use ix_run::{RunHead, RunReader, RunTextError};
use ix_text::MAX_DOCUMENTS;
use std::alloc::{AllocError, Global};
use std::io::Read;
use std::thread::Threads;

/// A file that was opened.
#[derive(Drop)]
pub enum Input<R> {
    /// The front of a run text was read.
    Run(RunReader<R>),
    /// An index text was read.
    Index(Volume),
}

/// What stands in the place of a file among the others.
#[derive(Drop)]
pub enum Part<R> {
    /// A run text, as it is read.
    Run(RunReader<R>),
    /// An index.
    Index {
        /// The number of its first document.
        first: u32,
        /// The place of its volume among the volumes.
        number: usize,
    },
}

/// The files that were opened, in the order in which they are named.
#[derive(Drop)]
pub struct Inputs<R> {
    /// One for each file.
    pub parts: Vec<Part<R>>,
    /// The volumes of those that are indexes.
    pub volumes: Vec<Volume>,
    /// One above the greatest number of their documents, or 0 where they have none.
    pub end: u32,
}

impl<R: Read + Drop> Inputs<R> {
    /// Puts one more file behind those that were opened; an index gets the numbers behind all of
    /// theirs.
    ///
    /// Fails as `merge` does for the source at this place with `TooLarge`, where an index would have
    /// a document of a number of 2^28 or above; or memory runs out.
    fn add<'a>(&mut self, input: Input<R>, place: usize) -> Result<(), Refusal<'a>>
        requires end { self.old.end ≤ 2 ^ 28 }
        requires near { IsNear input }
        ensures added { OnOk result (Adds self.old self.new input) }
        ensures refused { IfErr result (RefusesMore self.old.end place input) }
    {
        match input {
            Input::Run(run) => self.add_run(run),
            Input::Index(volume) => self.add_index(volume, place),
        }
    }

    /// Puts a run behind those that were opened.
    fn add_run<'a>(&mut self, run: RunReader<R>) -> Result<(), Refusal<'a>>
        requires near { end_of_heading (heading_read run) ≤ 2 ^ 28 }
        ensures added { OnOk result (Adds self.old self.new (opened.Run run)) }
        ensures refused { IfErr result (λ told. told ≡ refusal.Engine engine.Memory) }
    {
        let end = end_of(run.head());
        if self.parts.push(Part::Run(run)).is_err() {
            return Err(Refusal::Engine(EngineRefusal::Memory));
        }
        self.end = self.end.max(end);
        Ok(())
    }

    /// Puts an index behind those that were opened, its documents behind all of theirs.
    fn add_index<'a>(&mut self, volume: Volume, place: usize) -> Result<(), Refusal<'a>>
        requires end { self.old.end ≤ 2 ^ 28 }
        ensures added { OnOk result (Adds self.old self.new (opened.Index volume)) }
        ensures refused { IfErr result (RefusesIndex self.old.end place volume) }
    {
        let documents = volume.index().doc_count();
        if documents > MAX_DOCUMENTS - self.end {
            return Err(refusal_at(place, RunTextError::TooLarge));
        }
        let first = self.end;
        if self.push_index(volume, first).is_err() {
            return Err(Refusal::Engine(EngineRefusal::Memory));
        }
        self.end = first + documents;
        Ok(())
    }

    /// Puts an index with this first number behind those that were opened.
    fn push_index(&mut self, volume: Volume, first: u32) -> Result<(), AllocError>
        ensures part { OnOk result (self.new.parts.items
            ≡ self.old.parts.items ++ part.Index first (length self.old.volumes.items) ∷ []) }
        ensures volume { OnOk result
            (self.new.volumes.items ≡ self.old.volumes.items ++ volume ∷ []) }
    {
        let number = self.volumes.len();
        self.volumes.push(volume)?;
        self.parts.push(Part::Index { first, number })?;
        Ok(())
    }
}

/// One above the number of the last document of a run, or its first number where it has none.
fn end_of(head: &RunHead) -> u32
    requires { end_of_heading (heading_of head.now) ≤ 2 ^ 28 }
    ensures { result ≡ end_of_heading (heading_of head.now) }
{
    head.first + head.docs.len() as u32
}

/// The refusal of the file at this place of the list.
fn refusal_at<'a>(place: usize, error: RunTextError) -> Refusal<'a>
    ensures { result ≡ refusal.Engine (engine.Merge (merge_error.Source place error)) }
{
    Refusal::Engine(EngineRefusal::Merge(MergeError::Source(place, error)))
}

/// Opens the files of these paths.
pub fn open_all<'a, R: Threads + Sync, F: Files>(
    rt: &R,
    alloc: Global,
    files: &F,
    paths: &[&'a str],
) -> Result<Inputs<F::Reader>, Refusal<'a>>
    ensures opened { IfOk result (λ inputs. AreOpened (held_in (F.view files.now))
        F.Reader.remaining
        (texts_of paths.now) inputs (length paths.now)) }
    ensures refused { IfErr result (RefusesInputs (held_in (F.view files.now))
        (texts_of paths.now)) }
{
    let mut inputs = Inputs {
        parts: Vec::new(alloc),
        volumes: Vec::new(alloc),
        end: 0,
    };
    for (place, path) in paths.iter().enumerate() {
        let input = open(rt, alloc, files, path, place)?;
        inputs.add(input, place)?;
    }
    Ok(inputs)
}

/// Opens the file of this path, which stands at this place in the list: a run file, or an index
/// file where it does not begin as a run does.
fn open<'a, R: Threads + Sync, F: Files>(
    rt: &R,
    alloc: Global,
    files: &F,
    path: &'a str,
    place: usize,
) -> Result<Input<F::Reader>, Refusal<'a>>
    ensures opened { IfOk result
        (IsInput (held_in (F.view files.now)) F.Reader.remaining path.entry.now) }
    ensures refused { IfErr result (RefusesInput (held_in (F.view files.now))
        path.entry.now place) }
{
    let reader = match files.open(path) {
        Ok(reader) => reader,
        Err(error) => return Err(Refusal::unread(path, error)),
    };
    match RunReader::open(alloc, reader) {
        Ok(run) => Ok(Input::Run(run)),
        Err(RunTextError::Magic) => open_volume(rt, alloc, files, path, place),
        Err(error) => Err(refusal_at(place, error)),
    }
}

/// Opens the file of this path, which does not begin as a run does, as an index file. Where it does
/// not begin as one either, or is not read a second time, it is told as a file that is no run.
fn open_volume<'a, R: Threads + Sync, F: Files>(
    rt: &R,
    alloc: Global,
    files: &F,
    path: &'a str,
    place: usize,
) -> Result<Input<F::Reader>, Refusal<'a>>
    requires { RefusesHead (held_in (F.view files.now) path.now) Magic }
    ensures opened { IfOk result
        (IsInput (held_in (F.view files.now)) F.Reader.remaining path.entry.now) }
    ensures refused { IfErr result (RefusesInput (held_in (F.view files.now))
        path.entry.now place) }
{
    match open_index(rt, alloc, files, path) {
        Ok(volume) => Ok(Input::Index(volume)),
        Err(refusal) => {
            if is_no_index(&refusal) {
                Err(refusal_at(place, RunTextError::Magic))
            } else {
                Err(refusal)
            }
        }
    }
}

/// Whether a file does not begin as an index text does, or could not be read.
fn is_no_index(refusal: &Refusal<'_>) -> bool {
    matches!(
        refusal,
        Refusal::Read(_)
            | Refusal::Engine(EngineRefusal::Index(OpenError::Short | OpenError::Magic))
    )
}

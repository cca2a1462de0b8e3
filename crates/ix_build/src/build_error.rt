//! Why a collection is not built.
ghost use Rattle.std.specs.Prelude.{◌≡◌};

use crate::by_makers::ByError;
use ix_files::FileError;
use ix_merge::MergeError;
use ix_pool::{MakeError, WorkError};
use ix_run::RunTextError;
use ix_text::Memory;
use std::{error, fmt};

/// Why a collection is not built.
#[derive(Clone, Copy, Debug, PartialEq, Eq)]
pub enum BuildError {
    /// The thread of the worker with this number, from 0, could not be started.
    Thread(usize),
    /// The run of the block at this place, from 0, was not saved or not given back. Never with runs in memory.
    Spill(usize),
    /// A write or the flush failed.
    Write,
    /// Out of memory.
    Memory,
}

impl BuildError {
    ghost use Rattle.ix_build.specs.BuildErrors.{MayComeOfBuilding, MayComeOfMerge, MayComeOfWork, build_error_number, told_of_building, told_of_folder, told_of_merge, told_of_work};
    ghost use Rattle.ix_build.specs.ReadBack.{told_of_read_merge, told_of_reading};

    /// The error's number in the list of these errors, from 1.
    pub fn number(&self) -> u8
        ensures { result ≡ build_error_number self.now }
    {
        match self {
            BuildError::Thread(_) => 1,
            BuildError::Spill(_) => 2,
            BuildError::Write => 3,
            BuildError::Memory => 4,
        }
    }

    /// The error of work shared by makers of blocks, none of whom refuses a block.
    pub(crate) fn of_work(error: WorkError) -> BuildError
        requires { MayComeOfWork error }
        ensures { result ≡ told_of_work error }
    {
        match error {
            WorkError::Thread(worker) => BuildError::Thread(worker),
            WorkError::Make(_, MakeError::Refused) => unreachable!(),
            WorkError::Make(_, MakeError::Memory) | WorkError::Memory => BuildError::Memory,
        }
    }

    /// The error of a merge of runs in memory that may be merged.
    pub(crate) fn of_merge(error: MergeError<Memory>) -> BuildError
        requires { MayComeOfMerge error }
        ensures { result ≡ told_of_merge error }
    {
        match error {
            MergeError::Write => BuildError::Write,
            MergeError::Source(_, _) | MergeError::Memory => BuildError::Memory,
            _ => unreachable!(),
        }
    }

    /// The error of building by makers of blocks, none of whom refuses a block.
    pub(crate) fn of_building(error: ByError) -> BuildError
        requires { MayComeOfBuilding error }
        ensures { result ≡ told_of_building error }
    {
        match error {
            ByError::Thread(worker) => BuildError::Thread(worker),
            ByError::Make(_, MakeError::Refused) => unreachable!(),
            ByError::Merge(error) => BuildError::of_merge(error),
            ByError::Make(_, MakeError::Memory) | ByError::Memory => BuildError::Memory,
        }
    }

    /// The error of a folder for runs that cannot be looked at. A collection without documents has a block 0 too.
    pub(crate) fn of_folder(error: FileError) -> BuildError
        ensures { result ≡ told_of_folder error }
    {
        match error {
            FileError::Memory => BuildError::Memory,
            _ => BuildError::Spill(0),
        }
    }

    /// The error of reading the run of a place back. A run that does not read as one is reported by its place.
    pub(crate) fn of_reading(place: usize, error: RunTextError) -> BuildError
        ensures { result ≡ told_of_reading place error }
    {
        match error {
            RunTextError::Memory => BuildError::Memory,
            _ => BuildError::Spill(place),
        }
    }

    /// The error of a merge of runs that were read back and may be merged.
    pub(crate) fn of_read_merge(error: MergeError<RunTextError>) -> BuildError
        requires { MayComeOfMerge error }
        ensures { result ≡ told_of_read_merge error }
    {
        match error {
            MergeError::Source(place, error) => BuildError::of_reading(place, error),
            MergeError::Write => BuildError::Write,
            MergeError::Memory => BuildError::Memory,
            _ => unreachable!(),
        }
    }
}

impl fmt::Display for BuildError {
    ghost use Rattle.std.specs.Prelude.{Some};
    ghost use Rattle.ix_build.specs.BuildErrors.{build_error_name};

    ghost output = { λ error. Some (build_error_name error) };

    fn fmt<W: fmt::Write>(&self, f: &mut fmt::Formatter<W>) -> fmt::Result {
        match self {
            BuildError::Thread(worker) => write!(f, "Thread({worker})"),
            BuildError::Spill(place) => write!(f, "Spill({place})"),
            BuildError::Write => f.write_str("Write"),
            BuildError::Memory => f.write_str("Memory"),
        }
    }
}

impl error::Error for BuildError {}

//! Plans: how a collection is cut into blocks, how many workers make these, and where their runs are kept.

use std::marker::Model;

/// How documents, in their order, are cut into blocks. Its number is at least 1 in a plan.
#[derive(Clone, Copy, Debug, PartialEq, Eq)]
pub enum Cut {
    /// The number of documents of a block. The last block may have fewer.
    Docs(u32),
    /// A block ends with the document that brings its texts up to this many bytes; names do not count. The last block is
    /// the rest, if there is any.
    Bytes(u32),
}

impl Cut {
    ghost use Rattle.std.specs.Prelude.{◌≡◌};
    ghost use Rattle.ix_build.specs.Blocks.{cut_number};

    /// The documents or bytes with which a block is full.
    pub(crate) fn number(self) -> u32
        ensures { result ≡ cut_number self }
    {
        match self {
            Cut::Docs(count) => count,
            Cut::Bytes(count) => count,
        }
    }
}

/// Where the runs of the blocks are kept until they are merged.
#[derive(Debug, Drop)]
pub enum Runs {
    /// In memory.
    Memory,
    /// In files of the folder of this path, so that memory holds no more of a run than its head.
    Folder(String),
}

/// How a collection is built: its cut into blocks, the number of workers, and where the runs are kept.
#[derive(Debug, Drop)]
pub struct Plan {
    cut: Cut,
    workers: usize,
    runs: Runs,
}

impl Model for Plan {
    ghost use Rattle.ix_build.specs.Plans.{PlanValue, IsPlan, folder_of, plan_of};

    ghost Value = { PlanValue };

    ghost view = { λ plan. plan_of plan.cut plan.workers (folder_of plan.runs) };

    ghost invariant = { λ plan. IsPlan (plan_of plan.cut plan.workers (folder_of plan.runs)) };
}

impl Plan {
    ghost use Rattle.std.specs.Prelude.{◌≡◌, ◌<◌, ◌≤◌};
    ghost use Rattle.std.specs.Option.{SomeIff, option_map};
    ghost use Rattle.ix_build.specs.Blocks.{cut_number};
    ghost use Rattle.ix_build.specs.Plans.{IsPlan, folder_of, plan_of};

    /// The plan of these, or none if the cut's number is 0 or the workers are not 1 to 64.
    pub fn new(cut: Cut, workers: usize, runs: Runs) -> Option<Plan>
        ensures { SomeIff result (IsPlan (plan_of cut workers (folder_of runs)))
            (plan_of cut workers (folder_of runs)) }
    {
        if cut.number() == 0 || workers == 0 || workers > 64 {
            return None;
        }
        Some(Plan { cut, workers, runs })
    }

    /// The cut into blocks, whose number is at least 1.
    pub fn cut(&self) -> Cut
        ensures cut { result ≡ self.now.cut }
        ensures some { 0 < cut_number result }
    {
        self.cut
    }

    /// The number of workers, 1 to 64.
    pub fn workers(&self) -> usize
        ensures workers { result ≡ self.now.workers }
        ensures few { (0 < result) × (result ≤ 64) }
    {
        self.workers
    }

    /// The path of the folder in which runs are kept, or none if they are kept in memory.
    pub fn folder(&self) -> Option<&str>
        ensures { option_map (λ path. path.now) result ≡ self.now.folder }
    {
        match &self.runs {
            Runs::Memory => None,
            Runs::Folder(path) => Some(path.as_str()),
        }
    }
}

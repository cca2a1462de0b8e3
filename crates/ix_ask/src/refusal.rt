//! An error of the engine: that of a layer, in an area.
ghost use Rattle.std.specs.Prelude.{◌≡◌};
ghost use Rattle.ix_ask.specs.EngineRefusals.{area_number, area_of, number_of};

use ix_build::BuildError;
use ix_file::OpenError;
use ix_gram::PatternError;
use ix_merge::MergeError;
use ix_query::QueryError;
use ix_run::{RunError, RunTextError};
use ix_text::{CollectionError, StopError};
use std::fmt;

/// What an error is about.
#[derive(Clone, Copy, Debug, PartialEq, Eq)]
pub enum Area {
    /// A collection text.
    Collection,
    /// A stop text.
    Stop,
    /// A query.
    Query,
    /// A pattern.
    Pattern,
    /// An index text.
    Index,
    /// The documents of a run.
    Run,
    /// The runs of a merge.
    Merge,
    /// A build.
    Build,
    /// Memory, if no other area has it.
    Memory,
}

impl Area {
    /// The area's number, from 1 in the order of the list.
    pub fn number(self) -> u8
        ensures { result ≡ area_number self }
    {
        match self {
            Area::Collection => 1,
            Area::Stop => 2,
            Area::Query => 3,
            Area::Pattern => 4,
            Area::Index => 5,
            Area::Run => 6,
            Area::Merge => 7,
            Area::Build => 8,
            Area::Memory => 9,
        }
    }
}

/// An error of the engine. It prints as area, number and name, as in
/// `query 2: Unexpected(2)`.
#[derive(Debug, Drop)]
pub enum EngineRefusal {
    /// The collection text breaks a rule.
    Collection(CollectionError),
    /// The stop text breaks a rule.
    Stop(StopError),
    /// The query breaks a rule.
    Query(QueryError),
    /// The pattern breaks a rule.
    Pattern(PatternError),
    /// The index text breaks a rule.
    Index(OpenError),
    /// The documents are not inverted.
    Run(RunError),
    /// The runs are not merged.
    Merge(MergeError<RunTextError>),
    /// The collection is not built.
    Build(BuildError),
    /// Out of memory.
    Memory,
}

impl EngineRefusal {
    /// The area of the error.
    pub fn area(&self) -> Area
        ensures { result ≡ area_of self.now }
    {
        match self {
            EngineRefusal::Collection(_) => Area::Collection,
            EngineRefusal::Stop(_) => Area::Stop,
            EngineRefusal::Query(_) => Area::Query,
            EngineRefusal::Pattern(_) => Area::Pattern,
            EngineRefusal::Index(_) => Area::Index,
            EngineRefusal::Run(_) => Area::Run,
            EngineRefusal::Merge(_) => Area::Merge,
            EngineRefusal::Build(_) => Area::Build,
            EngineRefusal::Memory => Area::Memory,
        }
    }

    /// The number of the error in the list of its area, from 1.
    pub fn number(&self) -> u8
        ensures { result ≡ number_of self.now }
    {
        match self {
            EngineRefusal::Collection(error) => error.number(),
            EngineRefusal::Stop(error) => error.number(),
            EngineRefusal::Query(error) => error.number(),
            EngineRefusal::Pattern(error) => error.number(),
            EngineRefusal::Index(error) => error.number(),
            EngineRefusal::Run(error) => error.number(),
            EngineRefusal::Merge(error) => error.number(),
            EngineRefusal::Build(error) => error.number(),
            EngineRefusal::Memory => 1,
        }
    }
}

impl fmt::Display for EngineRefusal {
    ghost use Rattle.ix_ask.specs.EngineRefusals.{line_of};

    ghost output = { line_of };

    fn fmt<W: fmt::Write>(&self, f: &mut fmt::Formatter<W>) -> fmt::Result {
        match self {
            EngineRefusal::Collection(error) => {
                write!(f, "collection {}: {error}", error.number())
            }
            EngineRefusal::Stop(error) => write!(f, "stop {}: {error}", error.number()),
            EngineRefusal::Query(error) => write!(f, "query {}: {error}", error.number()),
            EngineRefusal::Pattern(error) => write!(f, "pattern {}: {error}", error.number()),
            EngineRefusal::Index(error) => write!(f, "index {}: {error}", error.number()),
            EngineRefusal::Run(error) => write!(f, "run {}: {error}", error.number()),
            EngineRefusal::Merge(error) => write!(f, "merge {}: {error}", error.number()),
            EngineRefusal::Build(error) => write!(f, "build {}: {error}", error.number()),
            EngineRefusal::Memory => write!(f, "memory 1: Memory"),
        }
    }
}

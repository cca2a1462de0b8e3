//! Why a question got no answer.

use ix_build::BuildError;
use ix_file::OpenError;
use ix_gram::PatternError;
use ix_query::QueryError;
use ix_text::CollectionError;
use std::alloc::AllocError;

/// Why a question to a collection or to an index got no answer. What it wraps says which rule was broken.
#[derive(Drop)]
pub enum AskError {
    /// The bytes are no collection text, or memory ran out in reading them.
    Collection(CollectionError),
    /// The text is no query, or memory ran out in reading it.
    Query(QueryError),
    /// The text is no pattern, or memory ran out in reading it.
    Pattern(PatternError),
    /// A thread was not started, or memory ran out in building the index.
    Build(BuildError),
    /// Memory ran out in opening the index.
    Open(OpenError),
    /// A write or the flush failed.
    Write,
    /// Memory ran out.
    Memory,
}

impl From<AllocError> for AskError {
    ghost use Rattle.std.specs.Prelude.{◌≡◌};
    ghost use Rattle.ix_ask.specs.declared.ask_error.AskError.TheVariants.{Memory};

    ghost from_gives = { λ _ error. error ≡ Memory };

    fn from(_error: AllocError) -> AskError {
        AskError::Memory
    }
}

/// The error of a build of an index in memory, which fails to write only if it does not grow.
impl From<BuildError> for AskError {
    ghost use Rattle.std.specs.Prelude.{◌≡◌};
    ghost use Rattle.ix_ask.specs.Asking.{error_of_build};

    ghost from_gives = { λ given error. error ≡ error_of_build given };

    fn from(error: BuildError) -> AskError {
        match error {
            BuildError::Thread(worker) => AskError::Build(BuildError::Thread(worker)),
            BuildError::Spill(place) => AskError::Build(BuildError::Spill(place)),
            BuildError::Write => AskError::Memory,
            BuildError::Memory => AskError::Build(BuildError::Memory),
        }
    }
}

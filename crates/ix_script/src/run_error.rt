//! Why a script was not carried out to its end.

use ix_live::LiveError;
use ix_output::WriteError;
use ix_text::CollectionError;
use std::alloc::AllocError;

/// Why a script was not carried out to its end.
#[derive(Clone, Copy, Debug, PartialEq, Eq)]
pub enum RunError<'t> {
    /// The file of this path, which the script names, cannot be read.
    Unread(&'t str),
    /// The file that the script names is no collection text.
    Collection(CollectionError),
    /// An addition, a removal or a publish failed.
    Live(LiveError),
    /// The answers could not be written.
    Write,
    /// Out of memory.
    Memory,
}

impl<'t> From<AllocError> for RunError<'t> {
    ghost use Rattle.std.specs.Prelude.{◌≡◌};
    ghost use Rattle.ix_script.specs.declared.run_error.RunError.TheVariants.{Memory};

    ghost from_gives = { λ _ error. error ≡ Memory };

    fn from(_error: AllocError) -> RunError<'t> {
        RunError::Memory
    }
}

impl<'t> From<CollectionError> for RunError<'t> {
    ghost use Rattle.std.specs.Prelude.{◌≡◌};
    ghost use Rattle.ix_script.specs.declared.run_error.RunError.TheVariants.{Collection};

    ghost from_gives = { λ cause error. error ≡ Collection cause };

    fn from(error: CollectionError) -> RunError<'t> {
        RunError::Collection(error)
    }
}

impl<'t> From<LiveError> for RunError<'t> {
    ghost use Rattle.std.specs.Prelude.{◌≡◌};
    ghost use Rattle.ix_script.specs.declared.run_error.RunError.TheVariants.{Live};

    ghost from_gives = { λ cause error. error ≡ Live cause };

    fn from(error: LiveError) -> RunError<'t> {
        RunError::Live(error)
    }
}

impl<'t> From<WriteError> for RunError<'t> {
    ghost use Rattle.std.specs.Prelude.{◌≡◌};
    ghost use Rattle.ix_script.specs.declared.run_error.RunError.TheVariants.{Write};

    ghost from_gives = { λ _ error. error ≡ Write };

    fn from(_error: WriteError) -> RunError<'t> {
        RunError::Write
    }
}

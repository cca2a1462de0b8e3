//! Why a question to an index text that nobody has checked got no answer.

use crate::ask_error::AskError;
use ix_extract::ExtractError;
use ix_file::OpenError;

/// Why a question to an index text that nobody has checked got no answer.
#[derive(Drop)]
pub enum TrustError {
    /// A read of the index text failed.
    Read,
    /// As for an opened index; `Open` if a part that was checked is not as an index text has it.
    Ask(AskError),
}

impl From<ExtractError> for TrustError {
    ghost use Rattle.std.specs.Prelude.{◌≡◌};
    ghost use Rattle.ix_ask.specs.Trusting.{error_of_extract};

    ghost from_gives = { λ given error. error ≡ error_of_extract given };

    fn from(error: ExtractError) -> TrustError {
        match error {
            ExtractError::Memory => TrustError::Ask(AskError::Memory),
            ExtractError::Read => TrustError::Read,
            ExtractError::Query(error) => TrustError::Ask(AskError::Query(error)),
            ExtractError::Index(error) => TrustError::Ask(AskError::Open(error)),
        }
    }
}

impl From<AskError> for TrustError {
    ghost use Rattle.std.specs.Prelude.{◌≡◌};
    ghost use Rattle.ix_ask.specs.declared.trust_error.TrustError.TheVariants.{Ask};

    ghost from_gives = { λ given error. error ≡ Ask given };

    fn from(error: AskError) -> TrustError {
        TrustError::Ask(error)
    }
}

impl From<OpenError> for TrustError {
    ghost use Rattle.std.specs.Prelude.{◌≡◌};
    ghost use Rattle.ix_ask.specs.declared.ask_error.AskError.TheVariants.{Open};
    ghost use Rattle.ix_ask.specs.declared.trust_error.TrustError.TheVariants.{Ask};

    ghost from_gives = { λ given error. error ≡ Ask (Open given) };

    fn from(error: OpenError) -> TrustError {
        TrustError::Ask(AskError::Open(error))
    }
}

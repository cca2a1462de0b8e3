//! Stop texts, with their errors as those of the engine.
ghost use Rattle.std.specs.Prelude.{◌≡◌, Err, IfErr, IfOk, MatchResult, Ok};
ghost use Rattle.ix_text.specs.StopText.{IsStopText};
ghost use Rattle.ix_c.specs.Asking.{RefusesStop};

use ix_ask::EngineRefusal;
use ix_text::{StopError, StopList};
use std::alloc::Global;

/// The stop list of a stop text.
pub(crate) fn read_stop(alloc: Global, text: &str) -> Result<StopList, EngineRefusal>
    ensures read { IfOk result (λ stop. IsStopText text.now stop) }
    ensures refused { IfErr result (RefusesStop text.now) }
{
    stop_or_refusal(StopList::read(alloc, text))
}

/// What was read, or its error as that of the engine.
fn stop_or_refusal(read: Result<StopList, StopError>) -> Result<StopList, EngineRefusal>
    ensures { MatchResult read
        (λ stop. result ≡ Ok stop)
        (λ error. result ≡ Err (EngineRefusal.Stop error)) }
{
    match read {
        Ok(stop) => Ok(stop),
        Err(error) => Err(EngineRefusal::Stop(error)),
    }
}

//! The run text of a part of a collection, by the calling thread alone.
ghost use Rattle.std.specs.Prelude.{◌^◌, ◌<◌, ◌+◌, ℕ, List, length, IfErr, IfOk};
ghost use Rattle.ix_text.specs.Collections.{Collection as CollectionValue, NamedText};
ghost use Rattle.ix_text.specs.CollectionText.{IsCollectionText};
ghost use Rattle.ix_run.specs.RunText.{IsRunText};
ghost use Rattle.ix_run.specs.Runs.{IsRunOf};
ghost use Rattle.ix_ask.specs.Inverting.{IsRunOfText, IsTooLargeOrUnread, RefusesRunning};

use crate::refusal::EngineRefusal;
use ix_run::{Run, invert};
use ix_text::{Collection, StopList};
use std::alloc::{AllocError, Global};

/// The run text of the collection of a collection text, without the terms of the stop list, its documents counted from
/// `first` on.
///
/// `Collection` if the bytes are no collection text, or if memory ran out in reading them; `Run` if no run
/// holds so much, which comes first if there are more documents than numbers, or memory ran out in making it; `Memory` if there
/// was none for the text.
pub fn run_alone(
    alloc: Global,
    collection: &[u8],
    stop: &StopList,
    first: u32,
) -> Result<Vec<u8>, EngineRefusal>
    ensures run { IfOk result (λ text. IsRunOfText collection.now stop.now first text.items) }
    ensures refused { IfErr result (RefusesRunning collection.now stop.now first) }
    ensures too_large { (documents : List NamedText) → IsCollectionText collection.now documents
        → 2 ^ 28 < first + length documents → IsTooLargeOrUnread result }
{
    let documents = match Collection::read(alloc, collection) {
        Ok(documents) => documents,
        Err(error) => return Err(EngineRefusal::Collection(error)),
    };
    let run = match invert(alloc, documents.docs(), stop, first) {
        Ok(run) => run,
        Err(error) => return Err(EngineRefusal::Run(error)),
    };
    match text_of(alloc, &run) {
        Ok(text) => Ok(text),
        Err(_) => Err(EngineRefusal::Memory),
    }
}

/// The text of a run.
fn text_of(alloc: Global, run: &Run) -> Result<Vec<u8>, AllocError>
    ensures { IfOk result (λ text. (first : ℕ) (collection : CollectionValue)
        → IsRunOf run.now first collection → IsRunText first collection text.items) }
{
    let mut text = Vec::new(alloc);
    match run.write_to(&mut text) {
        Ok(()) => Ok(text),
        Err(_) => Err(AllocError),
    }
}

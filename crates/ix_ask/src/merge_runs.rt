//! Merging run texts that lie in memory, by the calling thread alone.
ghost use Rattle.std.specs.Prelude.{IfErr, IfOk};
ghost use Rattle.ix_ask.specs.Merging.{AreReading, IsMergeOf, IsReading, RefusesHead, RefusesMerging, texts_behind};

use ix_merge::{MergeError, merge};
use ix_run::{RunReader, RunTextError};
use std::alloc::Global;

/// Merges run texts, which may come in any order, into the index text, version 2, of the concatenation of their
/// collections. The errors are those of `merge`; `Source` also if a text does not have the head of a run.
pub fn merge_alone(alloc: Global, runs: &[&[u8]]) -> Result<Vec<u8>, MergeError<RunTextError>>
    ensures merged { IfOk result (λ index. IsMergeOf (texts_behind runs.now) index.items) }
    ensures refused { IfErr result (RefusesMerging (texts_behind runs.now)) }
{
    let readers = read_all(alloc, runs)?;
    let mut index = Vec::new(alloc);
    match merge(alloc, readers, &mut index) {
        Ok(()) => Ok(index),
        Err(error) => Err(error),
    }
}

/// The readers of run texts.
fn read_all<'a>(
    alloc: Global,
    runs: &[&'a [u8]],
) -> Result<Vec<RunReader<&'a [u8]>>, MergeError<RunTextError>>
    ensures reading { IfOk result (λ readers. AreReading (texts_behind runs.now) readers.items) }
    ensures refused { IfErr result (RefusesMerging (texts_behind runs.now)) }
{
    let mut readers = Vec::new(alloc);
    for (place, &run) in runs.iter().enumerate() {
        let reader = match read_run(alloc, run) {
            Ok(reader) => reader,
            Err(error) => return Err(MergeError::Source(place, error)),
        };
        if readers.push(reader).is_err() {
            return Err(MergeError::Memory);
        }
    }
    Ok(readers)
}

/// The reader of a run text.
fn read_run<'a>(alloc: Global, run: &'a [u8]) -> Result<RunReader<&'a [u8]>, RunTextError>
    ensures reading { IfOk result (IsReading run.entry.now) }
    ensures refused { IfErr result (RefusesHead run.entry.now) }
{
    RunReader::open(alloc, run)
}

//! Runs read back from a store, and their merge.
ghost use Rattle.std.specs.Prelude.{◌≡◌, ◌≢◌, ◌+◌, [], length, map, slice_get, Some, IfErr, IfOk, IsFalse, IsTrue, OnErr, OnOk};
ghost use Rattle.ix_merge.specs.Pieces.{LeavesFront};
ghost use Rattle.ix_run.specs.Heads.{heading_of, row_of_doc};
ghost use Rattle.ix_build.specs.ReadBack.{AreReadBack, ComesOfMerging, ComesOfReading, GivesRunsBack, IsReadBack, LeavesReadBackPart, MayBeMerged};
ghost use Rattle.ix_build.specs.ReadBack.{TellBytes, TellsCause, TellsNotGivenBack, WritesReadBack};
ghost use Rattle.ix_build.specs.SavingMakers.{HasSaved};
ghost use Rattle.ix_build.specs.Stores.{CountsMore};

use crate::build_error::BuildError;
use crate::store::{RunStore, StoreError};
use ix_merge::merge;
use ix_run::{RunDoc, RunHead, RunReader};
use ix_text::StopList;
use std::alloc::Global;
use std::io::Write;

/// The run of a place as the store gives it back. It must have the head that was kept of it.
fn open_run<T: RunStore>(
    alloc: Global,
    store: &mut T,
    place: usize,
    kept: &RunHead,
) -> Result<RunReader<T::Reader>, BuildError>
    ensures read { IfOk result (λ reader. IsReadBack T.Reader.remaining (T.back store.old place)
        (heading_of kept.now) reader) }
    ensures refused { IfErr result (ComesOfReading (place + 1)) }
    ensures caused { IfErr result (TellsNotGivenBack T.Reader.remaining
        (CountsMore (T.refusals store.old) (T.refusals store.new))
        (λ at heading. (at ≡ place) × (heading ≡ heading_of kept.now)) (T.back store.old)) }
    ensures store { HasSaved T.places T.refusals T.back store.old store.new [] }
{
    let reader = match store.load(place) {
        Ok(reader) => reader,
        Err(StoreError::Store) => return Err(BuildError::Spill(place)),
        Err(StoreError::Memory) => return Err(BuildError::Memory),
    };
    match RunReader::open(alloc, reader) {
        Ok(run) => {
            if are_same(run.head(), kept) {
                Ok(run)
            } else {
                Err(BuildError::Spill(place))
            }
        }
        Err(error) => Err(BuildError::of_reading(place, error)),
    }
}

/// The runs of all places whose heads were kept, in order, or the error of the lowest one that is not given back.
fn open_runs<T: RunStore>(
    alloc: Global,
    store: &mut T,
    heads: &[RunHead],
) -> Result<Vec<RunReader<T::Reader>>, BuildError>
    ensures read { IfOk result (λ readers. AreReadBack T.Reader.remaining (T.back store.old)
        (map heading_of heads.now) readers.items) }
    ensures refused { IfErr result (ComesOfReading (length heads.now)) }
    ensures caused { IfErr result (TellsNotGivenBack T.Reader.remaining
        (CountsMore (T.refusals store.old) (T.refusals store.new))
        (λ place heading. slice_get (map heading_of heads.now) place ≡ Some heading)
        (T.back store.old)) }
    ensures store { HasSaved T.places T.refusals T.back store.old store.new [] }
{
    let Ok(mut readers) = Vec::with_capacity(alloc, heads.len()) else {
        return Err(BuildError::Memory);
    };
    for (place, head) in heads.iter().enumerate() {
        match open_run(alloc, store, place, head) {
            Ok(reader) => readers.push_reserved(reader),
            Err(error) => return Err(error),
        }
    }
    Ok(readers)
}

/// Merges the runs of all places whose heads were kept, as the store gives them back.
pub(crate) fn merge_saved<T: RunStore, W: Write>(
    alloc: Global,
    store: &mut T,
    heads: &[RunHead],
    out: &mut W,
) -> Result<(), BuildError>
    requires { MayBeMerged (map heading_of heads.now) }
    ensures written { OnOk result (WritesReadBack T.Reader.remaining (T.back store.old)
        (map heading_of heads.now) (W.contents out.old) (W.contents out.new)) }
    ensures refused { IfErr result (ComesOfMerging (length heads.now)) }
    ensures caused { IfErr result (TellsCause T.Reader.remaining
        (CountsMore (T.refusals store.old) (T.refusals store.new))
        (λ place heading. slice_get (map heading_of heads.now) place ≡ Some heading)
        (T.back store.old) (W.contents out.old) (W.contents out.new)) }
    ensures front { OnErr result (LeavesFront (map heading_of heads.now)
        (W.contents out.old) (W.contents out.new)) }
    ensures unfinished { TellBytes T.Reader.remaining
        → GivesRunsBack (T.back store.old) (length heads.now)
        → IfErr result (λ error. LeavesReadBackPart T.Reader.remaining (T.back store.old)
        (map heading_of heads.now) (W.contents out.old) (W.contents out.new)
        (error ≡ BuildError.Write)) }
    ensures store { HasSaved T.places T.refusals T.back store.old store.new [] }
{
    let readers = open_runs(alloc, store, heads)?;
    match merge(alloc, readers, out) {
        Ok(()) => Ok(()),
        Err(error) => Err(BuildError::of_read_merge(error)),
    }
}

/// Whether two heads have the same first number, stop terms and documents.
pub(crate) fn are_same(one: &RunHead, other: &RunHead) -> bool
    ensures same { IsTrue result → heading_of one.now ≡ heading_of other.now }
    ensures other { IsFalse result → heading_of one.now ≢ heading_of other.now }
{
    one.first == other.first
        && have_same_terms(&one.stop, &other.stop)
        && have_same_docs(one.docs.as_slice(), other.docs.as_slice())
}

/// Whether two stop lists have the same terms.
fn have_same_terms(one: &StopList, other: &StopList) -> bool
    ensures same { IsTrue result → one.now ≡ other.now }
    ensures other { IsFalse result → one.now ≢ other.now }
{
    one.terms() == other.terms()
}

/// Whether two documents have the same name and number of tokens.
fn is_same_doc(one: &RunDoc, other: &RunDoc) -> bool
    ensures same { IsTrue result → row_of_doc one.now ≡ row_of_doc other.now }
    ensures other { IsFalse result → row_of_doc one.now ≢ row_of_doc other.now }
{
    one.tokens == other.tokens && one.name == other.name
}

/// Whether there are as many documents, and the same at each place.
fn have_same_docs(one: &[RunDoc], other: &[RunDoc]) -> bool
    ensures same { IsTrue result → map row_of_doc one.now ≡ map row_of_doc other.now }
    ensures other { IsFalse result → map row_of_doc one.now ≢ map row_of_doc other.now }
{
    if one.len() != other.len() {
        return false;
    }
    for (place, doc) in one.iter().enumerate() {
        if !is_same_doc(doc, &other[place]) {
            return false;
        }
    }
    true
}

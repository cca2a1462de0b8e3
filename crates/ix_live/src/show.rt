//! Editions go from the indexer to the searchers.
ghost use Rattle.std.specs.Prelude.{◌≡◌, ◌^◌, ◌<◌, Some, IfOk, MatchResult};
ghost use Rattle.std.specs.Arc.{arc_value};
ghost use Rattle.left_right.specs.Sides.{view};
ghost use Rattle.ix_live.specs.Histories.{Known};
ghost use Rattle.ix_live.specs.Identities.{Agrees, GoesOn, KnowsIndex, shown_in};

use crate::edition::Edition;
use crate::rule::{EditionReader, EditionWriter, Looking};
use crate::shown::Shown;
use ix_text::Memory;
use std::alloc::{AllocError, Global};
use std::sync::{Arc, Wait};

/// Two copies that show an edition, with room for that many readers.
pub fn open_copies<R: Wait>(
    rt: &R,
    alloc: Global,
    edition: &Arc<Edition, Global>,
    readers: usize,
) -> Result<EditionWriter, Memory>
    requires { (0 < readers) × (readers < 2 ^ 32) }
    ensures shown { IfOk result (λ writer.
        shown_in writer.desk.shown.value ≡ arc_value edition.now) }
    ensures known { IfOk result (λ writer.
        view writer.desk.place ≡ Some (arc_value edition.now)) }
{
    let first = Shown {
        current: Arc::try_clone(edition)?,
    };
    let second = Shown {
        current: Arc::try_clone(edition)?,
    };
    let writer = EditionWriter::new(alloc, first, second, readers)?;
    // Nothing is new to show: from this the writer knows which history it is.
    let (writer, done) = writer.publish_as::<Looking, R>(rt);
    if let Err(error) = done {
        writer.take(rt);
        return Err(error);
    }
    Ok(writer)
}

/// Shows an edition that goes on from the one that is shown, in place of that. It waits for those
/// who still take the one from before that.
pub fn show_edition<R: Wait>(
    writer: EditionWriter,
    next: (&R, Arc<Edition, Global>),
) -> (EditionWriter, Result<(), Memory>)
    requires { GoesOn (shown_in writer.desk.shown.value) (arc_value next.1) }
    ensures { MatchResult result.1
        (λ _. shown_in result.0.desk.shown.value ≡ arc_value next.entry.1)
        (λ _. shown_in result.0.desk.shown.value ≡ shown_in writer.desk.shown.value) }
{
    let (rt, edition) = next;
    let mut writer = writer;
    match writer.append(edition) {
        Ok(()) => writer.publish_as::<Looking, R>(rt),
        Err(_edition) => (writer, Err(AllocError)),
    }
}

/// Takes the edition that is shown. `Memory` if the reader is not let in, as once the writer is
/// gone.
pub fn take_edition(
    reader: EditionReader,
    _nothing: (),
) -> (EditionReader, Result<Arc<Edition, Global>, Memory>)
    ensures kept { (index : Known) → KnowsIndex (view reader.place) index
        → KnowsIndex (view result.0.place) index }
    ensures taken { IfOk result.1 (λ edition. Agrees (arc_value edition) (view reader.place)
        × (view result.0.place ≡ Some (arc_value edition))) }
{
    match reader.enter_as::<Looking>() {
        Ok(reading) => {
            let edition = Arc::try_clone(&reading.get().current);
            (reading.leave(), edition)
        }
        Err(reader) => (reader, Err(AllocError)),
    }
}

//! A new live index.
ghost use Rattle.std.specs.Prelude.{◌≡◌, ◌≤◌, [], Some, All, IfOk, vec_len};
ghost use Rattle.std.specs.Arc.{arc_value};
ghost use Rattle.left_right.specs.Sides.{view};
ghost use Rattle.ix_live.specs.Identities.{shown_in};

use crate::edition::Edition;
use crate::indexer::Indexer;
use crate::log_prefix::LogPrefix;
use crate::rule::{Copied, EditionWriter, Taken};
use crate::searcher::Searcher;
use crate::show::open_copies;
use crate::version::Version;
use ix_text::{Memory, StopList};
use std::alloc::Global;
use std::sync::{Arc, Wait};

/// A live index without documents, and 1 to 64 searchers of it.
///
/// `Memory` if out of memory.
pub fn live<R: Wait>(
    rt: &R,
    alloc: Global,
    stop: StopList,
    searchers: usize,
) -> Result<(Indexer, Vec<Searcher>), Memory>
    requires { (1 ≤ searchers) × (searchers ≤ 64) }
    ensures stop { IfOk result (λ r. r.0.stop ≡ stop) }
    ensures empty { IfOk result (λ r.
        (r.0.published ≡ []) × (r.0.pending ≡ []) × (r.0.pieces ≡ [])) }
    ensures count { IfOk result (λ r. vec_len r.1 ≡ searchers) }
    ensures searchers { IfOk result (λ r. All (λ searcher.
        (searcher.stop ≡ r.0.stop) × (searcher.history.book ≡ r.0.book)
        × (searcher.history.publishes ≡ [])) r.1.items) }
{
    let stop = Arc::new(alloc, stop)?;
    let (head, prefix) = LogPrefix::open();
    let next = Version::new(alloc, stop);
    let version = next.copy(alloc)?;
    let edition = Arc::new(alloc, Edition::new(version, prefix.again()))?;
    let mut writer = open_copies(rt, alloc, &edition, searchers)?;
    match make_searchers(alloc, &mut writer, &edition, searchers) {
        Ok(made) => Ok((Indexer::new(alloc, writer, next, prefix, head), made)),
        Err(error) => {
            writer.take(rt);
            Err(error)
        }
    }
}

/// `count` searchers of the live index that a writer knows, which know of the edition that is
/// shown.
fn make_searchers(
    alloc: Global,
    writer: &mut EditionWriter,
    edition: &Arc<Edition, Global>,
    count: usize,
) -> Result<Vec<Searcher>, Memory>
    requires { view writer.old.desk.place ≡ Some (arc_value edition.now) }
    ensures kept { shown_in writer.new.desk.shown.value
        ≡ shown_in writer.old.desk.shown.value }
    ensures count { IfOk result (λ made. vec_len made ≡ count) }
    ensures made { IfOk result (λ made. All (λ searcher.
        searcher ≡ arc_value edition.now) made.items) }
{
    let mut made = Vec::with_capacity(alloc, count)?;
    for _ in 0..count {
        let mut reader = writer.factory().reader()?;
        reader.learn::<Taken>(writer.tell::<Copied>());
        made.push_reserved(Searcher::new(alloc, reader, Arc::try_clone(edition)?));
    }
    Ok(made)
}

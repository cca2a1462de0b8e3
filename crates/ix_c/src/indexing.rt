//! The index text of a collection text.
ghost use Rattle.std.specs.Prelude.{◌≡◌, ◌≤◌, IfErr, IfOk};
ghost use Rattle.ix_ask.specs.declared.refusal.Area.TheVariants as area;
ghost use Rattle.ix_c.specs.Indexing.{IsIndexed, IsIndexUnder, RefusesIndexing};
ghost use Rattle.ix_c.specs.Telling.{IsNotUtf8, IsRefused};

use crate::found::{Found, answer, tell, tell_not_utf8};
use crate::stop::read_stop;
use ix_ask::{Area, EngineRefusal, index_alone};
use std::alloc::Global;
use std::str::from_utf8;

/// The index text, version 2, of a collection text, without the words of a stop text.
///
/// Returns 0 with the index text in `out`, as many of its bytes as it has room for; 1 with the error line
/// there; 2 if the stop text is not UTF-8, with `out` as it was. `ix_build` of `include/ix.h`.
#[unsafe(no_mangle)]
pub extern "C" fn ix_build(
    alloc: Global,
    collection: &[u8],
    stop: &[u8],
    out: &mut [u8],
    found: &mut Found,
) -> u32
    ensures status { result ≤ 2 }
    ensures indexed { result ≡ 0 →
        IsIndexed collection.now stop.now out.old out.new found.new }
    ensures refused { result ≡ 1 →
        IsRefused (RefusesIndexing collection.now stop.now) out.old out.new found.new }
    ensures not_utf8 { result ≡ 2 → (out.new ≡ out.old) × IsNotUtf8 area.Stop stop.now found.new }
{
    let Ok(stop) = from_utf8(stop) else {
        return tell_not_utf8(Area::Stop, found);
    };
    match index_under(alloc, collection, stop) {
        Ok(text) => answer(0, &text, out, found),
        Err(refusal) => tell(&refusal, out, found),
    }
}

/// The index text of a collection text under the words of a stop text.
fn index_under(alloc: Global, collection: &[u8], stop: &str) -> Result<Vec<u8>, EngineRefusal>
    ensures indexed { IfOk result (λ text. IsIndexUnder collection.now stop.now text.items) }
    ensures refused { IfErr result (RefusesIndexing collection.now stop.now) }
{
    let stop = read_stop(alloc, stop)?;
    index_alone(alloc, collection, &stop)
}

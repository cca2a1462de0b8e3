//! A question to a collection text.
ghost use Rattle.std.specs.Prelude.{◌≡◌, ◌≤◌, ◌⊎◌, IfErr, IfOk};
ghost use Rattle.ix_ask.specs.declared.refusal.Area.TheVariants as area;
ghost use Rattle.ix_c.specs.Asking.{IsAnswered, IsAnsweredUnder, RefusesAsking};
ghost use Rattle.ix_c.specs.Telling.{IsNotUtf8, IsRefused};

use crate::found::{Found, answer, tell, tell_not_utf8};
use crate::stop::read_stop;
use ix_ask::{Area, EngineRefusal, Lines, ask_alone};
use std::alloc::Global;
use std::str::from_utf8;

/// The names of the documents of a collection text that satisfy a query, each with LF, under the words of a stop text.
///
/// Returns 0 with the names in `out`, as many of their bytes as it has room for; 1 with the error line there;
/// 2 if the stop text or the query is not UTF-8, with `out` as it was. `ix_ask` of `include/ix.h`.
#[unsafe(no_mangle)]
pub extern "C" fn ix_ask(
    alloc: Global,
    collection: &[u8],
    stop: &[u8],
    query: &[u8],
    out: &mut [u8],
    found: &mut Found,
) -> u32
    ensures status { result ≤ 2 }
    ensures answered { result ≡ 0 →
        IsAnswered collection.now stop.now query.now out.old out.new found.new }
    ensures refused { result ≡ 1 →
        IsRefused (RefusesAsking collection.now stop.now query.now) out.old out.new found.new }
    ensures not_utf8 { result ≡ 2 → (out.new ≡ out.old)
        × (IsNotUtf8 area.Stop stop.now found.new ⊎ IsNotUtf8 area.Query query.now found.new) }
{
    let Ok(stop) = from_utf8(stop) else {
        return tell_not_utf8(Area::Stop, found);
    };
    let Ok(query) = from_utf8(query) else {
        return tell_not_utf8(Area::Query, found);
    };
    match ask_under(alloc, collection, stop, query) {
        Ok(names) => answer(names.count, &names.bytes, out, found),
        Err(refusal) => tell(&refusal, out, found),
    }
}

/// What a query finds in a collection text under the words of a stop text.
fn ask_under(
    alloc: Global,
    collection: &[u8],
    stop: &str,
    query: &str,
) -> Result<Lines, EngineRefusal>
    ensures answered { IfOk result (λ names. IsAnsweredUnder collection.now stop.now query.now
        names.bytes.items names.count) }
    ensures refused { IfErr result (RefusesAsking collection.now stop.now query.now) }
{
    let stop = read_stop(alloc, stop)?;
    ask_alone(alloc, collection, &stop, query)
}

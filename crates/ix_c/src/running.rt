//! The run text of a part of a collection, to be merged.
ghost use Rattle.std.specs.Prelude.{◌≡◌, ◌≤◌, IfErr, IfOk};
ghost use Rattle.ix_ask.specs.declared.refusal.Area.TheVariants as area;
ghost use Rattle.ix_c.specs.Running.{IsRun, IsRunUnder, RefusesRunning};
ghost use Rattle.ix_c.specs.Telling.{IsNotUtf8, IsRefused};

use crate::found::{Found, answer, tell, tell_not_utf8};
use crate::stop::read_stop;
use ix_ask::{Area, EngineRefusal, run_alone};
use std::alloc::Global;
use std::str::from_utf8;

/// The run text of a collection text, without the words of a stop text, its documents counted from `first` on.
///
/// Returns 0 with the run text in `out`, as many of its bytes as it has room for; 1 with the error line there; 2
/// where the stop text is not UTF-8, with `out` as it was. `ix_run` of `include/ix.h`.
#[unsafe(no_mangle)]
pub extern "C" fn ix_run(
    alloc: Global,
    collection: &[u8],
    stop: &[u8],
    first: u32,
    out: &mut [u8],
    found: &mut Found,
) -> u32
    ensures status { result ≤ 2 }
    ensures run { result ≡ 0 →
        IsRun collection.now stop.now first out.old out.new found.new }
    ensures refused { result ≡ 1 →
        IsRefused (RefusesRunning collection.now stop.now first) out.old out.new found.new }
    ensures not_utf8 { result ≡ 2 → (out.new ≡ out.old) × IsNotUtf8 area.Stop stop.now found.new }
{
    let Ok(stop) = from_utf8(stop) else {
        return tell_not_utf8(Area::Stop, found);
    };
    match run_under(alloc, collection, stop, first) {
        Ok(text) => answer(0, &text, out, found),
        Err(refusal) => tell(&refusal, out, found),
    }
}

/// The run text of a collection text under the words of a stop text.
fn run_under(
    alloc: Global,
    collection: &[u8],
    stop: &str,
    first: u32,
) -> Result<Vec<u8>, EngineRefusal>
    ensures run { IfOk result (λ text. IsRunUnder collection.now stop.now first text.items) }
    ensures refused { IfErr result (RefusesRunning collection.now stop.now first) }
{
    let stop = read_stop(alloc, stop)?;
    run_alone(alloc, collection, &stop, first)
}

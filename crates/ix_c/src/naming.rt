//! The names of all documents of an index that is held behind a handle.
ghost use Rattle.std.specs.Prelude.{◌≡◌, ◌≤◌, ℕ, IfErr, IfOk, List, None, Some};
ghost use Rattle.ix_c.specs.Naming.{AreNamed, AreNamesIn};
ghost use Rattle.ix_c.specs.Opening.{StandsFor};
ghost use Rattle.ix_c.specs.Telling.{IsRefused, IsZero};

use crate::found::{Found, answer, tell, tell_closed};
use crate::handle::Handle;
use ix_ask::{EngineRefusal, Lines, list_names};
use ix_file::Volume;
use std::alloc::Global;

/// The names of all documents of an opened index, each with LF, in the order of the documents.
///
/// Returns 0 with the names in `out`, as many of their bytes as it has room for; 1 if memory ran out, with the line
/// that says it; 3 if the handle is closed, with `out` as it was. `ix_index_names` of `include/ix.h`.
#[unsafe(no_mangle)]
pub extern "C" fn ix_index_names(
    alloc: Global,
    index: &mut Handle,
    out: &mut [u8],
    found: &mut Found,
) -> u32
    ensures status { result ≤ 3 }
    ensures named { result ≡ 0 → (text : List ℕ) → StandsFor index.old.held.value text
        → AreNamed text out.old out.new found.new }
    ensures refused { result ≡ 1 →
        IsRefused (λ reason. reason ≡ EngineRefusal.Memory) out.old out.new found.new }
    ensures closed { result ≡ 3 →
        (out.new ≡ out.old) × IsZero found.new × (index.old.held.value ≡ None) }
    ensures asked { index.old.held.value ≡ None → result ≡ 3 }
    ensures kept { index.new.held.value ≡ index.old.held.value }
{
    if !index.is_open {
        return tell_closed(found);
    }
    let volume = index.take(alloc);
    let names = name_opened(alloc, &volume);
    *index = Handle::of(volume);
    match names {
        Ok(names) => answer(names.count, &names.bytes, out, found),
        Err(refusal) => tell(&refusal, out, found),
    }
}

/// The names of all documents of an opened index.
fn name_opened(alloc: Global, volume: &Volume) -> Result<Lines, EngineRefusal>
    ensures named { IfOk result (λ names. (text : List ℕ) → StandsFor (Some volume.now) text
        → AreNamesIn text names.bytes.items names.count) }
    ensures refused { IfErr result (λ reason. reason ≡ EngineRefusal.Memory) }
{
    let index = volume.index();
    match list_names(alloc, &index) {
        Ok(names) => Ok(names),
        Err(_) => Err(EngineRefusal::Memory),
    }
}

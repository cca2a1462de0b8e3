//! Questions to an index that is opened once and held behind a handle.
ghost use Rattle.std.specs.Prelude.{◌≡◌, ◌≤◌, ℕ, IfErr, IfOk, List, None, Some};
ghost use Rattle.ix_ask.specs.declared.refusal.Area.TheVariants as area;
ghost use Rattle.ix_c.specs.Opening.{RefusesOpening, StandsFor};
ghost use Rattle.ix_c.specs.Searching.{AreFoundIn, AreListedIn, IsListed, IsSearched};
ghost use Rattle.ix_c.specs.Searching.{RefusesListing, RefusesSearching};
ghost use Rattle.ix_c.specs.Telling.{IsNotUtf8, IsRefused, IsZero};

use crate::found::{Found, answer, tell, tell_closed, tell_done, tell_not_utf8};
use crate::handle::Handle;
use crate::searching::{find_in, index_or_refusal, match_in};
use ix_ask::{Area, EngineRefusal, Lines};
use ix_file::Volume;
use std::alloc::Global;
use std::str::from_utf8;

/// Opens an index text, of which the handle keeps a copy. What the handle held before is closed.
///
/// Returns 0 with the handle open; 1 with the handle closed and the error line in `out`. `ix_index_open` of
/// `include/ix.h`.
#[unsafe(no_mangle)]
pub extern "C" fn ix_index_open(
    alloc: Global,
    index: &mut Handle,
    text: &[u8],
    out: &mut [u8],
    found: &mut Found,
) -> u32
    ensures status { result ≤ 1 }
    ensures opened { result ≡ 0 → StandsFor index.new.held.value text.now }
    ensures untouched { result ≡ 0 → (out.new ≡ out.old) × IsZero found.new }
    ensures refused { result ≡ 1 →
        IsRefused (RefusesOpening text.now) out.old out.new found.new }
    ensures closed { result ≡ 1 → index.new.held.value ≡ None }
{
    index.close(alloc);
    match open_copy(alloc, text) {
        Ok(volume) => {
            *index = Handle::of(volume);
            tell_done(found)
        }
        Err(refusal) => tell(&refusal, out, found),
    }
}

/// The index of a copy of an index text.
fn open_copy(alloc: Global, text: &[u8]) -> Result<Box<Volume>, EngineRefusal>
    ensures opened { IfOk result (λ volume. StandsFor (Some volume.value) text.now) }
    ensures refused { IfErr result (RefusesOpening text.now) }
{
    let Ok(copy) = Vec::from_slice(alloc, text) else {
        return Err(EngineRefusal::Memory);
    };
    match index_or_refusal(Volume::open(alloc, copy)) {
        Ok(volume) => in_a_box(alloc, volume),
        Err(refusal) => Err(refusal),
    }
}

/// An index in a box.
fn in_a_box(alloc: Global, volume: Volume) -> Result<Box<Volume>, EngineRefusal>
    ensures boxed { IfOk result (λ boxed. boxed.value ≡ volume) }
    ensures refused { IfErr result (λ reason. reason ≡ EngineRefusal.Memory) }
{
    match Box::new(alloc, volume) {
        Ok(boxed) => Ok(boxed),
        Err(_) => Err(EngineRefusal::Memory),
    }
}

/// Closes a handle and gives back what it held. A closed one stays closed. `ix_index_close` of `include/ix.h`.
#[unsafe(no_mangle)]
pub extern "C" fn ix_index_close(alloc: Global, index: &mut Handle)
    ensures { index.new.held.value ≡ None }
{
    index.close(alloc);
}

/// The names of the documents of an opened index that satisfy a query, as `ix_search` gives them.
///
/// Returns what `ix_search` returns, and 3 if the handle is closed, with `out` as it was. `ix_index_search` of
/// `include/ix.h`.
#[unsafe(no_mangle)]
pub extern "C" fn ix_index_search(
    alloc: Global,
    index: &mut Handle,
    query: &[u8],
    out: &mut [u8],
    found: &mut Found,
) -> u32
    ensures status { result ≤ 3 }
    ensures searched { result ≡ 0 → (text : List ℕ) → StandsFor index.old.held.value text
        → IsSearched text query.now out.old out.new found.new }
    ensures refused { result ≡ 1 → (text : List ℕ) → StandsFor index.old.held.value text
        → IsRefused (RefusesSearching text query.now) out.old out.new found.new }
    ensures not_utf8 { result ≡ 2 → (out.new ≡ out.old) × IsNotUtf8 area.Query query.now found.new }
    ensures closed { result ≡ 3 →
        (out.new ≡ out.old) × IsZero found.new × (index.old.held.value ≡ None) }
    ensures asked { index.old.held.value ≡ None → result ≡ 3 }
    ensures kept { index.new.held.value ≡ index.old.held.value }
{
    if !index.is_open {
        return tell_closed(found);
    }
    let Ok(query) = from_utf8(query) else {
        return tell_not_utf8(Area::Query, found);
    };
    let volume = index.take(alloc);
    let names = search_opened(alloc, &volume, query);
    *index = Handle::of(volume);
    match names {
        Ok(names) => answer(names.count, &names.bytes, out, found),
        Err(refusal) => tell(&refusal, out, found),
    }
}

/// What an opened index finds for a query.
fn search_opened(alloc: Global, volume: &Volume, query: &str) -> Result<Lines, EngineRefusal>
    ensures found { IfOk result (λ names. (text : List ℕ) → StandsFor (Some volume.now) text
        → AreFoundIn text query.now names.bytes.items names.count) }
    ensures refused { IfErr result (λ reason. (text : List ℕ) → StandsFor (Some volume.now) text
        → RefusesSearching text query.now reason) }
{
    let index = volume.index();
    find_in(alloc, &index, query)
}

/// The terms of an opened index that match a pattern, as `ix_terms` gives them.
///
/// Returns what `ix_terms` returns, and 3 if the handle is closed, with `out` as it was. `ix_index_terms` of
/// `include/ix.h`.
#[unsafe(no_mangle)]
pub extern "C" fn ix_index_terms(
    alloc: Global,
    index: &mut Handle,
    pattern: &[u8],
    out: &mut [u8],
    found: &mut Found,
) -> u32
    ensures status { result ≤ 3 }
    ensures listed { result ≡ 0 → (text : List ℕ) → StandsFor index.old.held.value text
        → IsListed text pattern.now out.old out.new found.new }
    ensures refused { result ≡ 1 → (text : List ℕ) → StandsFor index.old.held.value text
        → IsRefused (RefusesListing text pattern.now) out.old out.new found.new }
    ensures not_utf8 { result ≡ 2 →
        (out.new ≡ out.old) × IsNotUtf8 area.Pattern pattern.now found.new }
    ensures closed { result ≡ 3 →
        (out.new ≡ out.old) × IsZero found.new × (index.old.held.value ≡ None) }
    ensures asked { index.old.held.value ≡ None → result ≡ 3 }
    ensures kept { index.new.held.value ≡ index.old.held.value }
{
    if !index.is_open {
        return tell_closed(found);
    }
    let Ok(pattern) = from_utf8(pattern) else {
        return tell_not_utf8(Area::Pattern, found);
    };
    let volume = index.take(alloc);
    let rows = list_opened(alloc, &volume, pattern);
    *index = Handle::of(volume);
    match rows {
        Ok(rows) => answer(rows.count, &rows.bytes, out, found),
        Err(refusal) => tell(&refusal, out, found),
    }
}

/// The lines of the terms of an opened index that match a pattern.
fn list_opened(alloc: Global, volume: &Volume, pattern: &str) -> Result<Lines, EngineRefusal>
    ensures listed { IfOk result (λ rows. (text : List ℕ) → StandsFor (Some volume.now) text
        → AreListedIn text pattern.now rows.bytes.items rows.count) }
    ensures refused { IfErr result (λ reason. (text : List ℕ) → StandsFor (Some volume.now) text
        → RefusesListing text pattern.now reason) }
{
    let index = volume.index();
    match_in(alloc, &index, pattern)
}

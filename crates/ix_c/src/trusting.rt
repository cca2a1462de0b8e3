//! A question to an index text that nobody has checked.
ghost use Rattle.std.specs.Prelude.{◌≡◌, ◌≤◌, IfErr, IfOk};
ghost use Rattle.ix_ask.specs.declared.refusal.Area.TheVariants as area;
ghost use Rattle.ix_c.specs.Telling.{IsNotUtf8, IsRefused};
ghost use Rattle.ix_c.specs.Trusting.{AreFoundTrusting, IsSearchedTrusting, RefusesTrusting};

use crate::found::{Found, answer, tell, tell_not_utf8};
use ix_ask::{Area, AskError, EngineRefusal, Lines, TrustError, find_names_trusting};
use ix_files::Slice;
use std::alloc::Global;
use std::str::from_utf8;

/// The names of the documents of an index that satisfy a query, each with LF. Of the index text, only what the query
/// needs is read and checked.
///
/// Returns 0 with the names in `out`, as many of their bytes as it has room for; 1 with the line of the error there; 2 if
/// the query is not UTF-8, with `out` as it was. `ix_search_trusting` of `include/ix.h`.
#[unsafe(no_mangle)]
pub extern "C" fn ix_search_trusting(
    alloc: Global,
    index: &[u8],
    query: &[u8],
    out: &mut [u8],
    found: &mut Found,
) -> u32
    ensures status { result ≤ 2 }
    ensures searched { result ≡ 0 →
        IsSearchedTrusting index.now query.now out.old out.new found.new }
    ensures refused { result ≡ 1 →
        IsRefused (RefusesTrusting index.now query.now) out.old out.new found.new }
    ensures not_utf8 { result ≡ 2 → (out.new ≡ out.old) × IsNotUtf8 area.Query query.now found.new }
{
    let Ok(query) = from_utf8(query) else {
        return tell_not_utf8(Area::Query, found);
    };
    match search_trusting_in(alloc, index, query) {
        Ok(names) => answer(names.count, &names.bytes, out, found),
        Err(refusal) => tell(&refusal, out, found),
    }
}

/// What a query finds in an index text.
fn search_trusting_in(alloc: Global, index: &[u8], query: &str) -> Result<Lines, EngineRefusal>
    ensures found { IfOk result (λ names.
        AreFoundTrusting index.now query.now names.bytes.items names.count) }
    ensures refused { IfErr result (RefusesTrusting index.now query.now) }
{
    match find_names_trusting(alloc, &Slice { bytes: index }, query) {
        Ok(names) => Ok(names),
        Err(TrustError::Ask(AskError::Query(error))) => Err(EngineRefusal::Query(error)),
        Err(TrustError::Ask(AskError::Open(error))) => Err(EngineRefusal::Index(error)),
        // No read of a slice fails, but no clause says so: of an index text it could not be an error of `Index`.
        Err(_) => Err(EngineRefusal::Memory),
    }
}

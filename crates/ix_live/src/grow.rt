//! A table of segments with more documents.
ghost use Rattle.std.specs.Prelude.{◌≡◌, ◌^◌, ◌<◌, ◌≤◌, ◌+◌, length, IfOk, IfErr, MatchResult};
ghost use Rattle.ix_merge.specs.Rows.{tokens_in};
ghost use Rattle.ix_live.specs.Growing.{Grows, HaveDocuments, documents_under, tokens_of};
ghost use Rattle.ix_live.specs.LiveErrors.{RefusesDocuments};
ghost use Rattle.ix_live.specs.Segments.{rows_in};
ghost use Rattle.ix_live.specs.declared.live_error.LiveError.TheVariants.{TooLarge};

use crate::live_error::LiveError;
use crate::merge_alike::merge_alike;
use crate::segment::{Segment, Slot};
use crate::volumes::build_volume;
use ix_build::Plan;
use ix_file::Volume;
use ix_text::{Collection, MAX_TOKENS, StopList};
use std::alloc::Global;
use std::sync::Wait;
use std::thread::Threads;

/// A segment that takes the place of all from `left` on and has more documents behind theirs, and
/// how many tokens these have.
#[derive(Drop)]
pub struct Grown {
    pub left: usize,
    pub slot: Slot,
    pub tokens: u32,
}

/// Builds one document or more, and merges their segment with those at the end of a table that has
/// `tokens` tokens.
///
/// `Build` if they are not built, `TooLarge` if they have too many tokens, `Memory` if out of
/// memory.
#[tactic(auto, using(crate::proofs::StoredLemmas::documents_counted))]
pub fn grow<R: Threads + Wait + Sync>(
    rt: &R,
    alloc: Global,
    stop: &StopList,
    table: &[Slot],
    tokens: u32,
    documents: &Collection<'_>,
    plan: &Plan,
) -> Result<Grown, LiveError>
    requires short { length table.now ≤ 32 }
    requires indexed { HaveDocuments stop.now table.now }
    requires some { 0 < length documents.now }
    requires few { length (rows_in table.now) + length documents.now ≤ 2 ^ 28 }
    requires tokens { tokens ≤ 2 ^ 28 }
    ensures grown { IfOk result (λ grown. Grows stop.now table.now
        (documents_under stop.now documents.now) grown.left grown.slot) }
    ensures tokens { IfOk result (λ grown.
        grown.tokens ≡ tokens_of (documents_under stop.now documents.now)) }
    ensures few { IfOk result (λ grown. tokens + grown.tokens ≤ 2 ^ 28) }
    ensures refused { IfErr result (RefusesDocuments plan.now.workers
        (length (rows_in table.now)) tokens (documents_under stop.now documents.now)) }
{
    let volume = match build_volume(rt, alloc, documents, stop, plan) {
        Ok(volume) => volume,
        Err(error) => return Err(error),
    };
    let more = match count_tokens(&volume, tokens) {
        Ok(more) => more,
        Err(error) => return Err(error),
    };
    let segment = Segment {
        generation: 0,
        volume,
    };
    let (left, segment) = merge_alike(alloc, table, segment)?;
    let slot = Slot::new(alloc, segment)?;
    Ok(Grown {
        left,
        slot,
        tokens: more,
    })
}

/// How many tokens the documents of a volume have. `TooLarge` if these and `tokens` more are too
/// many.
fn count_tokens(volume: &Volume, tokens: u32) -> Result<u32, LiveError>
    requires { tokens ≤ 2 ^ 28 }
    ensures { MatchResult result
        (λ more. (more ≡ tokens_in volume.now.parts.rows) × (tokens + more ≤ 2 ^ 28))
        (λ error. (error ≡ TooLarge) × (2 ^ 28 < tokens + tokens_in volume.now.parts.rows)) }
{
    let more = volume.index().token_total();
    if more > MAX_TOKENS - tokens {
        return Err(LiveError::TooLarge);
    }
    Ok(more)
}

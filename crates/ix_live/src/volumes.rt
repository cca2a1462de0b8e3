//! New segments: documents that are built, and two segments that are merged.
ghost use Rattle.std.specs.Prelude.{◌^◌, ◌≤◌, ◌+◌, ◌++◌, List, ℕ, length, IfErr, IfOk};
ghost use Rattle.ix_text.specs.Collections.{Collection, Document, collection_of};
ghost use Rattle.ix_file.specs.IndexText.{IsIndexText};
ghost use Rattle.ix_file.specs.Opened.{IsIndexOf};
ghost use Rattle.ix_file.specs.Sections.{FrontCoded};
ghost use Rattle.ix_live.specs.LiveErrors.{IsOfBuilding};
ghost use Rattle.ix_scan.specs.ScansWithout.{of_documents};

use crate::live_error::LiveError;
use ix_build::{Plan, build_in_memory};
use ix_file::Volume;
use ix_merge::{IndexSource, merge};
use ix_text::{Collection as Documents, Memory, StopList};
use std::alloc::{AllocError, Global};
use std::sync::Wait;
use std::thread::Threads;

/// An index of documents under a stop list, built by a plan.
///
/// `Build` if the documents are not built, and `Memory` if out of memory.
pub fn build_volume<R: Threads + Wait + Sync>(
    rt: &R,
    alloc: Global,
    documents: &Documents<'_>,
    stop: &StopList,
    plan: &Plan,
) -> Result<Volume, LiveError>
    ensures built { IfOk result (λ volume.
        IsIndexOf volume FrontCoded (collection_of stop.now documents.now)) }
    ensures refused { IfErr result (IsOfBuilding plan.now.workers) }
{
    let mut bytes = Vec::new(alloc);
    build_in_memory(rt, alloc, documents, stop, plan, &mut bytes)?;
    Ok(open_volume(alloc, bytes)?)
}

/// An index of the documents of one index and, behind them, those of another under the same stop
/// set.
pub fn merge_volumes(alloc: Global, one: &Volume, other: &Volume) -> Result<Volume, Memory>
    requires few { length one.now.parts.rows + length other.now.parts.rows ≤ 2 ^ 28 }
    ensures { IfOk result (λ volume. (stop : List (List ℕ)) (first second : List Document)
        → IsIndexOf one.now FrontCoded (of_documents stop first)
        → IsIndexOf other.now FrontCoded (of_documents stop second)
        → IsIndexOf volume FrontCoded (of_documents stop (first ++ second))) }
{
    let bytes = merge_bytes(alloc, one, other)?;
    open_volume(alloc, bytes)
}

/// The index text of the documents of two indexes, one behind another.
fn merge_bytes(alloc: Global, one: &Volume, other: &Volume) -> Result<Vec<u8>, Memory>
    requires few { length one.now.parts.rows + length other.now.parts.rows ≤ 2 ^ 28 }
    ensures { IfOk result (λ bytes. (stop : List (List ℕ)) (first second : List Document)
        → IsIndexOf one.now FrontCoded (of_documents stop first)
        → IsIndexOf other.now FrontCoded (of_documents stop second)
        → IsIndexText FrontCoded (of_documents stop (first ++ second)) bytes.items) }
{
    let one = one.index();
    let other = other.index();
    let first = IndexSource::new(alloc, &one, 0)?;
    let second = IndexSource::new(alloc, &other, one.doc_count())?;
    let mut sources = Vec::with_capacity(alloc, 2)?;
    sources.push_reserved(first);
    sources.push_reserved(second);
    let mut bytes = Vec::new(alloc);
    match merge(alloc, sources, &mut bytes) {
        Ok(()) => Ok(bytes),
        // The documents follow one another under one stop set and have few tokens, so the merge was
        // out of memory.
        Err(_) => Err(AllocError),
    }
}

/// Opens an index text. `Memory` if out of memory.
fn open_volume(alloc: Global, bytes: Vec<u8>) -> Result<Volume, Memory>
    ensures { IfOk result (λ volume. (collection : Collection)
        → IsIndexText FrontCoded collection bytes.items → IsIndexOf volume FrontCoded collection) }
{
    match Volume::open(alloc, bytes) {
        Ok(volume) => Ok(volume),
        Err(_) => Err(AllocError),
    }
}

//! Versions: a live index after all that was done to it.
ghost use Rattle.std.specs.Prelude.{◌≡◌, ◌<◌, ◌≤◌, ◌+◌, ◌^◌, ◌∷◌, [], length, map, option_map, slice_get, IfErr, IfOk, OnErr, OnOk};
ghost use Rattle.std.specs.Arc.{arc_value};
ghost use Rattle.std.specs.String.{string_bytes};
ghost use Rattle.ix_live.specs.Growing.{documents_under};
ghost use Rattle.ix_live.specs.Histories.{nothing_done, operations_of, published, waiting};
ghost use Rattle.ix_live.specs.LiveErrors.{RefusesAddition, RefusesRemoval};
ghost use Rattle.ix_live.specs.NameErrors.{RefusesNames};
ghost use Rattle.ix_live.specs.Names.{AreNamesOf};
ghost use Rattle.ix_live.specs.Operations.{Remove, addition_of, documents_added, state_after};
ghost use Rattle.ix_live.specs.Pieces.{Falls, after_adding};
ghost use Rattle.ix_live.specs.StateScans.{IsStateScan};

use crate::entry::Entry;
use crate::find_documents::find_documents;
use crate::find_names::{find_names, find_unknown};
use crate::grow::grow;
use crate::insert_number::insert_number;
use crate::live_error::LiveError;
use crate::name_error::NameError;
use crate::past::Past;
use crate::segment::Slot;
use arrayvec::ArrayVec;
use ix_build::Plan;
use ix_query::Query;
use ix_text::{Collection, MAX_DOCUMENTS, Memory, StopList};
use std::alloc::Global;
use std::marker::Model;
use std::sync::{Arc, Wait};
use std::thread::Threads;

/// A live index after all that was done to it. Contracts see its stop set, what was done, and the
/// pieces of its documents.
#[derive(Drop)]
pub struct Version {
    stop: Arc<StopList, Global>,
    segments: ArrayVec<Slot, 32>,
    // the operations, without their documents
    entries: Vec<Entry>,
    // the numbers of the documents that are removed, ascending
    removed: Vec<u32>,
    // how many documents there are, and how many tokens they have
    count: u32,
    tokens: u32,
    past: Past,
}

impl Model for Version {
    ghost use Rattle.std.specs.Arc.{arc_value};
    ghost use Rattle.ix_live.specs.Histories.{operations_of};
    ghost use Rattle.ix_live.specs.Pieces.{pieces_in};
    ghost use Rattle.ix_live.specs.Versions.{IsStored, VersionValue};

    ghost Value = { VersionValue };

    ghost view = { λ version. record {
      stop = arc_value version.stop;
      past = version.past;
      pieces = pieces_in version.segments.items;
    } };

    ghost invariant = { λ version. IsStored (arc_value version.stop) version.segments.items
        version.entries.items version.removed.items version.count version.tokens
        (operations_of version.past) };
}

impl Version {
    /// The version to which nothing was done, of this stop list.
    pub fn new(alloc: Global, stop: Arc<StopList, Global>) -> Version
        ensures stop { result.stop ≡ arc_value stop }
        ensures past { result.past ≡ nothing_done }
        ensures pieces { result.pieces ≡ [] }
    {
        Version {
            stop,
            segments: ArrayVec::new(),
            entries: Vec::new(alloc),
            removed: Vec::new(alloc),
            count: 0,
            tokens: 0,
            past: Past::open(),
        }
    }

    /// A version to which the same was done, which shares the segments.
    pub fn copy(&self, alloc: Global) -> Result<Version, Memory>
        ensures { IfOk result (λ copy. copy ≡ self.now) }
    {
        let segments = share_segments(&self.segments)?;
        Ok(Version {
            stop: Arc::try_clone(&self.stop)?,
            segments,
            entries: Vec::from_slice(alloc, &self.entries)?,
            removed: Vec::from_slice(alloc, &self.removed)?,
            count: self.count,
            tokens: self.tokens,
            past: self.past.again(),
        })
    }

    /// All that is pending is published.
    pub fn settle(&mut self)
        ensures { self.new ≡ record {
          stop = self.old.stop;
          past = published self.old.past;
          pieces = self.old.pieces;
        } }
    {
        self.past = self.past.published();
    }

    /// Adds documents behind all others. A collection without documents changes nothing.
    ///
    /// `TooLarge` if there would be more than 2^28 documents or tokens, `Build` if the documents
    /// are not built, and `Memory` if out of memory. All is then as it was.
    pub fn add<R: Threads + Wait + Sync>(
        &mut self,
        rt: &R,
        alloc: Global,
        documents: &Collection<'_>,
        plan: &Plan,
    ) -> Result<(), LiveError>
        ensures same { self.new.stop ≡ self.old.stop }
        ensures added { OnOk result (self.new.past ≡ waiting self.old.past
            (addition_of (documents_under self.old.stop documents.now))) }
        ensures few { OnOk result (length (documents_added (operations_of self.old.past))
            + length documents.now ≤ 2 ^ 28) }
        ensures pieces { OnOk result
            (self.new.pieces ≡ after_adding (length documents.now) self.old.pieces) }
        ensures kept { OnErr result (self.new ≡ self.old) }
        ensures error { IfErr result (RefusesAddition plan.now.workers
            (operations_of self.old.past) (documents_under self.old.stop documents.now)) }
    {
        let count = documents.docs().len();
        if count > (MAX_DOCUMENTS - self.count) as usize {
            return Err(LiveError::TooLarge);
        }
        if count == 0 {
            return Ok(());
        }
        let table = self.segments.as_slice();
        let grown = match grow(rt, alloc, &self.stop, table, self.tokens, documents, plan) {
            Ok(grown) => grown,
            Err(error) => return Err(error),
        };
        self.entries.reserve(1)?;
        self.past = self.past.with_addition(&self.stop, documents);
        self.segments.truncate(grown.left);
        self.segments.push(grown.slot);
        self.entries.push_reserved(Entry::Added(count as u32));
        self.count += count as u32;
        self.tokens += grown.tokens;
        Ok(())
    }

    /// Removes the document of a number, which keeps its number and its name. A second removal
    /// changes nothing but what was done.
    ///
    /// `Number` if there is no such document, and `Memory` if out of memory. All is then as it was.
    pub fn remove(&mut self, number: u32) -> Result<(), LiveError>
        ensures same { (self.new.stop ≡ self.old.stop) × (self.new.pieces ≡ self.old.pieces) }
        ensures removed { OnOk result
            (self.new.past ≡ waiting self.old.past (Remove number ∷ [])) }
        ensures there { OnOk result
            (number < length (documents_added (operations_of self.old.past))) }
        ensures kept { OnErr result (self.new ≡ self.old) }
        ensures error { IfErr result (RefusesRemoval
            (length (documents_added (operations_of self.old.past))) number) }
    {
        if number >= self.count {
            return Err(LiveError::Number(number));
        }
        self.entries.reserve(1)?;
        self.removed.reserve(1)?;
        self.past = self.past.with_removal(number);
        insert_number(&mut self.removed, number);
        self.entries.push_reserved(Entry::Removed(number));
        Ok(())
    }

    /// What was done.
    pub fn past(&self) -> &Past
        ensures { result.now ≡ self.now.past }
    {
        &self.past
    }

    /// The generation of the segment at a place, none past the end.
    pub fn generation(&self, place: usize) -> Option<u32>
        ensures generation { result
            ≡ option_map (λ piece. piece.generation) (slice_get self.now.pieces place) }
        ensures falls { Falls self.now.pieces }
    {
        match self.segments.as_slice().get(place) {
            None => None,
            Some(segment) => Some(segment.generation()),
        }
    }

    /// The numbers of the documents that satisfy a query and are not removed, ascending.
    pub fn find(&self, alloc: Global, query: &Query) -> Result<Vec<u32>, Memory>
        ensures { IfOk result (λ numbers.
            IsStateScan (state_after self.now.stop (operations_of self.now.past)) query.now
            numbers.items) }
    {
        find_documents(
            alloc,
            self.segments.as_slice(),
            self.removed.as_slice(),
            query,
        )
    }

    /// The names of the documents of these numbers, removed ones too.
    ///
    /// `Number` with the place of the first number that is no document's; `Memory` if out of
    /// memory.
    pub fn names(&self, alloc: Global, numbers: &[u32]) -> Result<Vec<String>, NameError>
        ensures names { IfOk result (λ names.
            AreNamesOf (documents_added (operations_of self.now.past)) numbers.now
            (map string_bytes names.items)) }
        ensures refused { IfErr result
            (RefusesNames (length (documents_added (operations_of self.now.past))) numbers.now) }
    {
        if let Some(place) = find_unknown(numbers, self.count) {
            return Err(NameError::Number(place));
        }
        Ok(find_names(alloc, self.segments.as_slice(), numbers)?)
    }
}

/// A table of the same segments.
fn share_segments(segments: &ArrayVec<Slot, 32>) -> Result<ArrayVec<Slot, 32>, Memory>
    ensures { IfOk result (λ table. table.items ≡ segments.now.items) }
{
    let mut table = ArrayVec::new();
    for slot in segments.as_slice() {
        table.push(slot.again()?);
    }
    Ok(table)
}

//! A maker of runs, which inverts blocks of documents.

ghost use Rattle.std.specs.Prelude.{◌≡◌, ◌+◌, ◌^◌, ◌≤◌, [], map, length, Some};
ghost use Rattle.ix_text.specs.Collections.{collection_of, token_total};
ghost use Rattle.ix_text.specs.Docs.{named_text};
ghost use Rattle.ix_text.specs.Sizes.{AreSmall};
ghost use Rattle.ix_build.specs.Blocks.{AscendUpTo};

use crate::blocks::block_at;
use crate::watch::Watch;
use ix_pool::{Asked, MakeError, Maker};
use ix_run::{Run, RunError, invert};
use ix_text::{Doc, Memory, StopList, tokens_are_no_more_than_bytes};
use std::alloc::Global;

/// Inverts the block of a place (IIR 4.3). Documents, stop list and bounds are borrowed, and no text is copied. The
/// block of place k has the documents from bound k up to bound k + 1.
#[derive(Drop)]
pub(crate) struct BlockMaker<'a, V> {
    pub(crate) alloc: Global,
    pub(crate) docs: &'a [Doc<'a>],
    pub(crate) stop: &'a StopList,
    pub(crate) bounds: &'a [usize],
    pub(crate) asked: Vec<Asked>,
    pub(crate) watch: &'a V,
    ghost ascending: { AscendUpTo (length docs.now) bounds.now },
    ghost few_documents: { length docs.now ≤ 2 ^ 28 },
    ghost few_tokens: { token_total (collection_of stop.now (map named_text docs.now)) ≤ 2 ^ 28 },
}

impl<'a, V> BlockMaker<'a, V> {
    ghost use Rattle.std.specs.Prelude.{◌<◌, ◌-◌, ◌∷◌, ◌++◌, vec_len};
    ghost use Rattle.std.specs.Vec.{vec_capacity};

    /// A maker of the blocks of small documents, with no askings. Allocates nothing.
    pub(crate) fn new(
        alloc: Global,
        docs: &'a [Doc<'a>],
        stop: &'a StopList,
        bounds: &'a [usize],
        watch: &'a V,
    ) -> BlockMaker<'a, V>
        requires ascending { AscendUpTo (length docs.now) bounds.now }
        requires small { AreSmall (map named_text docs.now) }
        ensures documents { result.docs.now ≡ docs.now }
        ensures stop { result.stop.now ≡ stop.now }
        ensures bounds { result.bounds.now ≡ bounds.now }
        ensures asked { result.asked.items ≡ [] }
    {
        tokens_are_no_more_than_bytes();
        BlockMaker {
            alloc,
            docs,
            stop,
            bounds,
            asked: Vec::new(alloc),
            watch,
        }
    }

    /// Appends an asking, for which there is room.
    pub(crate) fn note(&mut self, asked: Asked)
        requires { 0 < vec_capacity self.old.asked - vec_len self.old.asked }
        ensures documents { self.new.docs.now ≡ self.old.docs.now }
        ensures stop { self.new.stop.now ≡ self.old.stop.now }
        ensures bounds { self.new.bounds.now ≡ self.old.bounds.now }
        ensures asked { self.new.asked.items ≡ self.old.asked.items ++ asked ∷ [] }
        ensures room { vec_capacity self.new.asked - vec_len self.new.asked + 1
            ≡ vec_capacity self.old.asked - vec_len self.old.asked }
    {
        self.asked.push_reserved(asked);
    }
}

impl<'a, V: Watch> Maker for BlockMaker<'a, V> {
    ghost use Rattle.std.specs.Prelude.{◌-◌, ◌<◌, ◌↔◌, ◌∷◌, ◌++◌, ℕ, Err, IfErr, IfOk, None, vec_len};
    ghost use Rattle.std.specs.Vec.{vec_capacity};
    ghost use Rattle.ix_pool.specs.Askings.{asking};
    ghost use Rattle.ix_build.specs.BlockRuns.{GivesRun, StaysMakerOf};
    ghost use Rattle.ix_build.specs.BlockRunLaws.{stays_itself, stays_on};

    type Piece = Run;

    ghost askings = { λ maker. maker.asked.items };

    ghost spare = { λ maker. vec_capacity maker.asked - vec_len maker.asked };

    ghost gives = { GivesRun };

    ghost follows = { StaysMakerOf };

    ghost follows_itself = { stays_itself };

    ghost follows_on = { stays_on };

    fn reserve(&mut self, places: usize) -> Result<(), Memory> {
        self.asked.reserve(places)
    }

    fn room(&self) -> usize {
        self.asked.capacity() - self.asked.len()
    }

    /// Inverts the block of a place. Returns `Refused` if the place has no block, and `Memory` if out of memory.
    fn make(&mut self, place: usize) -> Result<Run, MakeError>
        requires { 0 < vec_capacity self.old.asked - vec_len self.old.asked }
        ensures asked { IfOk result (λ piece. self.new.asked.items ≡ self.old.asked.items
            ++ asking place None ∷ []) }
        ensures refused { IfErr result (λ error. self.new.asked.items ≡ self.old.asked.items
            ++ asking place (Some error) ∷ []) }
        ensures piece { IfOk result (λ piece. GivesRun self.old place piece) }
        ensures room { vec_capacity self.new.asked - vec_len self.new.asked + 1
            ≡ vec_capacity self.old.asked - vec_len self.old.asked }
        ensures gives { (other : ℕ) (piece : Run) →
            GivesRun self.new other piece ↔ GivesRun self.old other piece }
        ensures follows { StaysMakerOf self.old self.new }

        // `Refused` comes at a place behind the last block, and at no other.
        ensures behind { length self.old.bounds.now ≤ place + 1 → result ≡ Err MakeError.Refused }
        ensures within { place + 1 < length self.old.bounds.now →
            IfErr result (λ error. error ≡ MakeError.Memory) }
    {
        let Some((from, to)) = block_at(self.bounds, place) else {
            let error = Some(MakeError::Refused);
            self.asked.push_reserved(Asked { place, error });
            return Err(MakeError::Refused);
        };
        match invert(self.alloc, &self.docs[from..to], self.stop, from as u32) {
            Ok(run) => {
                self.asked.push_reserved(Asked { place, error: None });
                self.watch.inverted(self.bounds.len().saturating_sub(1));
                Ok(run)
            }
            Err(RunError::Memory) => {
                let error = Some(MakeError::Memory);
                self.asked.push_reserved(Asked { place, error });
                Err(MakeError::Memory)
            }
            // There are too few documents and tokens for that.
            Err(RunError::TooLarge) => unreachable!(),
        }
    }

    fn asked(&self) -> &[Asked] {
        self.asked.as_slice()
    }
}

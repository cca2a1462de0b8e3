//! The indexer: it grows a version, and shows it.
ghost use Rattle.std.specs.Prelude.{◌≡◌, ◌<◌, ◌≤◌, ◌+◌, ◌^◌, ◌++◌, ◌∷◌, [], length, option_map, slice_get, IfErr, IfOk, OnErr, OnOk};
ghost use Rattle.ix_live.specs.Growing.{documents_under};
ghost use Rattle.ix_live.specs.Identities.{shown_in};
ghost use Rattle.ix_live.specs.Indexers.{IsAhead, indexer_of};
ghost use Rattle.ix_live.specs.LiveErrors.{RefusesAddition, RefusesRemoval};
ghost use Rattle.ix_live.specs.Operations.{Remove, addition_of, documents_added};
ghost use Rattle.ix_live.specs.Pieces.{Falls, after_adding};
ghost use Rattle.ix_live.specs.Segments.{joined};
ghost use Rattle.ix_live.specs.declared.live_error.LiveError.TheVariants.{Memory};

use crate::edition::Edition;
use crate::live_error::LiveError;
use crate::log::Head;
use crate::log_prefix::LogPrefix;
use crate::news::News;
use crate::rule::EditionWriter;
use crate::show::show_edition;
use crate::version::Version;
use core::mem::replace_with;
use ix_build::Plan;
use ix_text::Collection;
use std::alloc::Global;
use std::marker::Model;
use std::sync::{Arc, Wait};
use std::thread::Threads;

/// Adds documents to a live index, removes documents, and publishes both for the searchers. It ends
/// by `close` alone. Contracts see its stop set, which live index it is, the operations of each
/// publish and those that are pending, and the pieces of all documents.
pub struct Indexer {
    writer: EditionWriter,
    // what is published and, behind it, what is pending
    next: Version,
    // all of the log
    prefix: LogPrefix,
    head: Head,
    alloc: Global,
}

impl Model for Indexer {
    ghost use Rattle.ix_live.specs.Identities.{shown_in};
    ghost use Rattle.ix_live.specs.Indexers.{IndexerValue, IsAhead, indexer_of};

    ghost Value = { IndexerValue };

    ghost view = { λ indexer. indexer_of indexer.next indexer.prefix };

    ghost invariant = { λ indexer. IsAhead (shown_in indexer.writer.desk.shown.value)
        indexer.next indexer.prefix indexer.head };
}

impl Indexer {
    /// The indexer of a version, and of copies that show what of it was published.
    pub(crate) fn new(
        alloc: Global,
        writer: EditionWriter,
        next: Version,
        prefix: LogPrefix,
        head: Head,
    ) -> Indexer
        requires { IsAhead (shown_in writer.desk.shown.value) next prefix head }
        ensures { result ≡ indexer_of next prefix }
    {
        Indexer {
            writer,
            next,
            prefix,
            head,
            alloc,
        }
    }

    /// Adds documents behind all others; they are pending until they are published. A collection
    /// without documents changes nothing.
    ///
    /// `TooLarge` if there would be more than 2^28 documents or tokens, `Build` if the documents
    /// are not built, and `Memory` if out of memory. All is then as it was.
    pub fn add<R: Threads + Wait + Sync>(
        &mut self,
        rt: &R,
        documents: &Collection<'_>,
        plan: &Plan,
    ) -> Result<(), LiveError>
        ensures same { (self.new.stop ≡ self.old.stop) × (self.new.book ≡ self.old.book)
            × (self.new.published ≡ self.old.published) }
        ensures added { OnOk result (self.new.pending
            ≡ self.old.pending ++ addition_of (documents_under self.old.stop documents.now)) }
        ensures few { OnOk result
            (length (documents_added (joined self.old.published ++ self.old.pending))
            + length documents.now ≤ 2 ^ 28) }
        ensures pieces { OnOk result
            (self.new.pieces ≡ after_adding (length documents.now) self.old.pieces) }
        ensures kept { OnErr result (self.new ≡ self.old) }
        ensures error { IfErr result (RefusesAddition plan.now.workers
            (joined self.old.published ++ self.old.pending)
            (documents_under self.old.stop documents.now)) }
    {
        self.next.add(rt, self.alloc, documents, plan)
    }

    /// Removes the document of a number; the removal is pending until it is published. The document
    /// keeps its number and its name. A second removal changes nothing but the history.
    ///
    /// `Number` if there is no such document, and `Memory` if out of memory. All is then as it was.
    pub fn remove(&mut self, number: u32) -> Result<(), LiveError>
        ensures same { (self.new.stop ≡ self.old.stop) × (self.new.book ≡ self.old.book)
            × (self.new.published ≡ self.old.published) × (self.new.pieces ≡ self.old.pieces) }
        ensures removed { OnOk result
            (self.new.pending ≡ self.old.pending ++ Remove number ∷ []) }
        ensures there { OnOk result
            (number < length (documents_added (joined self.old.published ++ self.old.pending))) }
        ensures kept { OnErr result (self.new ≡ self.old) }
        ensures error { IfErr result (RefusesRemoval
            (length (documents_added (joined self.old.published ++ self.old.pending))) number) }
    {
        self.next.remove(number)
    }

    /// Publishes all that is pending at once, at the end of the history. It waits for the searchers
    /// that still take the edition from before the last publish, but for no query.
    ///
    /// `Memory` if out of memory. All is then as it was, and no searcher sees what is pending.
    pub fn publish<R: Wait>(&mut self, rt: &R) -> Result<News, LiveError>
        ensures same { (self.new.stop ≡ self.old.stop) × (self.new.book ≡ self.old.book)
            × (self.new.pieces ≡ self.old.pieces) }
        ensures published { OnOk result
            ((self.new.published ≡ self.old.published ++ self.old.pending ∷ [])
            × (self.new.pending ≡ [])) }
        ensures news { IfOk result (λ news. news ≡ record {
          stop = self.old.stop;
          history = record {
            book = self.old.book;
            publishes = self.old.published ++ self.old.pending ∷ [];
          };
        }) }
        ensures kept { OnErr result (self.new ≡ self.old) }
        ensures error { IfErr result (λ error. error ≡ Memory) }
    {
        self.prefix = self.prefix.extend(rt, &self.head, self.next.past());
        let edition = Edition::of(self.alloc, &self.next, self.prefix.again())?;
        let shown = Arc::try_clone(&edition)?;
        replace_with(&mut self.writer, (rt, shown), show_edition::<R>)?;
        self.next.settle();
        Ok(News { edition })
    }

    /// The generation of the segment at a place, pending documents included; none past the end.
    pub fn generation(&self, place: usize) -> Option<u32>
        ensures generation { result
            ≡ option_map (λ piece. piece.generation) (slice_get self.now.pieces place) }
        ensures falls { Falls self.now.pieces }
    {
        self.next.generation(place)
    }

    /// Ends the indexer, once no searcher takes a version any more. What is pending is dropped, and
    /// no searcher answers from now on.
    ///
    /// There is no clause, since the indexer is gone and nothing comes back. The next answer of a
    /// searcher is `Memory`.
    pub fn close<R: Wait>(self, rt: &R) {
        let Self {
            writer,
            next: _next,
            prefix: _prefix,
            head: _head,
            alloc: _,
        } = self;
        writer.take(rt);
    }
}

//! The entry that a merge writes next: a term, and the lists of the sources that have it, one after another.
ghost use Rattle.std.specs.Prelude.{◌≡◌, ◌≤◌, ◌<◌, ◌^◌, ◌⊎◌, ℕ, List, Option, length, OnOk, IfErr, string_bytes};
ghost use Rattle.ix_output.specs.Sinks.{AppendsFront};
ghost use Rattle.ix_file.specs.Telling.{IsClosable};
ghost use Rattle.ix_file.specs.Told.{Told, settled_front};
ghost use Rattle.ix_file.specs.Writers.{WasTold, sink, sink_name};
ghost use Rattle.ix_merge.specs.Gathered.{HasGathered, HasGatheredSome, HasNothing, IsNewEntry, MayBegin};
ghost use Rattle.ix_merge.specs.Turns.{BeginsEntry};

use ix_file::{IndexWriter, PutError};
use std::alloc::Global;
use std::io::Write;

/// The lists are written once they have this many bytes.
const FULL: usize = 1 << 16;

/// The pending entry of a merge. The lists of its sources are gathered, so that one call writes many of them.
#[derive(Drop)]
pub(crate) struct PendingEntry {
    // its term; empty before the first entry
    pub(crate) term: String,
    // one above its last document so far, written or gathered, or 0
    pub(crate) end: u32,
    // the lists that were gathered and are not written yet, one after another
    pub(crate) list: Vec<u8>,
    // how many documents these have
    pub(crate) documents: u32,
}

impl PendingEntry {
    /// Before the first entry.
    pub(crate) fn none(alloc: Global) -> PendingEntry
        ensures { IsNewEntry result }
    {
        PendingEntry {
            term: String::new(alloc),
            end: 0,
            list: Vec::new(alloc),
            documents: 0,
        }
    }

    /// Begins the entry of a term, of at most 255 bytes, unless it is the pending one, which else is written first.
    ///
    /// # Errors
    ///
    /// * `Write`: a write failed.
    /// * `Memory`: out of memory.
    pub(crate) fn begin<W: Write>(
        &mut self,
        term: &str,
        writer: &mut IndexWriter<'_, W>,
    ) -> Result<(), PutError>
        requires short { length term.now ≤ 255 }
        requires may { MayBegin W.contents writer.old self.old }
        ensures same_writer { sink_name writer.new ≡ sink_name writer.old }
        ensures term { OnOk result (string_bytes self.new.term ≡ term.now) }
        ensures told { (before : Option (List ℕ)) (told : Told)
            → HasGathered W.contents before writer.old self.old told → IsClosable told
            → OnOk result (BeginsEntry W.contents before writer.new told
            (string_bytes self.old.term) self.old.end term.now self.new) }
        ensures front { (before : Option (List ℕ)) (told : Told)
            → HasGathered W.contents before writer.old self.old told
            → AppendsFront before (W.contents (sink writer.new)) (settled_front told) }
        ensures error { IfErr result (λ error. (error ≡ PutError.Write)
            ⊎ (error ≡ PutError.Memory)) }
    {
        if self.term.as_str() == term {
            return Ok(());
        }
        self.send(writer)?;
        writer.term(term)?;
        self.term.clear();
        self.term.push_str(term)?;
        self.end = 0;
        Ok(())
    }

    /// Writes what was gathered if it has 64 KiB or more.
    ///
    /// # Errors
    ///
    /// * `Write`: a write failed.
    /// * `Memory`: out of memory.
    pub(crate) fn send_if_full<W: Write>(
        &mut self,
        writer: &mut IndexWriter<'_, W>,
    ) -> Result<(), PutError>
        requires gathered { HasGatheredSome W.contents writer.old self.old }
        ensures same_writer { sink_name writer.new ≡ sink_name writer.old }
        ensures same_term { self.new.term ≡ self.old.term }
        ensures same_end { self.new.end ≡ self.old.end }
        ensures told { (before : Option (List ℕ)) (told : Told)
            → HasGathered W.contents before writer.old self.old told
            → OnOk result (HasGathered W.contents before writer.new self.new told) }
        ensures few { OnOk result (length self.new.list.items < 2 ^ 16) }
        ensures front { (before : Option (List ℕ)) (told : Told)
            → HasGathered W.contents before writer.old self.old told
            → AppendsFront before (W.contents (sink writer.new)) (settled_front told) }
        ensures error { IfErr result (λ error. (error ≡ PutError.Write)
            ⊎ (error ≡ PutError.Memory)) }
    {
        if self.list.len() < FULL {
            return Ok(());
        }
        self.send(writer)
    }

    /// Writes what was gathered, and empties the list.
    ///
    /// # Errors
    ///
    /// * `Write`: a write failed.
    /// * `Memory`: out of memory.
    pub(crate) fn send<W: Write>(&mut self, writer: &mut IndexWriter<'_, W>) -> Result<(), PutError>
        requires gathered { HasGatheredSome W.contents writer.old self.old }
        ensures same_writer { sink_name writer.new ≡ sink_name writer.old }
        ensures same_term { self.new.term ≡ self.old.term }
        ensures same_end { self.new.end ≡ self.old.end }
        ensures nothing { OnOk result (HasNothing self.new) }
        ensures told { (before : Option (List ℕ)) (told : Told)
            → HasGathered W.contents before writer.old self.old told
            → OnOk result (WasTold W.contents before writer.new told) }
        ensures front { (before : Option (List ℕ)) (told : Told)
            → HasGathered W.contents before writer.old self.old told
            → AppendsFront before (W.contents (sink writer.new)) (settled_front told) }
        ensures error { IfErr result (λ error. (error ≡ PutError.Write)
            ⊎ (error ≡ PutError.Memory)) }
    {
        if self.documents == 0 {
            return Ok(());
        }
        writer.list(self.documents, self.end, &self.list)?;
        self.list.clear();
        self.documents = 0;
        Ok(())
    }
}

//! A writer of the index text that is told its parts in order.
ghost use Rattle.std.specs.Prelude.{◌≡◌, ◌↔◌, ◌≤◌, ◌<◌, ◌-◌, ◌^◌, ℕ, List, ◌⊎◌, Option, None, Some, length, OnOk, OnErr, IfErr, IsTrue, All, map};
ghost use Rattle.std.specs.Io.KnownBytes.{Keeps};
ghost use Rattle.ix_vbyte.specs.Gaps.{Ascends};
ghost use Rattle.ix_vbyte.specs.Postings.{Posting};
ghost use Rattle.ix_text.specs.Collections.{Collection, IsLawful};
ghost use Rattle.ix_text.specs.Parts.{ArePartsOf, GramEntry, terms_of};
ghost use Rattle.ix_output.specs.Sinks.{AppendsFront};
ghost use Rattle.ix_index_text.specs.Endings.{IsFinished, WritesIndexText};
ghost use Rattle.ix_index_text.specs.Grams.{AreGramsOfTerms};
ghost use Rattle.ix_index_text.specs.IndexText.{layout};
ghost use Rattle.ix_index_text.specs.Sections.{FrontCoded};
ghost use Rattle.ix_index_text.specs.Rows.{document_row};
ghost use Rattle.ix_index_text.specs.Telling.{MayPost, MayList, IsClosable};
ghost use Rattle.ix_index_text.specs.Told.{Told, told_first, with_term, with_posting, with_postings, entries_of, parts_of, settled_front};
ghost use Rattle.ix_index_text.specs.Writers.{Answers, CanEndEntry, IsReady, TakesPosting, TakesList, WasTold, sink, sink_name};

pub(crate) mod dictionary;
pub(crate) mod grams;
pub(crate) mod list;
mod output;
pub(crate) mod trailer;

use crate::writer::output::{complete, put_coded, send_if_full};
use crate::{DocRow, PutError, WriterSections};
use ix_text::StopList;
use std::alloc::Global;
use std::io::Write;

/// A writer of the index text, version 2, of a collection that is told to it in the order of the text: postings
/// go out as they are told, and what is kept until the end is the dictionary, the texts of the terms for their grams, and
/// the rows.
pub struct IndexWriter<'a, W, S = WriterSections> {
    out: &'a mut W,
    sections: S,
}

impl<'a, W, S: Drop> Drop for IndexWriter<'a, W, S> {
    /// What was not written yet stays unwritten.
    fn drop(self)
        ensures { self.exit.0.now ≡ sink self.entry }
    {
        let IndexWriter {
            out: _,
            sections: _,
        } = self;
    }
}

impl<'a, W: Write> IndexWriter<'a, W> {
    /// Begins the text of a collection with this stop set and, in the order of their numbers, these documents.
    /// Names have less than 2^32 bytes, and documents are fewer than that. Writes nothing yet. Where memory is
    /// refused, the writer's next call answers `Memory`.
    pub fn begin(
        alloc: Global,
        out: &'a mut W,
        stop: &StopList,
        rows: &[DocRow<'_>],
    ) -> IndexWriter<'a, W>
        requires few { length rows.now < 2 ^ 32 }
        requires names { All (λ row. length row.name.now < 2 ^ 32) rows.now }
        ensures same_writer { sink_name result ≡ out.entry.ghost_name }
        ensures nothing_written { sink result ≡ out.entry.now }
        ensures told { IsReady result → WasTold W.contents (W.contents out.entry.now) result
            (told_first stop.now (map document_row rows.now)) }
        ensures refused { (error : PutError) → Answers result error → error ≡ PutError.Memory }
    {
        let mut sections = WriterSections::empty(alloc);
        if sections.begin(stop, rows).is_err() {
            sections.refusal = Some(PutError::Memory);
        }
        IndexWriter { out, sections }
    }

    /// Begins the entry of a term, of at most 255 bytes. Writes nothing. The entry before, if there is one, must
    /// have a posting.
    ///
    /// `Memory` where memory is refused. After any refusal the calls that follow answer `Failed`.
    pub fn term(&mut self, term: &str) -> Result<(), PutError>
        requires short { length term.now ≤ 255 }
        requires may { IsReady self.old → CanEndEntry self.old }
        ensures same_writer { sink_name self.new ≡ sink_name self.old }
        ensures nothing_written { sink self.new ≡ sink self.old }
        ensures told { (before : Option (List ℕ)) (told : Told) →
            WasTold W.contents before self.old told → IsClosable told →
            OnOk result (WasTold W.contents before self.new (with_term told term.now)) }
        ensures ready { OnOk result (IsReady self.old) }
        ensures refused { OnErr result (Answers self.new PutError.Failed) }
        ensures failed { (error : PutError) → Answers self.old error → result ≡ Err error }
        ensures error { IsReady self.old → IfErr result (λ error. error ≡ PutError.Memory) }
    {
        self.sections.take_up()?;
        self.sections.close()?;
        self.sections.open(term)?;
        self.sections.refusal = None;
        Ok(())
    }

    /// Adds a posting to the entry at hand: a document above those of the entry's postings so far, and one or more
    /// ascending positions. All postings together may have 2^28 positions.
    ///
    /// `Memory` where memory is refused, and then nothing was written; `Write` where a write is refused, and then a
    /// front of what was told went out. After any refusal the calls that follow answer `Failed`.
    #[inline]
    pub fn posting(&mut self, document: u32, positions: &[u32]) -> Result<(), PutError>
        requires document { document < 2 ^ 32 - 1 }
        requires some { 0 < length positions.now }
        requires ascending { Ascends 0 (2 ^ 32 - 1) positions.now }
        requires may { IsReady self.old → TakesPosting self.old document (length positions.now) }
        ensures same_writer { sink_name self.new ≡ sink_name self.old }
        ensures told { (before : Option (List ℕ)) (told : Told) →
            WasTold W.contents before self.old told → MayPost told document (length positions.now) →
            OnOk result (WasTold W.contents before self.new
            (with_posting told document positions.now)) }
        ensures front { (before : Option (List ℕ)) (told : Told) →
            WasTold W.contents before self.old told → MayPost told document (length positions.now) →
            OnErr result (AppendsFront before (W.contents (sink self.new))
            (settled_front (with_posting told document positions.now))) }
        ensures ready { OnOk result (IsReady self.old) }
        ensures refused { OnErr result (Answers self.new PutError.Failed) }
        ensures failed { (error : PutError) → Answers self.old error → (result ≡ Err error)
            × Keeps (W.contents (sink self.old)) (W.contents (sink self.new)) }
        ensures error { IsReady self.old → IfErr result (λ error. (error ≡ PutError.Write)
            ⊎ (error ≡ PutError.Memory)) }
        ensures memory { IfErr result (λ error. error ≡ PutError.Memory →
            Keeps (W.contents (sink self.old)) (W.contents (sink self.new))) }
    {
        self.sections.take_up()?;
        self.sections.stage(document, positions)?;
        send_if_full(self.out, &mut self.sections)?;
        self.sections.refusal = None;
        Ok(())
    }

    /// Adds postings to the entry at hand that are coded already: so many documents, the last of them just before `next`,
    /// and the bytes of their postings, where the first gap counts from the last document that the entry has so far.
    /// All postings together may have 2^28 positions.
    ///
    /// `Memory` where memory is refused, and then nothing was written; `Write` where a write is refused, and then a
    /// front of what was told went out. After any refusal the calls that follow answer `Failed`.
    pub fn list(&mut self, documents: u32, next: u32, bytes: &[u8]) -> Result<(), PutError>
        requires may { IsReady self.old → TakesList self.old documents next bytes.now }
        ensures same_writer { sink_name self.new ≡ sink_name self.old }
        ensures told { (before : Option (List ℕ)) (told : Told) (postings : List Posting) →
            WasTold W.contents before self.old told
            → MayList told postings documents next bytes.now
            → OnOk result (WasTold W.contents before self.new (with_postings told postings)) }
        ensures front { (before : Option (List ℕ)) (told : Told) (postings : List Posting) →
            WasTold W.contents before self.old told
            → MayList told postings documents next bytes.now
            → OnErr result (AppendsFront before (W.contents (sink self.new))
            (settled_front (with_postings told postings))) }
        ensures ready { OnOk result (IsReady self.old) }
        ensures refused { OnErr result (Answers self.new PutError.Failed) }
        ensures failed { (error : PutError) → Answers self.old error → (result ≡ Err error)
            × Keeps (W.contents (sink self.old)) (W.contents (sink self.new)) }
        ensures error { IsReady self.old → IfErr result (λ error. (error ≡ PutError.Write)
            ⊎ (error ≡ PutError.Memory)) }
        ensures memory { IfErr result (λ error. error ≡ PutError.Memory →
            Keeps (W.contents (sink self.old)) (W.contents (sink self.new))) }
    {
        self.sections.take_up()?;
        put_coded(self.out, &mut self.sections, bytes)?;
        self.sections.count(documents, next, bytes.len() as u32);
        self.sections.refusal = None;
        Ok(())
    }

    /// Whether nothing was refused so far. A writer may be born refused (`begin`).
    pub fn is_ready(&self) -> bool
        ensures { IsTrue result ↔ IsReady self.now }
    {
        self.sections.refusal.is_none()
    }

    /// Finishes the text: its last entry, what is not written yet, and everything behind POSTINGS; and flushes. The
    /// last entry, if there is one, must have a posting.
    ///
    /// `Memory` where memory is refused, and then nothing was written; `Write` where a write or the flush is refused,
    /// and then a front of the text went out.
    /// `Failed` after an earlier refusal.
    pub fn finish(self) -> Result<(), PutError>
        requires may { IsReady self → CanEndEntry self }
        ensures told { (before : Option (List ℕ)) (told : Told) →
            WasTold W.contents before self.entry told → IsClosable told →
            OnOk result (IsFinished before (W.contents self.exit.0.now) told) }
        ensures front { (before : Option (List ℕ)) (told : Told) →
            WasTold W.contents before self.entry told → IsClosable told → (grams : List GramEntry) →
            AreGramsOfTerms (terms_of (entries_of told)) grams →
            OnErr result (AppendsFront before (W.contents self.exit.0.now)
            (layout FrontCoded (parts_of told) grams)) }
        ensures index_text { (before : Option (List ℕ)) (told : Told) (collection : Collection) →
            WasTold W.contents before self.entry told → IsClosable told → IsLawful collection →
            ArePartsOf collection (parts_of told) →
            OnOk result (WritesIndexText before (W.contents self.exit.0.now) collection) }
        ensures error { IsReady self.entry → IfErr result (λ error. (error ≡ PutError.Write)
            ⊎ (error ≡ PutError.Memory)) }
        ensures failed { (error : PutError) → Answers self.entry error → (result ≡ Err error)
            × Keeps (W.contents (sink self.entry)) (W.contents self.exit.0.now) }
        ensures memory { IfErr result (λ error. error ≡ PutError.Memory →
            Keeps (W.contents (sink self.entry)) (W.contents self.exit.0.now)) }
    {
        let IndexWriter { out, mut sections } = self;
        complete(out, &mut sections)
    }
}

//! What a writer of an index text keeps until its end.
ghost use Rattle.std.specs.Prelude.{◌≡◌, ◌≤◌, ◌<◌, ◌+◌, ◌-◌, ◌*◌, ◌^◌, ◌++◌, ℕ, List, length, None, Some, OnOk, IfOk, IfErr, All, map, string_bytes};
ghost use Rattle.ix_vbyte.specs.Gaps.{Ascends};
ghost use Rattle.ix_vbyte.specs.Postings.{posting_bytes};
ghost use Rattle.ix_text.specs.Terms.{IsTerm};
ghost use Rattle.ix_index_text.specs.Rows.{document_row};
ghost use Rattle.ix_index_text.specs.Sections.{stop_section, documents_section};

use crate::PutError;
use crate::layout::MAGIC_FRONT_CODED;
use crate::row::DocRow;
use crate::writer::dictionary::Dictionary;
use crate::writer::grams::Grams;
use crate::writer::list::ListAtHand;
use crate::writer::trailer::Trailer;
use ix_text::StopList;
use ix_vbyte::{push_code, push_counted, push_posting};
use std::alloc::{AllocError, Global};
use std::mem;

/// What is pending goes out once it has so many bytes.
pub(crate) const FULL: usize = 1 << 16;

/// Room for what is pending: a posting of many positions may need more.
const ROOM: usize = FULL + (1 << 12);

/// What an `IndexWriter` keeps until its end: postings that are not written yet, the coded stop terms and
/// rows, the dictionary, and the terms whose grams are owed.
#[derive(Drop)]
pub struct WriterSections {
    /// What the next call answers, where it is no more to do anything.
    pub(crate) refusal: Option<PutError>,
    /// The last bytes of POSTINGS, which are not written yet, and before them perhaps the magic.
    pub(crate) pending: Vec<u8>,
    /// How many bytes POSTINGS has so far.
    pub(crate) postings: u64,
    pub(crate) list: ListAtHand,
    pub(crate) dictionary: Dictionary,
    pub(crate) grams: Grams,
    pub(crate) stop: Vec<u8>,
    pub(crate) documents: Vec<u8>,
    /// How many rows `documents` has.
    pub(crate) rows: u32,
}

impl WriterSections {
    ghost use Rattle.ix_index_text.specs.declared.put_error.PutError.TheVariants.{Failed};
    ghost use Rattle.ix_index_text.specs.declared.put_error.PutError.{PutError};
    ghost use Rattle.ix_index_text.specs.Endings.{IsEnding};
    ghost use Rattle.ix_index_text.specs.GramTables.{HoldsGrams};
    ghost use Rattle.ix_index_text.specs.SectionSteps.{IsEmpty, Begins, Closes, Opens, Counts};

    /// What is kept before anything is told. Takes no memory.
    pub(crate) fn empty(alloc: Global) -> WriterSections
        ensures { IsEmpty result }
    {
        WriterSections {
            refusal: None,
            pending: Vec::new(alloc),
            postings: 0,
            list: ListAtHand::none(alloc),
            dictionary: Dictionary::new(alloc),
            grams: Grams::new(alloc),
            stop: Vec::new(alloc),
            documents: Vec::new(alloc),
            rows: 0,
        }
    }

    /// Codes the stop terms and the rows, and has the magic pending, with room for what is written at once.
    pub(crate) fn begin(&mut self, stop: &StopList, rows: &[DocRow<'_>]) -> Result<(), AllocError>
        requires few { length rows.now < 2 ^ 32 }
        requires names { All (λ row. length row.name.now < 2 ^ 32) rows.now }
        ensures { IsEmpty self.old → OnOk result
            (Begins self.new stop.now (map document_row rows.now)) }
    {
        self.pending.try_reserve(ROOM)?;
        self.pending.extend_from_slice(MAGIC_FRONT_CODED)?;
        push_stop(&mut self.stop, stop.terms())?;
        push_rows(&mut self.documents, rows)?;
        self.rows = rows.len() as u32;
        Ok(())
    }

    /// Answers the refusal, if there is one. From here on there is one, until the call has done its work.
    pub(crate) fn take_up(&mut self) -> Result<(), PutError>
        ensures ready { OnOk result (self.old.refusal ≡ None) }
        ensures refused { IfErr result (λ e. self.old.refusal ≡ Some e) }
        ensures set { self.new ≡ record self.old { refusal = Some Failed } }
    {
        match mem::replace(&mut self.refusal, Some(PutError::Failed)) {
            None => Ok(()),
            Some(error) => Err(error),
        }
    }

    /// Puts the entry at hand, if there is one, into the dictionary. None is at hand then.
    pub(crate) fn close(&mut self) -> Result<(), AllocError>
        requires term { length self.old.list.term.items < 2 ^ 32 }
        requires room { self.old.dictionary.count + 1 < 2 ^ 32 }
        ensures closed { OnOk result (Closes self.old self.new) }
        ensures refusal { self.new.refusal ≡ self.old.refusal }
    {
        let list = &mut self.list;
        if list.documents > 0 {
            self.dictionary
                .push(list.term.as_slice(), list.documents, list.bytes)?;
        }
        list.documents = 0;
        list.bytes = 0;
        list.next = 0;
        Ok(())
    }

    /// Has a term without postings at hand.
    pub(crate) fn open(&mut self, term: &str) -> Result<(), AllocError>
        requires short { length term.now ≤ 255 }
        requires few { (terms : List (List ℕ)) × HoldsGrams self.old.grams terms
            × (length terms < 2 ^ 32 - 1) }
        ensures opened { OnOk result (Opens self.old self.new term.now) }
        ensures refusal { self.new.refusal ≡ self.old.refusal }
    {
        self.grams.push_term(term)?;
        self.list.term.clear();
        self.list.term.extend_from_slice(term.as_bytes())
    }

    /// GRAMS and the trailer, after the last entry was closed.
    pub(crate) fn ending(&self) -> Result<Vec<u8>, AllocError>
        requires { (terms : List (List ℕ)) × HoldsGrams self.now.grams terms }
        ensures { (terms : List (List ℕ)) → HoldsGrams self.now.grams terms →
            IfOk result (λ ending. IsEnding self.now terms ending.items) }
    {
        let mut ending = Vec::new(*self.stop.allocator());
        self.grams.write(&mut ending)?;
        let trailer = Trailer {
            postings: self.postings,
            stop: self.stop.len() as u64,
            documents: self.documents.len() as u64,
            dictionary: self.dictionary.bytes.len() as u64,
            grams: ending.len() as u64,
            rows: self.rows,
            entries: self.dictionary.count,
        };
        trailer.push(&mut ending)?;
        Ok(ending)
    }

    /// Codes a posting of the entry at hand.
    #[inline]
    pub(crate) fn stage(&mut self, document: u32, positions: &[u32]) -> Result<(), AllocError>
        requires document { document < 2 ^ 32 - 1 }
        requires next { self.old.list.next ≤ document }
        requires ascending { Ascends 0 (2 ^ 32 - 1) positions.now }
        requires some { 0 < length positions.now }
        requires documents { self.old.list.documents + 1 < 2 ^ 32 }
        requires list { self.old.list.bytes + 15 * length positions.now < 2 ^ 32 }
        requires postings { self.old.postings + 15 * length positions.now < 2 ^ 32 }
        ensures pending { OnOk result (self.new.pending.items ≡ self.old.pending.items
            ++ posting_bytes (document + 1 - self.old.list.next) (document, positions.now)) }
        ensures counted { OnOk result (Counts self.old self.new 1 (document + 1)
            (length (posting_bytes (document + 1 - self.old.list.next)
            (document, positions.now)))) }
        ensures refusal { self.new.refusal ≡ self.old.refusal }
    {
        let start = self.pending.len();
        push_posting(&mut self.pending, self.list.next, document, positions)?;
        let gained = self.pending.len() - start;
        self.count(1, document + 1, gained as u32);
        Ok(())
    }

    /// Counts documents of the entry at hand, the last of them just before `next`, whose postings have `size` bytes.
    #[inline]
    pub(crate) fn count(&mut self, documents: u32, next: u32, size: u32)
        requires documents { self.old.list.documents + documents < 2 ^ 32 }
        requires list { self.old.list.bytes + size < 2 ^ 32 }
        requires postings { self.old.postings + size < 2 ^ 32 }
        ensures counted { Counts self.old self.new documents next size }
        ensures pending { self.new.pending ≡ self.old.pending }
        ensures refusal { self.new.refusal ≡ self.old.refusal }
    {
        self.postings += size as u64;
        self.list.documents += documents;
        self.list.bytes += size;
        self.list.next = next;
    }
}

/// Appends the STOP section.
fn push_stop(out: &mut Vec<u8>, terms: &[String]) -> Result<(), AllocError>
    requires { All IsTerm (map string_bytes terms.now) }
    ensures { OnOk result (out.new.items ≡ out.old.items
        ++ stop_section (map string_bytes terms.now)) }
{
    for term in terms {
        push_counted(out, term.as_bytes())?;
    }
    Ok(())
}

/// Appends the DOCS section.
fn push_rows(out: &mut Vec<u8>, rows: &[DocRow<'_>]) -> Result<(), AllocError>
    requires { All (λ row. length row.name.now < 2 ^ 32) rows.now }
    ensures { OnOk result (out.new.items ≡ out.old.items
        ++ documents_section (map document_row rows.now)) }
{
    for row in rows {
        push_counted(out, row.name.as_bytes())?;
        push_code(out, row.tokens)?;
    }
    Ok(())
}

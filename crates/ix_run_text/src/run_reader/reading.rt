//! What a reader of a run text tells as a source: its terms, their postings, and its lists as they are coded.

use super::{Place, RunReader};
use crate::{ListError, Listed, RunHead, RunTextError, Source};
use ix_vbyte::cursor::Postings;
use std::io::Read;

impl<R: Read + Drop> Source for RunReader<R> {
    ghost use Rattle.std.specs.Prelude.{◌≡◌, ◌≢◌, ◌<◌, ◌≤◌, ◌+◌, [], List, ℕ, Some, None, Ok, Err, false, IsSome, IfErr, IfOk, IfSome, OnErr, OnOk, MatchBool, MatchOption, MatchResult, vec_capacity, vec_len};
    ghost use Rattle.ix_text.specs.Parts.{DictionaryEntry, Posting};
    ghost use Rattle.ix_run_text.specs.Reading.{BeginsFirst, Faces, GivesAll, GivesFirst, HasFailed, HasRead, IsDrained, IsEnded, IsSure, MayYield, StandsStill, postings_left, term_of};
    ghost use Rattle.ix_run_text.specs.RunReaders.{heading_read};
    ghost use Rattle.ix_run_text.specs.RunTextErrors.{IsRefusal};
    ghost use Rattle.ix_run_text.specs.Sources.{BeginsTerm, EndsTerms, EndsPostings, GivesList, GivesPosting, KeepsFaults};
    ghost use Rattle.ix_run_text.specs.Faults.{IsListFault, MayFault};
    ghost use Rattle.ix_run_text.specs.declared.run_text_error.RunTextError.TheVariants.{Failed, Memory};

    type Error = RunTextError;

    ghost heading = { heading_read };

    ghost current = { term_of };

    ghost yields = { MayYield R.remaining };

    ghost gives = { HasRead };

    ghost is_drained = { IsDrained };

    ghost is_ended = { IsEnded };

    ghost faults = { MayFault R.remaining };

    ghost sure = { IsSure R.remaining };

    fn head(&self) -> &RunHead {
        &self.head
    }

    /// Reads the next term and its list, over the postings of the current one that were not given. False: there is none, now and at
    /// each later call.
    ///
    /// # Errors
    /// In the order of the bytes. Of a term `TermSize` above 255 bytes, `Text`, `TermOrder` if it is not above the term before,
    /// `StopIndexed` if it is a stop term, `Zero` if it has no document, and `Number` if a code is faulty or the input ends inside a
    /// number or the term. Of its list `Number`; `ListLength` if the list ends inside a posting, before its last one, or behind it;
    /// `Zero` if a gap or the number of positions is 0; `DocRange` if the run has no such document; `PositionRange` if the document has
    /// no such position; `Doubled` if another term has that position. If the input ends or a read fails inside the list, or memory
    /// runs out, first the faults of the bytes that came. `Extra` if a byte comes behind the end mark; `Read` and `Memory`; after
    /// any error `Failed`.
    fn next_term(&mut self) -> Result<bool, RunTextError>
        ensures heading { heading_read self.new ≡ heading_read self.old }
        ensures begun { IfOk result (λ more. MatchBool more
            ((term : List ℕ) × (term_of self.new ≡ Some term)
            × BeginsTerm (MayYield R.remaining) HasRead IsDrained self.old self.new term)
            ((term_of self.new ≡ None) × IsEnded self.new
            × EndsTerms (MayYield R.remaining) HasRead IsDrained self.old self.new)) }
        ensures ended { IsEnded self.old → (result ≡ Ok false) × IsEnded self.new }
        ensures fault { IfErr result (MayFault R.remaining self.old) }
        ensures no_more_faults { OnOk result
            (KeepsFaults (MayFault R.remaining) self.old self.new) }
        ensures sure { OnOk result (IsSure R.remaining self.old → IsSure R.remaining self.new) }

        // Where a lawful dictionary lies ahead, its next entry is begun, unless a read or memory is refused.
        ensures accepted { (postings : List Posting) (entries : List DictionaryEntry)
            → Faces R.remaining self.old postings entries
            → MatchResult result (λ more.
            MatchBool more (BeginsFirst R.remaining self.new entries) (entries ≡ [])) IsRefusal }

        // What a refusal leaves.
        ensures refused { OnErr result (HasFailed self.new) }
        ensures failed { HasFailed self.old → result ≡ Err Failed }
    {
        match self.place {
            Place::Failed => Err(RunTextError::Failed),
            Place::Ended => Ok(false),
            Place::Begun | Place::AtTerm => match self.go_on() {
                Ok(more) => Ok(more),
                Err(error) => {
                    self.fail();
                    Err(error)
                }
            },
        }
    }

    fn term(&self) -> &str {
        self.term.as_str()
    }

    /// The document of the next posting of the current term, whose positions are put into `positions` in place of what
    /// it held. None: there is no further one, now and at each later call for this term.
    ///
    /// # Errors
    /// `Memory` if the positions find no room; after any error `Failed`. The list was checked by `next_term`.
    fn next_posting(&mut self, positions: &mut Vec<u32>) -> Result<Option<u32>, RunTextError>
        requires { IsSome (term_of self.old) }
        ensures heading { heading_read self.new ≡ heading_read self.old }
        ensures current { term_of self.new ≡ term_of self.old }
        ensures given { IfOk result (λ found. MatchOption found
            (IsDrained self.new × EndsPostings (MayYield R.remaining) HasRead self.old self.new)
            (λ document. GivesPosting (MayYield R.remaining) HasRead self.old self.new
            (document, positions.new.items))) }
        ensures drained { IsDrained self.old → result ≡ Ok None }
        ensures fault { IfErr result (MayFault R.remaining self.old) }
        ensures no_more_faults { OnOk result
            (KeepsFaults (MayFault R.remaining) self.old self.new) }
        ensures sure { OnOk result (IsSure R.remaining self.old → IsSure R.remaining self.new) }

        // Fewer are left.
        ensures counted { IfOk result (λ found.
            IfSome found (λ _. postings_left self.new < postings_left self.old)) }

        // Where postings of a lawful dictionary lie ahead, the next one is given, unless a read or memory is refused.
        ensures accepted { (postings : List Posting) (entries : List DictionaryEntry)
            → Faces R.remaining self.old postings entries
            → MatchResult result (λ found.
            MatchOption found ((postings ≡ []) × Faces R.remaining self.new [] entries)
            (λ document. GivesFirst R.remaining self.new
            (document, positions.new.items) postings entries)) IsRefusal }

        // What a refusal leaves.
        ensures refused { OnErr result (HasFailed self.new) }
        ensures failed { HasFailed self.old → result ≡ Err Failed }

        // It is refused memory only where as many positions as there was room for were taken.
        ensures full { IfErr result (λ error. error ≡ Memory
            → vec_capacity positions.old ≤ vec_len positions.new) }
    {
        if matches!(self.place, Place::Failed) {
            return Err(RunTextError::Failed);
        }
        if self.documents == 0 {
            return Ok(None);
        }
        match self.posting(positions) {
            Ok(document) => Ok(Some(document)),
            Err(_) => {
                self.fail();
                Err(RunTextError::Memory)
            }
        }
    }

    /// Appends all postings of the current term that are left, coded as one list: their documents counted in the whole
    /// collection, and the first gap from `next`, which is one above the document before them, or 0. Only that gap is coded anew; the
    /// other bytes are copied.
    ///
    /// # Errors
    /// `ListError::Memory` if what is left of the list and four bytes more find no room, since its first gap may be coded longer; the
    /// reader is unchanged then. `ListError::Source` with `Failed` after an error. An error leaves `out` as it was.
    fn take_list(&mut self, next: u32, out: &mut Vec<u8>) -> Result<Listed, ListError<RunTextError>>
        requires at_hand { IsSome (term_of self.old) }
        requires begun { (finished : List DictionaryEntry)
            × ((entry : DictionaryEntry) × HasRead self.old finished (Some entry)) }
        requires low { next ≤ (heading_read self.old).first }
        ensures heading { heading_read self.new ≡ heading_read self.old }
        ensures current { term_of self.new ≡ term_of self.old }
        ensures drained { OnOk result (IsDrained self.new) }
        ensures given { IfOk result (λ listed. GivesList (MayYield R.remaining) HasRead
            self.old self.new (heading_read self.old).first next listed.documents listed.next
            out.old.items out.new.items) }
        ensures refused { OnErr result (out.new.items ≡ out.old.items) }
        ensures fault { IfErr result (IsListFault (MayFault R.remaining self.old)) }
        ensures no_more_faults { OnOk result
            (KeepsFaults (MayFault R.remaining) self.old self.new) }
        ensures sure { OnOk result (IsSure R.remaining self.old → IsSure R.remaining self.new) }

        // If postings of a lawful dictionary lie ahead, the list of exactly these is given, unless memory is not granted.
        ensures accepted { (postings : List Posting) (entries : List DictionaryEntry)
            → Faces R.remaining self.old postings entries
            → MatchResult result (λ _. GivesAll R.remaining self.new (heading_read self.old).first
            next out.old.items out.new.items postings entries) (λ error. error ≡ ListError.Memory) }

        // What an error leaves.
        ensures stopped { IfErr result (λ error. error ≢ ListError.Memory → HasFailed self.new) }
        ensures failed { HasFailed self.old → result ≡ Err (ListError.Source Failed) }
        ensures kept { IfErr result (λ error. error ≡ ListError.Memory
            → StandsStill self.old self.new) }

        // Memory fails only if what is left of the list and four bytes more find no room.
        ensures full { IfErr result (λ error. error ≡ ListError.Memory
            → vec_capacity out.old < vec_len out.old + (self.old.bytes + 4)) }
    {
        if matches!(self.place, Place::Failed) {
            return Err(ListError::Source(RunTextError::Failed));
        }
        let documents = self.documents;
        if documents == 0 {
            return Ok(Listed { documents, next });
        }
        let first = self.head.first;
        let left = Postings::resume(&self.input.held()[..self.bytes], self.next, documents);
        if left.push_shifted(out, first, next).is_err() {
            return Err(ListError::Memory);
        }
        self.skip();
        Ok(Listed {
            documents,
            next: first + self.after,
        })
    }

    ghost drained_without_term = { λ reader none some. absurd (some none) };

    ghost given_lawfully = { λ reader finished at_hand read. read.lawful };

    ghost given_of_term = { λ reader finished at_hand read. read.of_term };

    ghost yielded_lawfully = { λ reader finished at_hand postings entries read may.
        may.whole finished at_hand read };

    ghost sure_yields = { λ reader finished at_hand read sure. record {
      postings = sure.postings;
      entries = sure.entries;
      yielded = sure.yielded;
    } };
}

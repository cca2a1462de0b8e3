//! The exact reader of a run text: it takes the bytes of a run as they come, and accepts no others.
ghost use Rattle.std.specs.Prelude.{◌≡◌, ◌≢◌, ◌+◌, ◌<◌, ◌≤◌, ◌^◌, ℕ, length, map, sum_by, take};
ghost use Rattle.ix_postings.specs.TokenMarks.{room};
ghost use Rattle.ix_postings.specs.TokenTables.{HasTokens};
ghost use Rattle.ix_run_text.specs.Heads.{row_of_doc};
ghost use Rattle.ix_run_text.specs.Inputs.{bytes_held};
ghost use Rattle.ix_run_text.specs.ReadTables.{HasTokens-prop};
ghost use Rattle.ix_run_text.specs.SpelledLists.{SpellsList, SpellsList-prop};
ghost use Rattle.ix_run_text.specs.declared.run_reader.Place.TheVariants.{AtTerm};

use crate::heading::read_head;
use crate::input::Input;
use crate::list::read_list;
use crate::term::read_term;
use crate::token_counts::table_of;
use crate::{RunHead, RunTextError};
use ix_postings::{TokenMarks, TokenTable};
use ix_vbyte::cursor::first_posting;
use std::alloc::{AllocError, Global};
use std::io::Read;

/// Where a reader is among the terms.
#[derive(Clone, Copy)]
enum Place {
    /// No term was read yet.
    Begun,
    /// A term is current.
    AtTerm,
    /// The end mark was read, and no byte comes behind it.
    Ended,
    /// A call returned an error.
    Failed,
}

/// A run text as a source of its postings, as they come from a reader.
///
/// The list of a term is read whole, checked and its tokens marked when the term is: so a fault of a list is an error of
/// `next_term`. Memory is that of the longest list. Returns the first error in byte order; after an error each later call returns
/// `Failed`.
#[derive(Drop)]
pub struct RunReader<R> {
    alloc: Global,
    input: Input<R>,
    // how many tokens there are before each document
    tokens: TokenTable,
    // the tokens of the lists that were checked
    marks: TokenMarks,
    // the term that was read last
    term: String,
    // a term's bytes before they are known to be text
    scratch: Vec<u8>,
    place: Place,
    // one above the last document given of the current term
    next: u32,
    // one above the last document of its list
    after: u32,
    // how many of its postings are left
    documents: u32,
    // how many bytes they have, which are buffered next
    bytes: usize,
    // last, since its stop terms take 4 KiB: so its first number lies beside what each list wants
    head: RunHead,
    ghost table: { HasTokens tokens (map row_of_doc head.docs.items) } by { HasTokens-prop tokens (map row_of_doc head.docs.items) },
    ghost few_documents: { length (map row_of_doc head.docs.items) ≤ 2 ^ 28 },
    ghost few_tokens: { sum_by (λ row. row.tokens) (map row_of_doc head.docs.items) ≤ 2 ^ 28 },
    ghost narrow: { room marks < sum_by (λ row. row.tokens) (map row_of_doc head.docs.items) + 64 },
    ghost room: { sum_by (λ row. row.tokens) (map row_of_doc head.docs.items) ≤ room marks },
    ghost far: { after ≤ 2 ^ 28 },
    ghost drained: { place ≢ AtTerm → documents ≡ 0 },
    ghost held: { bytes ≤ length (bytes_held input) },
    ghost left: { SpellsList next after documents (take bytes (bytes_held input)) } by { SpellsList-prop next after documents (take bytes (bytes_held input)) },
}

impl<R: Read + Drop> RunReader<R> {
    ghost use Rattle.std.specs.Prelude.{◌≡◌, ◌≢◌, ◌+◌, ◌<◌, ◌≤◌, ◌++◌, [], ◌∷◌, List, ℕ, Some, None, Ok, Err, IsSome, IfErr, IfOk, IfSome, OnErr, OnOk, MatchBool, MatchOption, MatchResult, string_bytes, vec_capacity, vec_len};
    ghost use Rattle.std.specs.Io.KnownBytes.{Consumes};
    ghost use Rattle.ix_text.specs.Parts.{DictionaryEntry, Posting};
    ghost use Rattle.ix_text.specs.Collections.{Collection};
    ghost use Rattle.ix_run_text.specs.Heads.{Heading, IsLawfulHeading, heading_of, parts_with};
    ghost use Rattle.ix_run_text.specs.RunReaders.{bytes_left, heading_read};
    ghost use Rattle.ix_run_text.specs.RunText.{IsRunText, heading_bytes, run_layout};
    ghost use Rattle.ix_run_text.specs.RunTextErrors.{IsRefusal};
    ghost use Rattle.ix_run_text.specs.Reading.{BeginsFirst, Faces, GivesFirst, HasRead, IsDrained, IsSure, MayYield, Skips, heading_from};
    ghost use Rattle.ix_run_text.specs.declared.run_reader.Place.TheVariants.{AtTerm, Ended, Failed};
    ghost use Rattle.ix_run_text.specs.Sources.{AreWhole, BeginsTerm, EndsTerms, GivesPosting, IsUnread};

    /// Reads the head of a run text: its magic, its first document number and number of documents, its stop terms and
    /// its documents.
    ///
    /// The errors come in the order of the bytes: `Magic` where the first eight bytes are others or are missing;
    /// `Number` where a code is faulty or the input ends inside a number or a text; `TooLarge` where a number of
    /// documents, stop terms or tokens is above 2^28; of each stop term `TermSize`, `Text` and `StopOrder`; of each
    /// document `Name` and `Text`. `Read` where the reader refused, and `Memory`.
    pub fn open(alloc: Global, reader: R) -> Result<RunReader<R>, RunTextError>
        // What was taken is the head of a run that may be.
        ensures taken { IfOk result (λ run.
            Consumes (R.remaining reader) (bytes_left R.remaining run)
            (heading_bytes (heading_read run))) }
        ensures lawful { IfOk result (λ run. IsLawfulHeading (heading_read run)) }

        // Nothing was given yet; what the reader yields from here on is what the bytes spell.
        ensures unread { IfOk result (λ run. IsUnread HasRead run) }
        ensures yields { (bytes : List ℕ) (entries : List DictionaryEntry)
            → R.remaining reader ≡ Some bytes
            → IfOk result (λ run. MayYield R.remaining run [] entries
            → (bytes ≡ run_layout (heading_read run).first (parts_with (heading_read run) entries))
            × AreWhole (heading_read run) entries) }

        // Where such a head stands first, it is the one that is read, unless a read or memory is refused.
        ensures accepted { (heading : Heading) (rest : List ℕ) → IsLawfulHeading heading
            → R.remaining reader ≡ Some (heading_bytes heading ++ rest)
            → MatchResult result (λ run. (heading_read run ≡ heading)
            × (bytes_left R.remaining run ≡ Some rest)) IsRefusal }

        // Of a run text of a lawful collection, its whole dictionary lies ahead then.
        ensures faced { (first : ℕ) (collection : Collection) (bytes : List ℕ)
            (is : IsRunText first collection bytes) → R.remaining reader ≡ Some bytes
            → MatchResult result (λ run. (heading_read run ≡ heading_from first is.parts)
            × Faces R.remaining run [] is.parts.entries) IsRefusal }
        ensures sure { (first : ℕ) (collection : Collection) (bytes : List ℕ)
            → IsRunText first collection bytes → R.remaining reader ≡ Some bytes
            → IfOk result (IsSure R.remaining) }
    {
        let mut input = Input::new(alloc, reader)?;
        let head = read_head(alloc, &mut input)?;
        let tokens = table_of(alloc, &head.docs)?;
        let marks = TokenMarks::new(alloc, tokens.total())?;
        Ok(RunReader {
            alloc,
            input,
            tokens,
            marks,
            term: String::new(alloc),
            scratch: Vec::new(alloc),
            place: Place::Begun,
            next: 0,
            after: 0,
            documents: 0,
            bytes: 0,
            head,
        })
    }

    /// The head of the run. Takes no memory.
    pub fn head(&self) -> &RunHead
        ensures { heading_of result.now ≡ heading_read self.now }
    {
        &self.head
    }

    /// The head alone. What is left of the run is let go.
    pub fn into_head(self) -> RunHead
        ensures { heading_of result ≡ heading_read self }
    {
        self.head
    }

    /// Takes the next posting of the current list, whose positions `positions` then holds alone.
    ///
    /// # Errors
    /// Out of memory, if the positions find no room. The reader is then as it was.
    fn posting(&mut self, positions: &mut Vec<u32>) -> Result<u32, AllocError>
        requires { 0 < self.old.documents }
        ensures heading { heading_of self.new.head ≡ heading_of self.old.head }
        ensures place { self.new.place ≡ self.old.place }
        ensures term { self.new.term ≡ self.old.term }
        ensures counted { OnOk result (self.new.documents + 1 ≡ self.old.documents) }
        ensures given { IfOk result (λ document.
            GivesPosting (MayYield R.remaining) HasRead self.old self.new
            (document, positions.new.items)) }
        ensures accepted { (postings : List Posting) (entries : List DictionaryEntry)
            → Faces R.remaining self.old postings entries
            → IfOk result (λ document. GivesFirst R.remaining self.new
            (document, positions.new.items) postings entries) }
        ensures full { OnErr result (vec_capacity positions.old ≤ vec_len positions.new) }
    {
        let list = &self.input.held()[..self.bytes];
        let (posting, rest) = first_posting(list, self.next);
        posting.read_positions(positions)?;
        let document = posting.document;
        let bytes = rest.len();
        self.input.pass(self.bytes - bytes);
        self.next = document + 1;
        self.documents -= 1;
        self.bytes = bytes;
        Ok(document)
    }

    /// Passes the postings that are left of the current list.
    fn skip(&mut self)
        ensures heading { heading_of self.new.head ≡ heading_of self.old.head }
        ensures place { self.new.place ≡ self.old.place }
        ensures term { self.new.term ≡ self.old.term }
        ensures after { self.new.after ≡ self.old.after }
        ensures drained { self.new.documents ≡ 0 }
        ensures skipped { Skips R.remaining self.old self.new }
    {
        if self.documents == 0 {
            return;
        }
        self.input.pass(self.bytes);
        self.next = self.after;
        self.documents = 0;
        self.bytes = 0;
    }

    /// Reads the next term and its list, over what is left of the current one. False: the end mark was read. After an error the place is
    /// as it was.
    fn go_on(&mut self) -> Result<bool, RunTextError>
        requires going { self.old.place ≢ Ended }
        ensures heading { heading_of self.new.head ≡ heading_of self.old.head }
        ensures begun { IfOk result (λ more. MatchBool more
            ((self.new.place ≡ AtTerm)
            × BeginsTerm (MayYield R.remaining) HasRead IsDrained self.old self.new
            (string_bytes self.new.term))
            ((self.new.place ≡ Ended)
            × EndsTerms (MayYield R.remaining) HasRead IsDrained self.old self.new)) }
        ensures accepted { (entries : List DictionaryEntry) (postings : List Posting)
            → Faces R.remaining self.old postings entries
            → MatchResult result (λ more.
            MatchBool more (BeginsFirst R.remaining self.new entries) (entries ≡ [])) IsRefusal }
        ensures sure { OnOk result (IsSure R.remaining self.old → IsSure R.remaining self.new) }
    {
        self.skip();
        let found = read_term(
            &mut self.input,
            &self.head.stop,
            &mut self.scratch,
            &mut self.term,
        )?;
        let Some(counts) = found else {
            self.place = Place::Ended;
            return Ok(false);
        };
        let after = read_list(&mut self.input, counts, &self.tokens, &mut self.marks)?;
        self.place = Place::AtTerm;
        self.next = 0;
        self.after = after;
        self.documents = counts.documents;
        self.bytes = counts.bytes as usize;
        Ok(true)
    }

    /// From now on each call returns `Failed`.
    fn fail(&mut self)
        ensures place { self.new.place ≡ Failed }
        ensures term { self.new.term ≡ self.old.term }
        ensures heading { heading_of self.new.head ≡ heading_of self.old.head }
    {
        self.skip();
        self.place = Place::Failed;
    }
}

mod reading;

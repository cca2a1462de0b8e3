//! An opened index: what stands in it is looked up where it stands.
ghost use Rattle.std.specs.Prelude.{◌≡◌, slice_get, Some, Contains, MatchOption};
ghost use Rattle.ix_file.specs.PlacedTerms.{terms_in};
ghost use Rattle.ix_text.specs.ByteOrder.{IsAscending};

use crate::OpenError;
use crate::numbers::Numbers;
use crate::open::frame::{FileSections, Version, cut};
use crate::open::grams::find_gram;
use crate::open::lists::list_of;
use crate::open::read_tables;
use crate::open::tables::{Held, skips_of};
use crate::open::terms::Terms;
use ix_text::StopList;
use ix_vbyte::cursor::Postings;
use std::alloc::Global;
use std::cmp::Ordering;
use std::marker::Model;
use std::str::from_utf8;

/// An index text of a lawful collection, opened. Its bytes are the caller's; no call takes memory.
#[derive(Drop)]
pub struct Index<'a> {
    sections: FileSections<'a>,
    tables: Held<'a>,
}

impl<'a> Model for Index<'a> {
    ghost use Rattle.ix_file.specs.Opened.{Opened};

    ghost Value = { Opened };

    ghost use Rattle.ix_file.specs.Frames.{texts_in};
    ghost use Rattle.ix_file.specs.Tables.{AreTablesOf, opened_in, tables_in};

    ghost view = { λ index. opened_in (texts_in index.sections) (tables_in index.tables) };

    ghost invariant = { λ index. AreTablesOf (texts_in index.sections) (tables_in index.tables) };
}

impl<'a> Index<'a> {
    ghost use Rattle.std.specs.Prelude.{◌≡◌, ◌<◌, length, slice_get, sum_by, Some, Contains, IfOk, MatchOption, MatchResult};
    ghost use Rattle.ix_text.specs.Collections.{Collection};
    ghost use Rattle.ix_text.specs.Parts.{terms_of};
    ghost use Rattle.ix_text.specs.PartsLaws.{AreLawful};
    ghost use Rattle.ix_file.specs.Frames.{texts_in};
    ghost use Rattle.ix_index_text.specs.Grams.{AreGramsOfTerms};
    ghost use Rattle.ix_index_text.specs.IndexText.{IsIndexText};
    ghost use Rattle.ix_file.specs.Opened.{IsIndexOf, document_counts, gram_texts, lists_of, names_of, token_counts, version_number};
    ghost use Rattle.ix_index_text.specs.Sections.{Version as FormatVersion};
    ghost use Rattle.ix_file.specs.Tables.{AreTablesOf, opened_in, tables_in};
    ghost use Rattle.ix_file.specs.declared.open_error.OpenError.TheVariants.{Memory};

    /// The index of these sections and tables.
    #[inline]
    pub(crate) fn new(sections: FileSections<'a>, tables: Held<'a>) -> Index<'a>
        requires { AreTablesOf (texts_in sections) (tables_in tables) }
        ensures { result ≡ opened_in (texts_in sections.entry) (tables_in tables.entry) }
    {
        Index { sections, tables }
    }

    /// Opens an index text: it is the index of the collection that the text stands for. Nothing is taken on trust: a
    /// text that stands for no lawful collection is refused, with the first rule that it breaks.
    ///
    /// The errors are those of `OpenError`; which of several is named is told by the order of the sections. `Memory`
    /// where memory is refused, which any text may meet.
    pub fn open(alloc: Global, bytes: &'a [u8]) -> Result<Index<'a>, OpenError>
        ensures found { IfOk result (λ index. (collection : Collection)
            × IsIndexOf index index.version collection × IsIndexText index.version collection
            bytes.now) }
        ensures exact { (version : FormatVersion) (collection : Collection) →
            IsIndexText version collection bytes.now →
            MatchResult result (λ index. IsIndexOf index version collection)
            (λ error. error ≡ Memory) }
    {
        let frame = cut(bytes)?;
        let tables = read_tables(alloc, &frame)?;
        Ok(Index::new(frame.sections, Held::Owned(tables)))
    }

    /// The version of the text: 1, or 2 where the dictionary is front coded.
    pub fn version(&self) -> u32
        ensures { result ≡ version_number self.now.version }
    {
        match self.tables.tables().version {
            Version::Plain => 1,
            Version::FrontCoded => 2,
        }
    }

    /// The stop list of the collection.
    pub fn stop(&self) -> &StopList
        ensures { result.now ≡ self.now.parts.stop }
    {
        &self.tables.tables().stop
    }

    /// How many documents there are.
    pub fn doc_count(&self) -> u32
        ensures count { result ≡ length self.now.parts.rows }
        ensures lawful { AreLawful self.now.parts }
    {
        self.tables.tables().rows.len() as u32
    }

    /// The name of the document of a number.
    pub fn name(&self, document: u32) -> &'a str
        requires { document < length self.now.parts.rows }
        ensures { slice_get (names_of self.now.parts.rows) document ≡ Some result.now }
    {
        let row = self.tables.tables().rows[document as usize];
        let name = &self.sections.documents[row.start..row.start + row.size as usize];
        from_utf8(name).unwrap()
    }

    /// How many tokens the document of a number has, those that are no term included.
    pub fn token_count(&self, document: u32) -> u32
        requires { document < length self.now.parts.rows }
        ensures { slice_get (token_counts self.now.parts.rows) document ≡ Some result }
    {
        self.tables.tables().rows[document as usize].tokens
    }

    /// How many tokens the documents have together, those that are no term included.
    pub fn token_total(&self) -> u32
        ensures count { result ≡ sum_by (λ row. row.tokens) self.now.parts.rows }
        ensures lawful { AreLawful self.now.parts }
    {
        self.tables.tables().rows.iter().map(|row| row.tokens).sum()
    }

    /// How many terms there are.
    pub fn term_count(&self) -> u32
        ensures count { result ≡ length self.now.parts.entries }
        ensures grams { AreGramsOfTerms (terms_of self.now.parts.entries) self.now.grams }
    {
        self.tables.tables().terms.len() as u32
    }

    /// The term of a number.
    pub fn term(&self, number: u32) -> &str
        requires { number < length self.now.parts.entries }
        ensures { slice_get (terms_of self.now.parts.entries) number ≡ Some result.now }
    {
        self.tables.tables().terms.text(number as usize)
    }

    /// In how many documents the term of a number is.
    pub fn documents_of(&self, number: u32) -> u32
        requires { number < length self.now.parts.entries }
        ensures { slice_get (document_counts self.now.parts.entries) number ≡ Some result }
    {
        self.tables.tables().terms.list(number as usize).documents
    }

    /// The postings of the term of a number.
    pub fn list(&self, number: u32) -> Postings<'a>
        requires { number < length self.now.parts.entries }
        ensures { slice_get (lists_of self.now.parts.entries) number ≡ Some result }
    {
        let place = self.tables.tables().terms.list(number as usize);
        Postings::new(list_of(self.sections.postings, place), place.documents)
    }

    /// The same list, which may be entered anywhere: `seek` does not walk a long list, but goes on near what is sought.
    fn list_by_places(&self, number: u32) -> Postings<'_>
        requires { number < length self.now.parts.entries }
        ensures { slice_get (lists_of self.now.parts.entries) number ≡ Some result }
    {
        let tables = self.tables.tables();
        let place = tables.terms.list(number as usize);
        let list = list_of(self.sections.postings, place);
        let postings = Postings::new(list, place.documents);
        postings.with_skips(skips_of(tables.longs.as_slice(), number as usize))
    }

    /// The postings of a term, or none where no document has the term. To `seek` in them costs little.
    pub fn find(&self, term: &str) -> Option<Postings<'_>>
        ensures { MatchOption result (¬ (Contains (terms_of self.now.parts.entries) term.now))
            (λ postings. Contains self.now.parts.entries
            (record { term = term.now; postings = postings })) }
    {
        let number = place_of(&self.tables.tables().terms, term)?;
        Some(self.list_by_places(number as u32))
    }

    /// The numbers of the terms that have a gram, or none where no term has it.
    pub fn gram(&self, gram: &str) -> Option<Numbers<'a>>
        ensures { MatchOption result (¬ (Contains (gram_texts self.now.grams) gram.now))
            (λ numbers. Contains self.now.grams (record { gram = gram.now; numbers = numbers })) }
    {
        let rows = self.tables.tables().grams.as_slice();
        let place = find_gram(self.sections.grams, rows, gram)?;
        let row = rows[place];
        let end = row.numbers + row.numbers_size;
        Some(Numbers::new(&self.sections.grams[row.numbers..end], row.count))
    }
}

/// The number of a term, or none where there is no such term.
fn place_of(terms: &Terms, term: &str) -> Option<usize>
    requires { IsAscending (terms_in terms.now) }
    ensures { MatchOption result (¬ (Contains (terms_in terms.now) term.now))
        (λ place. slice_get (terms_in terms.now) place ≡ Some term.now) }
{
    let wanted = term.as_bytes();
    let mut low = 0;
    let mut high = terms.len();
    while low < high {
        let middle = low + (high - low) / 2;
        match terms.text(middle).as_bytes().cmp(wanted) {
            Ordering::Less => low = middle + 1,
            Ordering::Equal => return Some(middle),
            Ordering::Greater => high = middle,
        }
    }
    None
}

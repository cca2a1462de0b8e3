//! What stands in an index text before its lists and grams are looked at: the stop list, the documents and the terms.
ghost use Rattle.std.specs.Prelude.{◌≡◌, ◌⊎◌, ℕ, ◌^◌, ◌≤◌, List, sum_by, IfOk, IfErr};
ghost use Rattle.ix_postings.specs.TokenTables.{HasTokens};
ghost use Rattle.ix_file.specs.Catalogs.{AreNoSections, IsCatalogOf};
ghost use Rattle.ix_file.specs.Frames.{texts_in, version_in};
ghost use Rattle.ix_file.specs.OpenedRows.{rows_in};
ghost use Rattle.ix_file.specs.declared.open_error.OpenError.TheVariants.{Memory};

use crate::OpenError;
use crate::open::claims::Claims;
use crate::open::dictionary::read_dictionary;
use crate::open::documents::{Row, read_documents};
use crate::open::frame::Frame;
use crate::open::grams::{GramRow, read_grams, read_grams_beside};
use crate::open::lists::{check_lists, check_lists_beside};
use crate::open::stop::read_stop;
use crate::open::tables::LongList;
use crate::open::terms::Terms;
use ix_postings::TokenTable;
use ix_text::StopList;
use std::alloc::{AllocError, Global};
use std::thread::Threads;

/// The stop list, the documents and the terms of an index text.
#[derive(Drop)]
pub(crate) struct Catalog {
    pub(crate) stop: StopList,
    pub(crate) rows: Vec<Row>,
    pub(crate) terms: Terms,
}

/// Reads STOP, DOCS and DICTIONARY of an index text that was cut into its frame.
///
/// The errors of STOP, DOCS and DICTIONARY, in this order; or `Memory`.
pub(crate) fn read_catalog(alloc: Global, frame: &Frame<'_>) -> Result<Catalog, OpenError>
    ensures found { IfOk result (λ catalog. IsCatalogOf (version_in frame.now.version)
        (texts_in frame.now.sections) catalog frame.now.documents frame.now.terms) }
    ensures refused { IfErr result (λ error. (error ≡ Memory)
        ⊎ AreNoSections (version_in frame.now.version) (texts_in frame.now.sections)
        frame.now.documents frame.now.terms) }
{
    let sections = frame.sections;
    let stop = read_stop(alloc, sections.stop)?;
    let rows = read_documents(alloc, sections.documents, frame.documents)?;
    let terms = read_dictionary(
        alloc,
        frame.version,
        sections.dictionary,
        &stop,
        frame.terms,
        sections.postings.len(),
    )?;
    Ok(Catalog { stop, rows, terms })
}

impl Catalog {
    ghost use Rattle.std.specs.Prelude.{◌≡◌, ◌⊎◌, ◌^◌, ◌<◌, ◌≤◌, IfOk, IfErr};
    ghost use Rattle.ix_file.specs.Catalogs.{AreGramRowsOf, AreLongListsOf, AreNoSections, IsCatalogOf};
    ghost use Rattle.ix_file.specs.Frames.{texts_in, version_in};
    ghost use Rattle.ix_file.specs.declared.open_error.OpenError.TheVariants.{Memory};

    /// Checks the list of each term, where it stands in POSTINGS, and that no token of the documents is claimed twice.
    /// Returns where the long lists may be entered.
    ///
    /// The errors of POSTINGS; or `Memory`.
    pub(crate) fn check_postings(
        &self,
        alloc: Global,
        frame: &Frame<'_>,
    ) -> Result<Vec<LongList>, OpenError>
        requires few { frame.now.documents ≤ 2 ^ 28 }
        requires catalog { IsCatalogOf (version_in frame.now.version) (texts_in frame.now.sections)
            self.now frame.now.documents frame.now.terms }
        ensures found { IfOk result (λ longs.
            AreLongListsOf (texts_in frame.now.sections) self.now longs.items) }
        ensures refused { IfErr result (λ error. (error ≡ Memory)
            ⊎ AreNoSections (version_in frame.now.version) (texts_in frame.now.sections)
            frame.now.documents frame.now.terms) }
    {
        let section = frame.sections.postings;
        let tokens = table_of(alloc, &self.rows)?;
        let claims = Claims::new(alloc, tokens.total(), section.len())?;
        let longs = check_lists(alloc, section, &self.terms, &tokens, claims)?;
        Ok(longs)
    }

    /// Checks POSTINGS as `check_postings` does, in two threads if there may be two. The result is the same.
    pub(crate) fn check_postings_beside<R: Threads>(
        &self,
        rt: &R,
        alloc: Global,
        frame: &Frame<'_>,
    ) -> Result<Vec<LongList>, OpenError>
        requires few { frame.now.documents ≤ 2 ^ 28 }
        requires catalog { IsCatalogOf (version_in frame.now.version) (texts_in frame.now.sections)
            self.now frame.now.documents frame.now.terms }
        ensures found { IfOk result (λ longs.
            AreLongListsOf (texts_in frame.now.sections) self.now longs.items) }
        ensures refused { IfErr result (λ error. (error ≡ Memory)
            ⊎ AreNoSections (version_in frame.now.version) (texts_in frame.now.sections)
            frame.now.documents frame.now.terms) }
    {
        let section = frame.sections.postings;
        let tokens = table_of(alloc, &self.rows)?;
        let total = tokens.total();
        let longs = check_lists_beside(rt, alloc, section, &self.terms, &tokens, total)?;
        Ok(longs)
    }

    /// Reads GRAMS, which lists each gram of the terms.
    ///
    /// `Grams` if the section is any other, or `Memory`.
    pub(crate) fn check_grams(
        &self,
        alloc: Global,
        frame: &Frame<'_>,
    ) -> Result<Vec<GramRow>, OpenError>
        requires few { frame.now.terms < 2 ^ 32 }
        requires catalog { IsCatalogOf (version_in frame.now.version) (texts_in frame.now.sections)
            self.now frame.now.documents frame.now.terms }
        ensures found { IfOk result (λ rows.
            AreGramRowsOf (texts_in frame.now.sections) self.now rows.items) }
        ensures refused { IfErr result (λ error. (error ≡ Memory)
            ⊎ AreNoSections (version_in frame.now.version) (texts_in frame.now.sections)
            frame.now.documents frame.now.terms) }
    {
        let rows = read_grams(alloc, frame.sections.grams, &self.terms)?;
        Ok(rows)
    }

    /// Reads GRAMS as `check_grams` does, in two threads if there may be two. The result is the same.
    pub(crate) fn check_grams_beside<R: Threads>(
        &self,
        rt: &R,
        alloc: Global,
        frame: &Frame<'_>,
    ) -> Result<Vec<GramRow>, OpenError>
        requires few { frame.now.terms < 2 ^ 32 }
        requires catalog { IsCatalogOf (version_in frame.now.version) (texts_in frame.now.sections)
            self.now frame.now.documents frame.now.terms }
        ensures found { IfOk result (λ rows.
            AreGramRowsOf (texts_in frame.now.sections) self.now rows.items) }
        ensures refused { IfErr result (λ error. (error ≡ Memory)
            ⊎ AreNoSections (version_in frame.now.version) (texts_in frame.now.sections)
            frame.now.documents frame.now.terms) }
    {
        let rows = read_grams_beside(rt, alloc, frame.sections.grams, &self.terms)?;
        Ok(rows)
    }
}

/// The table of the tokens of documents, of which there are at most 2^28.
fn table_of(alloc: Global, rows: &[Row]) -> Result<TokenTable, AllocError>
    requires { sum_by (λ row. row.tokens) rows.now ≤ 2 ^ 28 }
    ensures { IfOk result (λ table. (section : List ℕ) →
        HasTokens table (rows_in section rows.now)) }
{
    let mut table = TokenTable::new(alloc)?;
    for row in rows {
        table.push(row.tokens)?;
    }
    Ok(table)
}

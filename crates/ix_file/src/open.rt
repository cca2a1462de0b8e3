//! The exact reading of an index text, section by section: each part is accepted exactly if it is the part of
//! lawful values, and gives those.
ghost use Rattle.std.specs.Prelude.{◌≡◌, ◌⊎◌, ◌^◌, ◌<◌, ◌≤◌, IfOk, IfErr};
ghost use Rattle.ix_file.specs.Catalogs.{AreGramRowsOf, AreLongListsOf, AreNoSections, IsCatalogOf};
ghost use Rattle.ix_file.specs.Frames.{texts_in, version_in};
ghost use Rattle.ix_file.specs.OpenedGrams.{grams_in};
ghost use Rattle.ix_file.specs.Spelled.{AreSectionsOf};
ghost use Rattle.ix_file.specs.Tables.{AreTablesOf, parts_in};
ghost use Rattle.ix_file.specs.declared.open_error.OpenError.TheVariants.{Memory};

pub(crate) mod catalog;
pub(crate) mod claims;
pub(crate) mod dictionary;
pub(crate) mod documents;
pub(crate) mod frame;
mod front;
mod gram_walk;
pub(crate) mod grams;
pub(crate) mod list;
pub(crate) mod lists;
mod sides;
pub(crate) mod stop;
pub(crate) mod tables;
pub(crate) mod terms;

use crate::OpenError;
use crate::open::catalog::{Catalog, read_catalog};
use crate::open::frame::Frame;
use crate::open::grams::GramRow;
use crate::open::tables::{LongList, Tables};
use std::alloc::Global;
use std::thread::{Threads, join};

/// Reads the tables of an index text that was cut into its frame.
///
/// The errors of STOP, DOCS, DICTIONARY, POSTINGS and GRAMS, in this order; or `Memory`.
pub(crate) fn read_tables(alloc: Global, frame: &Frame<'_>) -> Result<Tables, OpenError>
    requires documents { frame.now.documents ≤ 2 ^ 28 }
    requires terms { frame.now.terms < 2 ^ 32 }
    ensures version { IfOk result (λ tables. tables.version ≡ frame.now.version) }
    ensures tables { IfOk result (λ tables. AreTablesOf (texts_in frame.now.sections) tables) }
    ensures spelled { IfOk result (λ tables. AreSectionsOf (version_in frame.now.version)
        (parts_in (texts_in frame.now.sections) tables)
        (grams_in frame.now.sections.grams.now tables.grams.items) (texts_in frame.now.sections)
        frame.now.documents frame.now.terms) }
    ensures refused { IfErr result (λ error. (error ≡ Memory)
        ⊎ AreNoSections (version_in frame.now.version) (texts_in frame.now.sections)
        frame.now.documents frame.now.terms) }
{
    let catalog = read_catalog(alloc, frame)?;
    let longs = catalog.check_postings(alloc, frame)?;
    let grams = catalog.check_grams(alloc, frame)?;
    Ok(tables_of(frame, catalog, longs, grams))
}

/// Reads the tables as `read_tables` does: POSTINGS and GRAMS side by side, in several threads if there may be
/// several.
///
/// The same errors in the same order: if both fail, those of POSTINGS.
pub(crate) fn read_tables_beside<R: Threads + Sync>(
    rt: &R,
    alloc: Global,
    frame: &Frame<'_>,
) -> Result<Tables, OpenError>
    requires documents { frame.now.documents ≤ 2 ^ 28 }
    requires terms { frame.now.terms < 2 ^ 32 }
    ensures version { IfOk result (λ tables. tables.version ≡ frame.now.version) }
    ensures tables { IfOk result (λ tables. AreTablesOf (texts_in frame.now.sections) tables) }
    ensures spelled { IfOk result (λ tables. AreSectionsOf (version_in frame.now.version)
        (parts_in (texts_in frame.now.sections) tables)
        (grams_in frame.now.sections.grams.now tables.grams.items) (texts_in frame.now.sections)
        frame.now.documents frame.now.terms) }
    ensures refused { IfErr result (λ error. (error ≡ Memory)
        ⊎ AreNoSections (version_in frame.now.version) (texts_in frame.now.sections)
        frame.now.documents frame.now.terms) }
{
    let catalog = read_catalog(alloc, frame)?;
    let check_postings = || -> Result<Vec<LongList>, OpenError>
        requires few { frame.now.documents ≤ 2 ^ 28 }
        requires catalog { IsCatalogOf (version_in frame.now.version) (texts_in frame.now.sections)
            catalog frame.now.documents frame.now.terms }
        ensures found { IfOk result (λ found.
            AreLongListsOf (texts_in frame.entry.now.sections) catalog found.items) }
        ensures refused { IfErr result (λ error. (error ≡ Memory)
            ⊎ AreNoSections (version_in frame.entry.now.version)
            (texts_in frame.entry.now.sections) frame.entry.now.documents
            frame.entry.now.terms) }
    { catalog.check_postings_beside(rt, alloc, frame) };
    let check_grams = || -> Result<Vec<GramRow>, OpenError>
        requires few { frame.now.terms < 2 ^ 32 }
        requires catalog { IsCatalogOf (version_in frame.now.version) (texts_in frame.now.sections)
            catalog frame.now.documents frame.now.terms }
        ensures found { IfOk result (λ found.
            AreGramRowsOf (texts_in frame.entry.now.sections) catalog found.items) }
        ensures refused { IfErr result (λ error. (error ≡ Memory)
            ⊎ AreNoSections (version_in frame.entry.now.version)
            (texts_in frame.entry.now.sections) frame.entry.now.documents
            frame.entry.now.terms) }
    { catalog.check_grams_beside(rt, alloc, frame) };
    let (longs, grams) = join(rt, check_postings, check_grams);
    let longs = longs?;
    let grams = grams?;
    Ok(tables_of(frame, catalog, longs, grams))
}

/// The tables of what was read: a catalog, the places of the long lists, and the grams.
fn tables_of(
    frame: &Frame<'_>,
    catalog: Catalog,
    longs: Vec<LongList>,
    grams: Vec<GramRow>,
) -> Tables
    requires few { frame.now.documents ≤ 2 ^ 28 }
    requires catalog { IsCatalogOf (version_in frame.now.version) (texts_in frame.now.sections)
        catalog frame.now.documents frame.now.terms }
    requires longs { AreLongListsOf (texts_in frame.now.sections) catalog longs.items }
    requires grams { AreGramRowsOf (texts_in frame.now.sections) catalog grams.items }
    ensures version { result.version ≡ frame.now.version }
    ensures tables { AreTablesOf (texts_in frame.now.sections) result }
    ensures spelled { AreSectionsOf (version_in frame.now.version)
        (parts_in (texts_in frame.now.sections) result)
        (grams_in frame.now.sections.grams.now result.grams.items) (texts_in frame.now.sections)
        frame.now.documents frame.now.terms }
{
    let Catalog { stop, rows, terms } = catalog;
    Tables {
        version: frame.version,
        stop,
        rows,
        terms,
        longs,
        grams,
    }
}

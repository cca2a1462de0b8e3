//! An index together with the bytes of its text.
ghost use Rattle.std.specs.Prelude.{◌≡◌};
ghost use Rattle.ix_file.specs.Frames.{texts_in};
ghost use Rattle.ix_file.specs.Places.{ArePlacesIn, IsFramed, texts_at};

use crate::open::frame::{FileSections, cut};
use crate::open::tables::{Held, Tables};
use crate::open::{read_tables, read_tables_beside};
use crate::{Index, OpenError};
use ix_index_text::{MARK_BYTES, TRAILER_BYTES};
use std::alloc::Global;
use std::marker::Model;
use std::thread::Threads;

/// Where each section behind POSTINGS begins, and where the last ends.
#[derive(Clone, Copy)]
struct Places {
    stop: usize,
    documents: usize,
    dictionary: usize,
    grams: usize,
    end: usize,
}

/// Where the sections of an index text stand in it.
fn places_of(bytes: &[u8], sections: FileSections<'_>) -> Places
    requires { IsFramed bytes.now (texts_in sections) }
    ensures placed { ArePlacesIn bytes.now result }
    ensures texts { texts_at bytes.now result ≡ texts_in sections.entry }
{
    let end = bytes.len() - TRAILER_BYTES;
    let grams = end - sections.grams.len();
    let dictionary = grams - sections.dictionary.len();
    let documents = dictionary - sections.documents.len();
    let stop = documents - sections.stop.len();
    Places {
        stop,
        documents,
        dictionary,
        grams,
        end,
    }
}

/// An index text of a lawful collection, opened, with its bytes.
#[derive(Drop)]
pub struct Volume {
    bytes: Vec<u8>,
    places: Places,
    tables: Tables,
}

impl Model for Volume {
    ghost use Rattle.ix_file.specs.Opened.{Opened};

    ghost Value = { Opened };

    ghost use Rattle.ix_file.specs.Places.{IsVolume, texts_at};
    ghost use Rattle.ix_file.specs.Tables.{opened_in};

    ghost view = { λ volume. opened_in (texts_at volume.bytes.items volume.places) volume.tables };

    ghost invariant = { λ volume. IsVolume volume.bytes.items volume.places volume.tables };
}

impl Volume {
    ghost use Rattle.std.specs.Prelude.{◌≡◌, IfOk, MatchResult};
    ghost use Rattle.ix_text.specs.Collections.{Collection};
    ghost use Rattle.ix_index_text.specs.IndexText.{IsIndexText};
    ghost use Rattle.ix_file.specs.Opened.{IsIndexOf};
    ghost use Rattle.ix_index_text.specs.Sections.{Version as FormatVersion};
    ghost use Rattle.ix_file.specs.declared.open_error.OpenError.TheVariants.{Memory};

    /// Opens an index text, as `Index::open` does, and keeps its bytes; a refusal drops them.
    pub fn open(alloc: Global, bytes: Vec<u8>) -> Result<Volume, OpenError>
        ensures found { IfOk result (λ volume. (collection : Collection)
            × IsIndexOf volume volume.version collection × IsIndexText volume.version collection
            bytes.items) }
        ensures exact { (version : FormatVersion) (collection : Collection) →
            IsIndexText version collection bytes.items →
            MatchResult result (λ volume. IsIndexOf volume version collection)
            (λ error. error ≡ Memory) }
    {
        let frame = cut(&bytes)?;
        let tables = read_tables(alloc, &frame)?;
        let places = places_of(&bytes, frame.sections);
        Ok(Volume {
            bytes,
            places,
            tables,
        })
    }

    /// Opens an index text as `open` does, and checks POSTINGS and GRAMS side by side, each in parts, in several threads
    /// where there may be several. It answers the same: of two errors that of POSTINGS.
    pub fn open_beside<R: Threads + Sync>(
        rt: &R,
        alloc: Global,
        bytes: Vec<u8>,
    ) -> Result<Volume, OpenError>
        ensures found { IfOk result (λ volume. (collection : Collection)
            × IsIndexOf volume volume.version collection × IsIndexText volume.version collection
            bytes.items) }
        ensures exact { (version : FormatVersion) (collection : Collection) →
            IsIndexText version collection bytes.items →
            MatchResult result (λ volume. IsIndexOf volume version collection)
            (λ error. error ≡ Memory) }
    {
        let frame = cut(&bytes)?;
        let tables = read_tables_beside(rt, alloc, &frame)?;
        let places = places_of(&bytes, frame.sections);
        Ok(Volume {
            bytes,
            places,
            tables,
        })
    }

    /// The index. It takes no memory.
    pub fn index(&self) -> Index<'_>
        ensures { result ≡ self.now }
    {
        let bytes = self.bytes.as_slice();
        let places = self.places;
        let sections = FileSections {
            postings: &bytes[MARK_BYTES..places.stop],
            stop: &bytes[places.stop..places.documents],
            documents: &bytes[places.documents..places.dictionary],
            dictionary: &bytes[places.dictionary..places.grams],
            grams: &bytes[places.grams..places.end],
        };
        Index::new(sections, Held::Lent(&self.tables))
    }
}

//! The terms of an opened index, close together in memory.
ghost use Rattle.std.specs.Prelude.{◌≡◌, ◌<◌, ◌∷◌, ◌++◌, [], length, map, slice_get, Some, All, IsUtf8, IfOk, OnOk};
ghost use Rattle.ix_file.specs.PlacedTerms.{list_place, placed_at, terms_in};

use std::alloc::{AllocError, Global};
use std::marker::Model;

/// Where the list of a term stands in POSTINGS, how many bytes it has, and of how many documents it is.
#[derive(Clone, Copy)]
pub(crate) struct ListPlace {
    pub(crate) start: usize,
    pub(crate) size: u32,
    pub(crate) documents: u32,
}

/// Terms by their numbers, each with the place of its list. Contracts see the list of them.
///
/// An index may have millions of terms of a few bytes: a piece of memory for each text would take more than the texts
/// do. GRAMS is checked against them in an order that is not theirs, for which they are to lie close together.
#[derive(Drop)]
pub(crate) struct Terms {
    // one behind another
    texts: String,
    // where each text begins, and behind the last one where it ends
    starts: Vec<usize>,
    places: Vec<ListPlace>,
}

impl Model for Terms {
    ghost use Rattle.std.specs.Prelude.{List, string_bytes};
    ghost use Rattle.ix_file.specs.PlacedTerms.{PlacedTerm};

    ghost Value = { List PlacedTerm };

    ghost use Rattle.ix_file.specs.HeldTerms.{HoldTerms, terms_told};

    ghost view = { λ terms. terms_told (string_bytes terms.texts) terms.starts.items
        terms.places.items };

    ghost invariant = { λ terms. HoldTerms (string_bytes terms.texts) terms.starts.items
        terms.places.items (terms_told (string_bytes terms.texts) terms.starts.items
        terms.places.items) };
}

impl Terms {
    /// No terms, with room for `count`, whose texts have `bytes` bytes together.
    pub(crate) fn with_room(alloc: Global, count: usize, bytes: usize) -> Result<Terms, AllocError>
        ensures { IfOk result (λ terms. terms ≡ []) }
    {
        let texts = String::with_capacity(alloc, bytes)?;
        let mut starts = Vec::with_capacity(alloc, count.saturating_add(1))?;
        starts.push(0)?;
        let places = Vec::with_capacity(alloc, count)?;
        Ok(Terms {
            texts,
            starts,
            places,
        })
    }

    /// Adds a term behind the others.
    pub(crate) fn push(&mut self, term: &str, place: ListPlace) -> Result<(), AllocError>
        ensures { OnOk result (self.new ≡ self.old ++ placed_at term.now place ∷ []) }
    {
        self.starts.reserve(1)?;
        self.places.reserve(1)?;
        self.texts.push_str(term)?;
        self.starts.push_reserved(self.texts.len());
        self.places.push_reserved(place);
        Ok(())
    }

    /// Gives back the room for texts that was not taken.
    pub(crate) fn fit(&mut self)
        ensures { self.new ≡ self.old }
    {
        self.texts.shrink_to_fit();
    }

    /// How many terms there are.
    #[inline]
    pub(crate) fn len(&self) -> usize
        ensures count { result ≡ length self.now }
        ensures texts { All IsUtf8 (terms_in self.now) }
    {
        self.places.len()
    }

    /// The term of a number.
    #[inline]
    pub(crate) fn text(&self, number: usize) -> &str
        requires { number < length self.now }
        ensures { slice_get (terms_in self.now) number ≡ Some result.now }
    {
        &self.texts[self.starts[number]..self.starts[number + 1]]
    }

    /// Where the list of the term of a number stands.
    #[inline]
    pub(crate) fn list(&self, number: usize) -> ListPlace
        requires { number < length self.now }
        ensures { slice_get (map list_place self.now) number ≡ Some result }
    {
        self.places[number]
    }
}

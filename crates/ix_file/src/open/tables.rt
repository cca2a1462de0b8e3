//! The tables of an opened index.
ghost use Rattle.std.specs.Prelude.{◌≡◌, ◌⊎◌, [], Contains};
ghost use Rattle.ix_file.specs.declared.open.tables.LongList.{LongList as SeenList};

use crate::open::documents::Row;
use crate::open::frame::Version;
use crate::open::grams::GramRow;
use crate::open::terms::Terms;
use ix_text::StopList;
use ix_vbyte::cursor::Skip;

/// The places at which the list of a term may be entered, which are kept of long lists alone.
#[derive(Drop)]
pub(crate) struct LongList {
    /// The term's number.
    pub(crate) number: usize,
    pub(crate) skips: Vec<Skip>,
}

/// The places at which the list of the term of a number may be entered: none if they are not kept.
pub(crate) fn skips_of(longs: &[LongList], number: usize) -> &[Skip]
    ensures { (result.now ≡ []) ⊎ ((long : SeenList) × Contains longs.now long
        × (long.number ≡ number) × (result.now ≡ long.skips.items)) }
{
    let Ok(place) = longs.binary_search_by(|long| long.number.cmp(&number)) else {
        return &[];
    };
    let long = &longs[place];
    if long.number != number {
        return &[];
    }
    long.skips.as_slice()
}

/// What opening an index makes: what is looked up in it, and where in the text the rest stands.
#[derive(Drop)]
pub(crate) struct Tables {
    pub(crate) version: Version,
    pub(crate) stop: StopList,
    pub(crate) rows: Vec<Row>,
    pub(crate) terms: Terms,
    pub(crate) longs: Vec<LongList>,
    pub(crate) grams: Vec<GramRow>,
}

/// The tables of an index, which are its own or are lent to it.
#[derive(Drop)]
pub(crate) enum Held<'a> {
    Owned(Tables),
    Lent(&'a Tables),
}

impl<'a> Held<'a> {
    ghost use Rattle.std.specs.Prelude.{◌≡◌};
    ghost use Rattle.ix_file.specs.Tables.{tables_in};

    /// The tables.
    #[inline]
    pub(crate) fn tables(&self) -> &Tables
        ensures { result.now ≡ tables_in self.now }
    {
        match self {
            Held::Owned(tables) => tables,
            Held::Lent(tables) => tables,
        }
    }
}

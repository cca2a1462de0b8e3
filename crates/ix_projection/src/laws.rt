//! Laws of a collection with fewer terms. The functions change nothing and answer nothing: what they ensure is a fact.
ghost use Rattle.ix_projection.specs.Laws.{KeepsIndexText, KeepsLawful, KeepsNames, KeepsParts};
ghost use Rattle.ix_projection.specs.Laws.{KeepsPostings, KeepsRows};

/// A collection with fewer terms has the postings of the kept terms, and no others.
pub fn keeps_postings()
    ensures { KeepsPostings }
{}

/// A collection with fewer terms is lawful if the whole one is.
pub fn keeps_lawful()
    ensures { KeepsLawful }
{}

/// The documents stay: their rows are the same, and so are their names.
pub fn keeps_documents()
    ensures rows { KeepsRows }
    ensures names { KeepsNames }
{}

/// The parts of a collection with fewer terms are those of the whole one, the dictionary without the other terms.
pub fn keeps_parts()
    ensures { KeepsParts }
{}

/// The index text of a collection with fewer terms, of either version, is that of these parts.
pub fn keeps_index_text()
    ensures { KeepsIndexText }
{}

//! Laws of an opened index. The functions change nothing and answer nothing: what they ensure is a fact.
ghost use Rattle.ix_text.specs.Parts.{terms_of};
ghost use Rattle.ix_text.specs.PartsLaws.{AreLawful};
ghost use Rattle.ix_index_text.specs.Grams.{AreGramsOfTerms};
ghost use Rattle.ix_file.specs.OpenedLaws.{EntriesHavePostings, GramsHaveNumbers, NumbersTellEntries, OthersAreNoGram, OthersHaveNoPosting};
ghost use Rattle.ix_file.specs.SizeLaws.{HasBytesForEntries, HasBytesForPlaces};

use crate::Index;

/// An index text has, besides its marks and its trailer, two bytes for each stop term and each document of its opened
/// index, seven for each term and three for each gram. POSTINGS has at least one for each list of which an opened index
/// keeps places at which it may be entered, and one for each such place.
pub fn index_text_has_bytes_for_entries()
    ensures entries { HasBytesForEntries }
    ensures places { HasBytesForPlaces }
{}

/// The postings that an opened index has under a term are exactly those of the term in its collection, and a term that
/// it does not have is in no document. The term and the postings of one number belong together.
pub fn opened_postings_are_of_the_collection()
    ensures there { EntriesHavePostings }
    ensures nowhere { OthersHaveNoPosting }
    ensures numbered { NumbersTellEntries }
{}

/// The numbers that an opened index has under a gram are exactly those of the terms that have the gram, and a gram that
/// it does not have is that of no term.
pub fn opened_grams_are_of_the_collection()
    ensures there { GramsHaveNumbers }
    ensures nowhere { OthersAreNoGram }
{}

/// The parts of an opened index are those of a lawful collection, and its grams are those of its terms.
pub fn opened_parts_are_lawful(index: &Index<'_>)
    ensures parts { AreLawful index.now.parts }
    ensures grams { AreGramsOfTerms (terms_of index.now.parts.entries) index.now.grams }
{
    // for the prover: both calls say that an open index is lawful
    let _ = index.doc_count();
    let _ = index.term_count();
}

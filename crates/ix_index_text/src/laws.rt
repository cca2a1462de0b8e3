//! Laws of the index text. The functions change nothing and answer nothing: what they ensure is a fact.
ghost use Rattle.ix_index_text.specs.GramLaws.{GramsOfVocabularyAreOfCollection, TermsHaveOneGramList};
ghost use Rattle.ix_index_text.specs.Laws.{CollectionHasIndexText, CollectionHasOneIndexText, HasOneVersion, HasSixtyFourBytes};
ghost use Rattle.ix_index_text.specs.Laws.{IndexTextTellsCollection, IndexTextTellsVersionAndCollection};
ghost use Rattle.ix_index_text.specs.TellingLaws.{SettledFrontBeginsIndexText};

/// An index text has at least 64 bytes.
pub fn index_text_has_sixty_four_bytes()
    ensures { HasSixtyFourBytes }
{}

/// A text of version 1 is none of version 2.
pub fn index_text_has_one_version()
    ensures { HasOneVersion }
{}

/// An index text stands for one lawful collection at most.
pub fn index_text_tells_collection()
    ensures { IndexTextTellsCollection }
{}

/// An index text tells its version with its collection.
pub fn index_text_tells_version_and_collection()
    ensures { IndexTextTellsVersionAndCollection }
{}

/// A lawful collection has an index text of each version, and only one.
pub fn collection_has_one_index_text()
    ensures some { CollectionHasIndexText }
    ensures one { CollectionHasOneIndexText }
{}

/// The grams of the terms of a collection's dictionary, each term under its place, are those of the collection.
pub fn grams_of_the_vocabulary()
    ensures { GramsOfVocabularyAreOfCollection }
{}

/// A list of terms has one list of grams.
pub fn terms_have_one_gram_list()
    ensures { TermsHaveOneGramList }
{}

/// Where what a writer was told so far is all of a lawful collection, the front of the text that is settled by it
/// begins an index text of that collection.
pub fn settled_front_begins_index_text()
    ensures { SettledFrontBeginsIndexText }
{}

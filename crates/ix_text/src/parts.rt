//! Laws of the parts into which formats take a collection apart. The functions do nothing: what they ensure is a
//! fact about the definitions.
ghost use Rattle.ix_text.specs.PartsLaws.{LawfulCollectionsHaveLawfulParts, LawfulPartsHaveCollection, LawfulPartsLieBelow, PartsTellCollection, TermsShareTokens};
ghost use Rattle.ix_text.specs.TokenLaws.{DistinctTokensAreLawful, LawfulTokensAreDistinct};

/// Two collections that have the same stop terms, rows and dictionary are the same.
pub fn parts_tell_collection()
    ensures { PartsTellCollection }
{}

/// Parts that keep the rules of a lawful collection are those of one.
pub fn lawful_parts_have_collection()
    ensures { LawfulPartsHaveCollection }
{}

/// The parts of a lawful collection keep its rules.
pub fn lawful_collections_have_lawful_parts()
    ensures { LawfulCollectionsHaveLawfulParts }
{}

/// In lawful parts the numbers of documents and positions are below 2^28.
pub fn lawful_parts_lie_below()
    ensures { LawfulPartsLieBelow }
{}

/// The terms of a collection have together at most as many positions as the collection has tokens.
pub fn terms_share_tokens()
    ensures { TermsShareTokens }
{}

/// Parts in order that tell no token twice are lawful.
pub fn distinct_tokens_are_lawful()
    ensures { DistinctTokensAreLawful }
{}

/// Lawful parts are in order and tell no token twice.
pub fn lawful_tokens_are_distinct()
    ensures { LawfulTokensAreDistinct }
{}

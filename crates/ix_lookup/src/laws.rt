//! What holds of the terms that are found.
ghost use Rattle.ix_lookup.specs.FoundEntries.{FindsEntries};

use crate::TermMatcher;

/// Terms that are found in the dictionary of a lawful collection are exactly its terms that are looked for, each with
/// the number of its documents and the place of its list in POSTINGS.
pub fn found_terms_are_entries<M: TermMatcher>(_matcher: &M)
    ensures { FindsEntries (M.wants _matcher.now) }
{}

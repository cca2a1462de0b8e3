//! Laws of the run text. The functions do nothing: what they ensure is a fact about the definitions.
ghost use Rattle.ix_run_text.specs.Laws.{CollectionHasOneRunText, CollectionHasRunText, HasEighteenBytes, NoRunTextBeginsAnother, RunTextIsRead, RunTextTellsCollection, WhatIsReadIsRunText};

use std::io::Read;

/// A run text has at least 18 bytes.
pub fn run_text_has_eighteen_bytes()
    ensures { HasEighteenBytes }
{}

/// A run text stands for one lawful collection at most, and for one number of its first document.
pub fn run_text_tells_collection()
    ensures { RunTextTellsCollection }
{}

/// A lawful collection has a run text for each number of its first document up to 2^28 minus its number of documents, and only
/// one.
pub fn collection_has_one_run_text()
    ensures some { CollectionHasRunText }
    ensures one { CollectionHasOneRunText }
{}

/// No run text begins another: its last byte can be told without what follows.
pub fn no_run_text_begins_another()
    ensures { NoRunTextBeginsAnother }
{}

/// What a reader of a run text reads to its end is the run text of a lawful collection, whichever calls were made of it.
pub fn what_is_read_is_run_text<R: Read>()
    ensures { WhatIsReadIsRunText R.remaining }
{}

/// A run text is read to its end: whichever calls were made of its reader, the terms that were not begun lie ahead.
pub fn run_text_is_read<R: Read>()
    ensures { RunTextIsRead R.remaining }
{}

//! The layout of index texts: the marks at both ends, the bytes of each part of the frame, and how terms stand in groups.

/// The mark at the front of a text of version 1.
pub const MAGIC_PLAIN: &[u8] = b"PIIX0001";

/// The mark at the front of a text of version 2.
pub const MAGIC_FRONT_CODED: &[u8] = b"PIIX0002";

/// The mark at the end of a text of version 1.
pub const END_MARK_PLAIN: &[u8] = b"PIIXEND1";

/// The mark at the end of a text of version 2.
pub const END_MARK_FRONT_CODED: &[u8] = b"PIIXEND2";

/// The bytes of a mark.
pub const MARK_BYTES: usize = 8;

/// How many sections there are: POSTINGS, STOP, DOCS, DICTIONARY and GRAMS.
const SECTIONS: usize = 5;

/// The bytes of the length of a section.
pub const LENGTH_BYTES: usize = 8;

/// The bytes of the lengths of all sections.
pub const LENGTHS_BYTES: usize = SECTIONS * LENGTH_BYTES;

/// The bytes of a count: of the documents, and of the terms.
pub const COUNT_BYTES: usize = 4;

/// The bytes of both counts.
pub const COUNTS_BYTES: usize = 2 * COUNT_BYTES;

/// The bytes of the trailer: the lengths, the counts, and the mark at the end.
pub const TRAILER_BYTES: usize = LENGTHS_BYTES + COUNTS_BYTES + MARK_BYTES;

/// The bytes of the frame, which are all that a text without a byte in its sections has.
pub const FRAME_BYTES: usize = MARK_BYTES + TRAILER_BYTES;

/// The fewest bytes that DOCS has of a document: one of its name, and one for each of two numbers.
pub const MIN_ROW_BYTES: usize = 3;

/// The fewest bytes that DICTIONARY has of a term: one of its text, and one for each of three numbers.
pub const MIN_ENTRY_BYTES: usize = 4;

/// How many terms stand in a group of version 2: the first of them whole, the others front coded.
pub const GROUP: usize = 4;

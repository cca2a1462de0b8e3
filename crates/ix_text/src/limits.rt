//! The most of everything that an index may hold, in any format, and that a text to be read may have.

/// The most documents that an index may have. They are numbered from 0, so that each number is below it.
pub const MAX_DOCUMENTS: u32 = 1 << 28;

/// The most tokens that the documents of an index may have together, stop words included.
pub const MAX_TOKENS: u32 = 1 << 28;

/// The most stop terms that an index may have.
pub const MAX_STOP_TERMS: u32 = 1 << 28;

/// The most bytes that a term may have.
pub const MAX_TERM_BYTES: u32 = 255;

/// The most bytes that a document's name may have.
pub const MAX_NAME_BYTES: u32 = 255;

/// The most bytes that a collection text or a stop text may have.
pub const MAX_TEXT_BYTES: usize = 1 << 28;

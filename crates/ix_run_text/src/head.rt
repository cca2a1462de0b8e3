//! The head of a run: what stands in it before its terms.

use ix_text::StopList;

/// A document of a run: its name, and the number of its tokens, entries that are nothing included.
#[derive(Debug, Drop)]
pub struct RunDoc {
    /// UTF-8 text of 1 to 255 bytes without TAB and LF.
    pub name: String,
    /// How many entries its token list has, those that are nothing included: at most 2^28, all documents together.
    pub tokens: u32,
}

/// What a run says before its terms: the number of its first document in the whole collection, the stop terms under
/// which it was made, and its documents, which count from 0 within the run.
#[derive(Drop)]
pub struct RunHead {
    /// The number of the first document.
    pub first: u32,
    /// The stop terms.
    pub stop: StopList,
    /// The documents, in order.
    pub docs: Vec<RunDoc>,
}

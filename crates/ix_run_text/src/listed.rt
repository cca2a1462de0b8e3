//! What a source tells of a list that it gave whole, and why it gives none.

/// The postings of a term that a source gave as one coded list.
#[derive(Clone, Copy, Debug, PartialEq, Eq)]
pub struct Listed {
    /// How many documents the list has.
    pub documents: u32,
    /// One above the last of them; where there is none, one above the document before the list.
    pub next: u32,
}

/// Why a source gives no list.
#[derive(Clone, Copy, Debug, Drop, PartialEq, Eq)]
pub enum ListError<E> {
    /// The list found no room.
    Memory,
    /// The source refused a posting.
    Source(E),
}

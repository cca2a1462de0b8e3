//! The list of the entry at hand.
use std::alloc::Global;

/// The term of the entry at hand, and what the dictionary will say of its list: how many documents and how
/// many bytes it has so far. No document stands for no entry.
#[derive(Drop)]
pub(crate) struct ListAtHand {
    pub(crate) term: Vec<u8>,
    pub(crate) documents: u32,
    pub(crate) bytes: u32,
    /// One above the last document, or 0.
    pub(crate) next: u32,
}

impl ListAtHand {
    ghost use Rattle.std.specs.Prelude.{◌≡◌, []};

    /// No entry. Takes no memory.
    pub(crate) fn none(alloc: Global) -> ListAtHand
        ensures documents { result.documents ≡ 0 }
        ensures term { result.term.items ≡ [] }
        ensures bytes { result.bytes ≡ 0 }
    {
        ListAtHand {
            term: Vec::new(alloc),
            documents: 0,
            bytes: 0,
            next: 0,
        }
    }
}

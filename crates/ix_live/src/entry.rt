//! What a version keeps of an operation.

/// An operation without its documents.
#[derive(Clone, Copy)]
pub enum Entry {
    /// This many documents were added.
    Added(u32),
    /// The document of a number was removed.
    Removed(u32),
}

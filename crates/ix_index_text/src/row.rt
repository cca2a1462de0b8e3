//! What a writer is told of a document.

/// A document as a row of the index text: its name, and the number of its tokens, entries that are nothing
/// included.
#[derive(Clone, Copy, Debug)]
pub struct DocRow<'a> {
    /// The name, of 1 to 255 bytes.
    pub name: &'a str,
    /// How many entries the token list has.
    pub tokens: u32,
}

//! Progress of a build.

/// Receives progress of a build.
pub trait Watch: Sync {
    /// One more block was inverted, of `blocks` in all. Called in the thread that inverted it.
    fn inverted(&self, blocks: usize);
}

/// Ignores progress.
pub struct Unwatched;

impl Watch for Unwatched {
    fn inverted(&self, _blocks: usize) {}
}

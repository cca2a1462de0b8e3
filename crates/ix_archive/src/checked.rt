//! What a check of an archive finds.

use crate::ArchiveError;
use ix_manifest::Segment;

/// What an archive has.
#[derive(Clone, Copy, Debug, PartialEq, Eq)]
pub struct Counts {
    /// How many documents its segments have, removed ones included.
    pub documents: u64,
    /// How many of these documents are removed.
    pub removed: u64,
    /// How many segments there are.
    pub segments: u64,
    /// How many bytes the segments have.
    pub bytes: u64,
}

/// What a check of an archive found.
#[derive(Debug, Drop)]
pub enum Checked {
    /// All is as it must be.
    Sound(Counts),
    /// What is wrong: `Segment` or `Differs` of a file, in the order of the manifest. There is at least one fault.
    Faulty(Vec<ArchiveError>),
}

impl Counts {
    ghost use Rattle.std.specs.Prelude.{◌≡◌, IfSome};
    ghost use Rattle.ix_archive.specs.Counting.{counts_with, no_counts};

    /// The counts of nothing.
    pub(crate) fn none() -> Counts
        ensures { result ≡ no_counts }
    {
        Counts {
            documents: 0,
            removed: 0,
            segments: 0,
            bytes: 0,
        }
    }

    /// These counts and those of one more segment, or `None` if a number does not fit.
    pub(crate) fn with(&self, segment: &Segment, removed: u32) -> Option<Counts>
        ensures { IfSome result (λ counts. counts ≡ counts_with self.now segment.now removed) }
    {
        Some(Counts {
            documents: self.documents.checked_add(u64::from(segment.documents))?,
            removed: self.removed.checked_add(u64::from(removed))?,
            segments: self.segments.checked_add(1)?,
            bytes: self.bytes.checked_add(segment.bytes)?,
        })
    }
}

//! The last bytes of an index text.
ghost use Rattle.std.specs.Prelude.{◌≡◌, ◌++◌, OnOk};

use crate::layout::END_MARK_FRONT_CODED;
use std::alloc::AllocError;

/// How many bytes the five sections have, and how many rows and entries there are.
#[derive(Clone, Copy)]
pub(crate) struct Trailer {
    pub(crate) postings: u64,
    pub(crate) stop: u64,
    pub(crate) documents: u64,
    pub(crate) dictionary: u64,
    pub(crate) grams: u64,
    pub(crate) rows: u32,
    pub(crate) entries: u32,
}

impl Trailer {
    ghost use Rattle.ix_index_text.specs.Endings.{trailer_bytes};

    /// Appends the numbers, each in eight or four bytes, and the mark of the end.
    pub(crate) fn push(&self, out: &mut Vec<u8>) -> Result<(), AllocError>
        ensures { OnOk result (out.new.items ≡ out.old.items ++ trailer_bytes self.now) }
    {
        out.extend_from_slice(&self.postings.to_le_bytes())?;
        out.extend_from_slice(&self.stop.to_le_bytes())?;
        out.extend_from_slice(&self.documents.to_le_bytes())?;
        out.extend_from_slice(&self.dictionary.to_le_bytes())?;
        out.extend_from_slice(&self.grams.to_le_bytes())?;
        out.extend_from_slice(&self.rows.to_le_bytes())?;
        out.extend_from_slice(&self.entries.to_le_bytes())?;
        out.extend_from_slice(END_MARK_FRONT_CODED)?;
        Ok(())
    }
}

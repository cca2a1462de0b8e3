//! Segments: the documents of a live index lie in index texts that follow one another.
ghost use Rattle.std.specs.Prelude.{◌≡◌, Some, None, IfOk, MatchOption};
ghost use Rattle.ix_live.specs.Pieces.{generation_at};

use ix_file::Volume;
use ix_text::Memory;
use std::alloc::Global;
use std::marker::Model;
use std::sync::Arc;

/// An opened index text with its bytes. One of generation g has at least 2^g documents.
#[derive(Drop)]
pub struct Segment {
    pub generation: u32,
    pub volume: Volume,
}

/// A slot of a table of segments: it is empty, or has a segment, which it shares with slots of
/// other tables.
#[derive(Drop)]
pub struct Slot {
    segment: Option<Arc<Segment, Global>>,
}

impl Model for Slot {
    ghost use Rattle.std.specs.Prelude.{Option, option_map};
    ghost use Rattle.std.specs.Arc.{arc_value};
    ghost use Rattle.ix_live.specs.declared.segment.Segment.{Segment};

    ghost Value = { Option Segment };

    ghost view = { λ slot. option_map arc_value slot.segment };
}

impl Default for Slot {
    /// An empty slot.
    fn default() -> Slot {
        Slot { segment: None }
    }
}

impl Slot {
    /// The slot of a new segment.
    pub fn new(alloc: Global, segment: Segment) -> Result<Slot, Memory>
        ensures { IfOk result (λ slot. slot ≡ Some segment) }
    {
        let segment = Arc::new(alloc, segment)?;
        Ok(Slot {
            segment: Some(segment),
        })
    }

    /// A slot with the same segment.
    pub fn again(&self) -> Result<Slot, Memory>
        ensures { IfOk result (λ slot. slot ≡ self.now) }
    {
        match &self.segment {
            None => Ok(Slot { segment: None }),
            Some(segment) => {
                let segment = Arc::try_clone(segment)?;
                Ok(Slot {
                    segment: Some(segment),
                })
            }
        }
    }

    /// The segment, or none if the slot is empty.
    pub fn segment(&self) -> Option<&Segment>
        ensures { MatchOption result (self.now ≡ None) (λ segment. self.now ≡ Some segment.now) }
    {
        match &self.segment {
            None => None,
            Some(segment) => Some(&**segment),
        }
    }

    /// The generation of the segment, 0 if the slot is empty.
    pub fn generation(&self) -> u32
        ensures { result ≡ generation_at self.now }
    {
        match self.segment() {
            None => 0,
            Some(segment) => segment.generation,
        }
    }
}

//! The handle of an opened index, as C has it.
ghost use Rattle.std.specs.Prelude.{◌≡◌, None, Some, false, is_some, true};

use crate::held::Held;
use crate::loose::Loose;
use ix_file::Volume;
use std::alloc::Global;
use std::mem::replace;

/// The handle of an opened index: `ix_index` of `include/ix.h`. All zero bits: closed.
#[repr(C)]
pub struct Handle {
    /// Whether it holds an index.
    pub is_open: bool,
    /// The index.
    pub held: Held,
    pub ghost agrees: { is_some held.value ≡ is_open },
}

impl Handle {
    /// A handle that holds no index.
    pub(crate) fn closed(alloc: Global) -> Handle
        ensures { result.held.value ≡ None }
    {
        Handle {
            is_open: false,
            held: Held::none(alloc),
        }
    }

    /// A handle that holds this index.
    pub(crate) fn of(volume: Box<Volume>) -> Handle
        ensures { result.held.value ≡ Some volume.value }
    {
        Handle {
            is_open: true,
            held: Held::of(Loose::of(volume)),
        }
    }

    /// Takes the index out, so that the handle is closed.
    pub(crate) fn take(&mut self, alloc: Global) -> Box<Volume>
        requires { self.old.is_open ≡ true }
        ensures taken { self.old.held.value ≡ Some result.value }
        ensures closed { self.new.held.value ≡ None }
    {
        replace(self, Handle::closed(alloc))
            .into_held()
            .into_loose()
            .into_box()
    }

    /// What the handle holds.
    fn into_held(self) -> Held
        ensures { result.value ≡ self.held.value }
    {
        let Handle { is_open: _, held } = self;
        held
    }

    /// Drops the index, if there is one.
    pub(crate) fn close(&mut self, alloc: Global)
        ensures { self.new.held.value ≡ None }
    {
        if self.is_open {
            self.take(alloc);
        }
    }
}

impl Drop for Handle {
    /// Drops a closed handle. An open one is closed first, or its index is never freed.
    fn drop(self)
        requires { self.held.value ≡ None }
    {
        let Handle {
            is_open: _,
            held: _,
        } = self;
    }
}

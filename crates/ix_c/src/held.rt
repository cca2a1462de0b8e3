//! What a handle holds: an opened index behind a pointer whose type C need not know, or nothing.
ghost use Rattle.std.specs.Prelude.{◌≡◌, Option, None, Some, is_some, true};
ghost use Rattle.ix_file.specs.Opened.{Opened};

use crate::loose::Loose;
use ix_file::Volume;
use std::alloc::Global;
use std::marker::Model;

/// The pointer of a boxed index, or of nothing. Only what holds nothing can be dropped: the box is taken out first.
#[repr(C)]
pub struct Held {
    at: *mut u8,
    alloc: Global,
    /// The index, if there is one.
    pub ghost value: { Option Opened },
}

impl Model for Held {
    ghost use Rattle.std_alloc.specs.Box.Ownership.{box_owns};
    ghost use Rattle.std.specs.contracts.impls.GlobalAllocator.TheImpl.{ghosts};
    ghost use Rattle.ix_file.specs.contracts.volume.Volume.{the_row};
    ghost use Rattle.ix_c.specs.Held.{owned_at};

    ghost also_owns = { λ h.
        owned_at (box_owns (ghosts.dealloc_token h.alloc) the_row h.at) h.value };
}

impl Held {
    /// What holds this box.
    pub(crate) fn of(loose: Loose<Volume, Global>) -> Held
        ensures { result.value ≡ Some loose.value }
    {
        let Loose { at, alloc } = loose;
        Held {
            at: at as *mut u8,
            alloc,
        }
    }

    /// The box that is held.
    pub(crate) fn into_loose(self) -> Loose<Volume, Global>
        requires { is_some self.value ≡ true }
        ensures { self.value ≡ Some result.value }
    {
        let Held { at, alloc } = self;
        Loose {
            at: at as *mut Volume,
            alloc,
        }
    }

    /// What holds nothing.
    pub(crate) fn none(alloc: Global) -> Held
        ensures { result.value ≡ None }
    {
        Held {
            at: std::ptr::null_mut(),
            alloc,
        }
    }
}

// A thread may open what another asks and a third closes: the index is plain data, and any thread may free its block.
unsafe impl Send for Held {}

impl Drop for Held {
    /// Drops what holds nothing. A box that is held is taken out first, or it is never freed.
    fn drop(self)
        requires { self.value ≡ None }
    {
        let Held { at: _, alloc: _ } = self;
    }
}

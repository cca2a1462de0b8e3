//! Why bytes are no list of postings.
ghost use Rattle.std.specs.Prelude.{◌≡◌};
ghost use Rattle.ix_postings.specs.declared.list_fault.ListFault.TheVariants.{Memory};

use ix_vbyte::VbError;
use std::alloc::AllocFailed;
use thiserror::Error;

/// Why bytes are no list of postings, or why they could not be checked.
#[derive(Clone, Copy, Debug, PartialEq, Eq, Error)]
pub enum ListFault {
    /// The code of a number is faulty. `Number(Cut)` if the bytes end inside the list.
    #[error("Number({0})")]
    Number(VbError),
    /// A gap or the number of positions is 0.
    #[error("Zero")]
    Zero,
    /// There is no such document.
    #[error("DocRange")]
    DocRange,
    /// The document has no such position.
    #[error("PositionRange")]
    PositionRange,
    /// The token was seen before.
    #[error("Doubled")]
    Doubled,
    /// The list has more bytes than its postings.
    #[error("ListLength")]
    ListLength,
    /// Out of memory.
    #[error("Memory")]
    Memory,
}

impl<T: Drop> From<AllocFailed<T>> for ListFault {
    ghost from_gives = { λ _ fault. fault ≡ Memory };

    fn from(_error: AllocFailed<T>) -> ListFault {
        ListFault::Memory
    }
}
